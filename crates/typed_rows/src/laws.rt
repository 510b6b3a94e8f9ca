//! The laws of relations of numerals and of the same relations with values of the columns' types. Each
//! is a function that does nothing, whose clause is the law; so the gate asks for its proof.

ghost use Rattle.std.specs.Prelude.{◌≡◌, ℕ, ◌↔◌, List, length, All, Contains};
ghost use Rattle.attr_sets.specs.Attributes.{Attributes};
ghost use Rattle.schema_model.specs.declared.column_type.ColumnType.{ColumnType};
ghost use Rattle.schema_model.specs.Schemas.{Schema};
ghost use Rattle.dep_model.specs.Tuples.{Tuple, Relation, AgreeOn, IsOver};
ghost use Rattle.dep_model.specs.Dependencies.{Dependency, Obeys};
ghost use Rattle.dep_model.specs.Implication.{IsLegal};
ghost use Rattle.dep_model.specs.Projections.{InJoin, projections};
ghost use Rattle.schema_model.specs.Schemas.{types_of, width_of};
ghost use Rattle.dep_model.specs.TwoTuples.{two_tuples};
ghost use Rattle.column_values.specs.Values.{FitsColumns};
ghost use Rattle.typed_rows.specs.Typed.{typed_tuple, typed_relation, AreNumerals, HoldsNumerals, ShowsNumerals};

/// Two tuples of numerals agree exactly where the same with values of the columns' types do. A relation
/// of numerals obeys a dependency, is legal, has a tuple, or has it in the join of its projections,
/// exactly where the same with values of the columns' types does; and these values fit the columns.
pub fn typed_relations_are_alike()
    ensures agree { (columns : List ColumnType) (x : Attributes) (t u : Tuple)
        → length t ≡ length columns → length u ≡ length columns → AreNumerals t → AreNumerals u
        → AgreeOn x t u ↔ AgreeOn x (typed_tuple columns t) (typed_tuple columns u) }
    ensures obeys { (columns : List ColumnType) (d : Dependency) (r : Relation)
        → IsOver (length columns) r → HoldsNumerals r
        → Obeys (length columns) d r ↔ Obeys (length columns) d (typed_relation columns r) }
    ensures legal { (columns : List ColumnType) (ds : List Dependency) (r : Relation)
        → IsOver (length columns) r → HoldsNumerals r
        → IsLegal (length columns) ds r ↔ IsLegal (length columns) ds (typed_relation columns r) }
    ensures fits { (s : Schema) (r : Relation) → IsOver (width_of s) r → HoldsNumerals r
        → FitsColumns s (typed_relation (types_of s) r) }
    ensures contains { (columns : List ColumnType) (r : Relation) (t : Tuple)
        → IsOver (length columns) r → HoldsNumerals r → length t ≡ length columns → AreNumerals t
        → Contains r t ↔ Contains (typed_relation columns r) (typed_tuple columns t) }
    ensures joins { (columns : List ColumnType) (plan : List Attributes) (r : Relation) (t : Tuple)
        → IsOver (length columns) r → HoldsNumerals r → length t ≡ length columns → AreNumerals t
        → InJoin (length columns) plan (projections plan r) t
        ↔ InJoin (length columns) plan (projections plan (typed_relation columns r)) (typed_tuple columns t) }
{}

/// Columns of text, of integers and of other types show the numerals as they are. The two tuples that
/// agree exactly on a set are numerals.
pub fn numerals_stay()
    ensures stay { (columns : List ColumnType) (r : Relation)
        → All ShowsNumerals columns → IsOver (length columns) r → HoldsNumerals r
        → typed_relation columns r ≡ r }
    ensures two_tuples { (n : ℕ) (x : Attributes) → HoldsNumerals (two_tuples n x) }
{}
