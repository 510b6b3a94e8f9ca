ghost use Rattle.std.specs.Prelude.{ℕ, ◌<◌, List, length, Contains};
ghost use Rattle.attr_sets.specs.Attributes.{Attributes};
ghost use Rattle.schema_model.specs.declared.column_type.ColumnType.{ColumnType};
ghost use Rattle.dep_model.specs.Tuples.{Relation, IsOver};
ghost use Rattle.dep_model.specs.Dependencies.{Dependency};
ghost use Rattle.dep_model.specs.Implication.{IsLegal};
ghost use Rattle.dep_model.specs.Projections.{InJoin, projections};
ghost use Rattle.dep_model.specs.TwoTuples.{all_zeros};
ghost use Rattle.chase_laws.specs.Tableaux.{Tableau};
ghost use Rattle.chase_laws.specs.Rounds.{ReachesTableau};
ghost use Rattle.chase_laws.specs.Answers.{texts_of, IsGaining};
ghost use Rattle.armstrong_rel.specs.Exhibits.{tuples_for};
ghost use Rattle.column_values.specs.declared.making.TheConstants.{MADE_UP_VALUES};
ghost use Rattle.typed_rows.specs.Typed.{typed_tuple, typed_relation, HoldsNumerals};

/// The texts of a tableau that is reached from a plan of fewer than `MADE_UP_VALUES` schemes are
/// numerals, and so are the tuples for fewer than `MADE_UP_VALUES` sets.
pub fn made_up_rows_hold_numerals()
    ensures tableau { (n : ℕ) (ds : List Dependency) (plan : List Attributes) (s : Tableau)
        → length plan < MADE_UP_VALUES → ReachesTableau n ds plan s → HoldsNumerals (texts_of s) }
    ensures tableau_over { (n : ℕ) (ds : List Dependency) (plan : List Attributes) (s : Tableau)
        → ReachesTableau n ds plan s → IsOver n (texts_of s) }
    ensures exhibit { (n : ℕ) (sets : List Attributes)
        → length sets < MADE_UP_VALUES → HoldsNumerals (tuples_for n sets) }
    ensures exhibit_over { (n : ℕ) (sets : List Attributes) → IsOver n (tuples_for n sets) }
{}

/// A relation of numerals that gains the tuple of all `0` is, with values of the columns' types, legal and
/// gains the tuple of their values for 0.
pub fn typed_relation_gains()
    ensures legal { (columns : List ColumnType) (ds : List Dependency) (plan : List Attributes) (r : Relation)
        → HoldsNumerals r → IsGaining (length columns) ds plan r
        → IsLegal (length columns) ds (typed_relation columns r) }
    ensures joined { (columns : List ColumnType) (ds : List Dependency) (plan : List Attributes) (r : Relation)
        → HoldsNumerals r → IsGaining (length columns) ds plan r
        → InJoin (length columns) plan (projections plan (typed_relation columns r))
        (typed_tuple columns (all_zeros (length columns))) }
    ensures gained { (columns : List ColumnType) (ds : List Dependency) (plan : List Attributes) (r : Relation)
        → HoldsNumerals r → IsGaining (length columns) ds plan r
        → Contains (typed_relation columns r) (typed_tuple columns (all_zeros (length columns))) → ⊥ }
{}
