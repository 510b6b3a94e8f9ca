//! Laws of what two schemas over the same names say. Each is a function that does nothing, whose clause
//! is the law; so the gate asks for its proof.

ghost use Rattle.std.specs.Prelude.{◌≡◌, ◌↔◌};
ghost use Rattle.schema_model.specs.Schemas.{Schema};
ghost use Rattle.dep_model.specs.Tuples.{Relation, IsOver};
ghost use Rattle.dep_model.specs.Dependencies.{Dependency, Obeys, IsWithin};
ghost use Rattle.schema_model.specs.Schemas.{width_of, universe_of};
ghost use Rattle.schema_match.specs.Columns.{SameNames, reorder};
ghost use Rattle.schema_match.specs.Carried.{carry_dependency, IsImpliedBy, HaveSameLegalRelations};

/// A relation whose columns are put into the order of another schema over the same names, and back, is
/// the same relation. It obeys a dependency exactly where it obeys it with its columns in that order,
/// and the dependency's attributes taken by their names.
pub fn obeyed_by_names()
    ensures back { (schema other : Schema) (r : Relation) → SameNames schema other → IsOver (width_of schema) r
        → reorder other schema (reorder schema other r) ≡ r }
    ensures obeyed { (schema other : Schema) (d : Dependency) (r : Relation) → SameNames schema other
        → IsWithin (universe_of schema) d
        → Obeys (width_of schema) d r
        ↔ Obeys (width_of other) (carry_dependency schema other d) (reorder schema other r) }
{}

/// Two schemas over the same names have the same legal relations, columns taken by their names, exactly
/// where each implies the other's dependencies.
pub fn same_legal_relations()
    ensures implied { (schema other : Schema) → SameNames schema other
        → IsImpliedBy other schema → IsImpliedBy schema other → HaveSameLegalRelations schema other }
    ensures forward { (schema other : Schema) → SameNames schema other
        → HaveSameLegalRelations schema other → IsImpliedBy other schema }
    ensures backward { (schema other : Schema) → SameNames schema other
        → HaveSameLegalRelations schema other → IsImpliedBy schema other }
{}
