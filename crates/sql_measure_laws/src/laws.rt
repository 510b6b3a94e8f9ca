ghost use Rattle.std.specs.Prelude.{ℕ, List};
ghost use Rattle.schema_model.specs.Schemas.{Schema, width_of};
ghost use Rattle.dep_model.specs.Tuples.{Relation, IsOver};
ghost use Rattle.sql_evaluation.specs.Cells.{Cell};
ghost use Rattle.sql_evaluation.specs.Evaluation.{Engine};
ghost use Rattle.sql_check_laws.specs.HeldRelations.{Holds};
ghost use Rattle.sql_measure_laws.specs.Measured.{MeasuresRules};

/// Over a table that holds a relation, its tuples as often as they stand, and whatever engine it is,
/// the query of each dependency ends without an error. It gives no row exactly where the relation
/// obeys the dependency, and else one row with the three numbers of the relation's measure against
/// it.
pub fn queries_count_breaches()
    ensures law { (e : Engine) (table : List ℕ) (s : Schema) (cell : ℕ → List ℕ → Cell)
        (r : Relation) → Holds e table s cell r → IsOver (width_of s) r → MeasuresRules e s table r }
{}
