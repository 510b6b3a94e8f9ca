//! Laws of the answers to whether a schema implies a goal.

ghost use Rattle.std.specs.Prelude.{◌≡◌, ℕ, List};
ghost use Rattle.derivation.specs.Trees.{Tree};
ghost use Rattle.dep_model.specs.Dependencies.{Dependency, Obeys};
ghost use Rattle.schema_model.specs.Schemas.{width_of};
ghost use Rattle.dep_model.specs.Tuples.{Relation};
ghost use Rattle.schema_model.specs.Schemas.{Schema};
ghost use Rattle.desk_implication.specs.Certificates.{ChecksProof};
ghost use Rattle.desk_implication.specs.Implication.{Decided, DecidesGoal};
ghost use Rattle.desk_tables.specs.Legality.{JudgesRows};
ghost use Rattle.desk_responses.specs.ResponseValues.{ResponseValue};
ghost use Rattle.desk_responses.specs.declared.status.Status.TheVariants.{Yes, No};
ghost use Rattle.implication_laws.specs.Rewriting.{HaveSameDependencies};

/// Two schemas with the same names and the same dependencies, in any order, answer a goal by one status, and never
/// one yes and the other no; what `check proof` accepts `implies` says; and legal rows obey what is implied.
pub fn answers_on_goals_agree()
    ensures status { (schema other : Schema) (goal : List ℕ) (first second : ResponseValue)
        → HaveSameDependencies schema other → DecidesGoal schema goal first → DecidesGoal other goal second
        → first.status ≡ second.status }
    ensures excluded { (schema other : Schema) (goal : List ℕ) (first second : ResponseValue)
        → HaveSameDependencies schema other → DecidesGoal schema goal first → DecidesGoal other goal second
        → first.status ≡ Yes → second.status ≡ No → ⊥ }
    ensures accepted { (schema other : Schema) (tree : Tree) (goal : List ℕ) (accepted decided : ResponseValue)
        → HaveSameDependencies schema other → ChecksProof schema tree goal accepted
        → accepted.status ≡ Yes
        → DecidesGoal other goal decided → decided.status ≡ Yes }
    ensures obeyed { (schema : Schema) (goal : Dependency) (rows : Relation) (decided judged : ResponseValue)
        → Decided schema goal decided → decided.status ≡ Yes → JudgesRows schema rows judged
        → judged.status ≡ Yes → Obeys (width_of schema) goal rows }
{}
