//! Laws of explanations, and of the reasons that they give.

ghost use Rattle.std.specs.Prelude.{◌≡◌, ◌<◌, ◌↔◌, ◌⊎◌, ℕ, List};
ghost use Rattle.attr_sets.specs.Attributes.{only, difference};
ghost use Rattle.dep_model.specs.Keys.{IsSuperkey};
ghost use Rattle.schema_model.specs.Schemas.{width_of, theory_of, universe_of};
ghost use Rattle.schema_model.specs.Schemas.{Schema};
ghost use Rattle.schema_grammar.specs.Schemas.{MeansSchema};
ghost use Rattle.schema_grammar.specs.Texts.{declarations_of};
ghost use Rattle.desk_implication.specs.Explanations.{ExplainsImplication};
ghost use Rattle.desk_implication.specs.Implication.{DecidesGoal};
ghost use Rattle.desk_keys.specs.KeyReasons.{InEveryKey};
ghost use Rattle.desk_responses.specs.ResponseValues.{ResponseValue};
ghost use Rattle.desk_responses.specs.declared.status.Status.TheVariants.{Yes};
ghost use Rattle.implication_laws.specs.AcceptedDerivations.{IsAcceptedFor};
ghost use Rattle.implication_laws.specs.OneAnswer.{AreBothYes};

/// What is in every key of a schema are exactly the attributes that all others do not determine.
pub fn undetermined_attributes_are_in_every_key()
    ensures law { (schema : Schema) (a : ℕ) → InEveryKey schema a
        ↔ ((a < width_of schema) × (IsSuperkey (width_of schema) (theory_of schema) (universe_of schema)
        (difference (universe_of schema) (only a)) → ⊥)) }
{}

/// `explain implies` answers a goal as `implies` does, but for the derivation of a goal that is implied: there both
/// say yes. So it has one answer where the goal is not implied.
pub fn explained_goals_are_decided()
    ensures law { (schema : Schema) (goal : List ℕ) (explained decided : ResponseValue)
        → ExplainsImplication schema goal explained → DecidesGoal schema goal decided
        → (explained ≡ decided) ⊎ AreBothYes schema goal explained decided }
    ensures one { (schema : Schema) (goal : List ℕ) (explained other : ResponseValue)
        → ExplainsImplication schema goal explained → ExplainsImplication schema goal other
        → (explained ≡ other) ⊎ AreBothYes schema goal explained other }
{}

/// What `explain implies` prints after yes, of the schema of a file, is a derivation that `check derivation` accepts
/// for the same goal.
pub fn explained_goals_are_accepted()
    ensures law { (file : List ℕ) (schema : Schema) (goal : List ℕ) (explained : ResponseValue)
        → MeansSchema file (declarations_of schema) → ExplainsImplication schema goal explained
        → explained.status ≡ Yes → IsAcceptedFor schema goal explained.text }
{}
