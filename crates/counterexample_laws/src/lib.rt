//! Counterexamples: rows with values of the columns' types that obey what is given and break a
//! dependency. No code.
//!
//! The law is a function that does nothing, whose clause is the law; so the gate asks for its proof.
//!
//! Promises: the two tuples that agree exactly on a set are a counterexample as they are shown,
//! where they are one as numbers.
#![tactic(auto)]

ghost use Rattle.attr_sets.specs.Attributes.{Attributes};
ghost use Rattle.dep_model.specs.Dependencies.{Dependency, Obeys};
ghost use Rattle.dep_model.specs.TwoTuples.{two_tuples};
ghost use Rattle.schema_model.specs.Schemas.{Schema, width_of, LegalFor};
ghost use Rattle.typed_rows.specs.Shown.{shown_tuples};
ghost use Rattle.counterexample_laws.specs.Counterexamples.{IsCounterexample};

/// The two tuples that agree exactly on a set, where they obey the schema and break a dependency, are a
/// counterexample as they are shown.
pub fn shown_rows_are_counterexamples()
    ensures law { (schema : Schema) (d : Dependency) (agreement : Attributes)
        → LegalFor schema (two_tuples (width_of schema) agreement)
        → (Obeys (width_of schema) d (two_tuples (width_of schema) agreement) → ⊥)
        → IsCounterexample schema (LegalFor schema) d (shown_tuples schema agreement) }
{}
