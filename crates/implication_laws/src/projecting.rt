//! The law of the text that `project` prints.

ghost use Rattle.std.specs.Prelude.{◌≡◌, ◌≤◌, ℕ, List, length};
ghost use Rattle.attr_sets.specs.Attributes.{Attributes, IsSubset};
ghost use Rattle.dep_model.specs.Dependencies.{Dependency};
ghost use Rattle.schema_model.specs.Schemas.{universe_of};
ghost use Rattle.schema_model.specs.Schemas.{Schema};
ghost use Rattle.schema_grammar.specs.Schemas.{MeansSchema};
ghost use Rattle.schema_grammar.specs.Texts.{declarations_of};
ghost use Rattle.schema_grammar.specs.declared.format.TheConstants.{MOST_DEPENDENCY_LINES};
ghost use Rattle.printing_laws.specs.Parts.{part_declared};
ghost use Rattle.desk_implication.specs.Projections.{IsProjected, ProjectsSet};
ghost use Rattle.desk_responses.specs.ResponseValues.{ResponseValue};
ghost use Rattle.desk_responses.specs.declared.status.Status.TheVariants.{Yes};

/// What `project` prints after yes, of a set of a schema that some text means, are the dependencies inside the set
/// that it promises; where a text may have so many, it means the part of the schema inside the set with these,
/// whatever the names.
pub fn printed_projections_mean_their_part()
    ensures law { (file : List ℕ) (s : Schema) (set : Attributes) (printed : ResponseValue)
        → MeansSchema file (declarations_of s) → IsSubset set (universe_of s) → ProjectsSet s set printed
        → printed.status ≡ Yes
        → (rules : List Dependency) × IsProjected s set rules
        × (length rules ≤ MOST_DEPENDENCY_LINES
        → (lines : List ℕ) × MeansSchema printed.text (part_declared s set rules lines)) }
{}
