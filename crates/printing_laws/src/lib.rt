//! Laws of what is printed of a schema: goals, sets of attributes, and parts. No code.
//!
//! Promises: what is printed of a dependency of a schema that some text means is a goal that means it;
//! what is printed of a set is a text that means the set; what is printed of the part inside a set means
//! the part; all whatever the names.
#![tactic(auto)]

ghost use Rattle.std.specs.Prelude.{◌≤◌, ℕ, List, All, length};
ghost use Rattle.attr_sets.specs.Attributes.{Attributes, IsEmpty, IsSubset};
ghost use Rattle.dep_model.specs.Dependencies.{Dependency, IsWithin};
ghost use Rattle.schema_model.specs.Schemas.{names_of, naming_of, universe_of};
ghost use Rattle.schema_model.specs.Schemas.{Schema};
ghost use Rattle.schema_printer.specs.Parts.{part_text};
ghost use Rattle.schema_printer.specs.Printing.{dependency_text, set_text};
ghost use Rattle.schema_printer.specs.Spelling.{printed_names_of};
ghost use Rattle.schema_grammar.specs.Meanings.{MeansGoal};
ghost use Rattle.schema_grammar.specs.Schemas.{MeansSchema};
ghost use Rattle.schema_grammar.specs.Sets.{MeansSet};
ghost use Rattle.schema_grammar.specs.Texts.{declarations_of};
ghost use Rattle.schema_grammar.specs.declared.format.TheConstants.{MOST_DEPENDENCY_LINES};
ghost use Rattle.printing_laws.specs.Parts.{part_declared};

/// What is printed of a dependency within a schema's attributes is a goal that means it, and what is printed of
/// a set of them is a text that means the set: of each schema that some text means, so whatever its names.
pub fn printed_goals_are_read_back()
    ensures goal { (file : List ℕ) (s : Schema) (d : Dependency) → MeansSchema file (declarations_of s)
        → IsWithin (universe_of s) d
        → MeansGoal (naming_of s) (names_of s) (dependency_text (printed_names_of s) d) d }
    ensures set { (file : List ℕ) (s : Schema) (x : Attributes) → MeansSchema file (declarations_of s)
        → IsSubset x (universe_of s)
        → MeansSet (naming_of s) (names_of s) (set_text (printed_names_of s) x) x }
{}

/// What is printed of the part of a schema inside a set of its attributes, with dependencies inside it, of which
/// a text may have so many, means the names of the set's members in their order, with their types, those of
/// which a value may be missing, and these dependencies: of each schema that some text means.
pub fn printed_parts_are_read_back()
    ensures law { (file : List ℕ) (s : Schema) (x : Attributes) (ds : List Dependency)
        → MeansSchema file (declarations_of s) → IsSubset x (universe_of s) → (IsEmpty x → ⊥)
        → All (IsWithin x) ds → length ds ≤ MOST_DEPENDENCY_LINES
        → (lines : List ℕ) × MeansSchema (part_text s x ds) (part_declared s x ds lines) }
{}
