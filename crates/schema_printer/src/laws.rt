//! What a schema of bare names has printed: each name as it is. A function that does nothing, whose
//! clauses are the law.

ghost use Rattle.std.specs.Prelude.{◌≡◌, List};
ghost use Rattle.schema_model.specs.Schemas.{Schema};
ghost use Rattle.schema_model.specs.declared.naming.Naming.TheVariants.{Bare};
ghost use Rattle.dep_model.specs.Dependencies.{Dependency};
ghost use Rattle.schema_model.specs.Schemas.{naming_of, names_of, types_of};
ghost use Rattle.schema_printer.specs.Printing.{schema_text, declared_text};
ghost use Rattle.schema_printer.specs.Spelling.{printed_names_of};

/// The printed names of a schema of bare names are its names, and its text is the declared one.
pub fn bare_names_are_printed_as_they_are()
    ensures names { (s : Schema) → naming_of s ≡ Bare → printed_names_of s ≡ names_of s }
    ensures text { (s : Schema) (deps : List Dependency) → naming_of s ≡ Bare
        → schema_text s deps ≡ declared_text (types_of s) (names_of s) deps }
{}
