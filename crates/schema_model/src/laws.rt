//! The law of schemas. It is a function that does nothing, whose clause is the law; so the gate asks for its proof.

ghost use Rattle.std.specs.Prelude.{◌≡◌};
ghost use Rattle.schema_model.specs.Schemas.{Schema, lines_of, names_of, naming_of, nullable_of, theory_of, types_of};

/// Two schemas that declare the same are one value.
pub fn declarations_make_a_schema()
    ensures law { (s t : Schema) → naming_of s ≡ naming_of t → names_of s ≡ names_of t → types_of s ≡ types_of t
        → nullable_of s ≡ nullable_of t → theory_of s ≡ theory_of t → lines_of s ≡ lines_of t → s ≡ t }
{}
