//! The laws of the text of a table's schema. Each is a function that does nothing, whose clause is the
//! law; so the gate asks for its proof.

ghost use Rattle.std.specs.Prelude.{◌≡◌, ◌⊎◌, ℕ, List, All, Ok, filter};
ghost use Rattle.attr_sets.specs.Attributes.{Disjoint};
ghost use Rattle.schema_grammar.specs.Schemas.{MeansSchema};
ghost use Rattle.sql_lexemes.specs.declared.dialect.Dialect.{Dialect};
ghost use Rattle.sql_definitions.specs.Definitions.{definition_of, read_statements};
ghost use Rattle.sql_lexemes.specs.Statements.{Stated, statements_of};
ghost use Rattle.sql_definitions.specs.declared.definition.KeyKind.TheVariants.{UniqueMissing};
ghost use Rattle.sql_definitions.specs.Facts.{Facts};
ghost use Rattle.sql_definitions.specs.Wanted.{TableName};
ghost use Rattle.sql_schemas.specs.About.{is_about};
ghost use Rattle.sql_schemas.specs.Keys.{KeyColumns, keys_of};
ghost use Rattle.sql_schemas.specs.Meaning.{IsStatedKey, declared_table, whole_keys};
ghost use Rattle.sql_schemas.specs.Texts.{columns_missing, imported_text};

/// The text of the schema of a table that SQL defines means its columns with their types, those of
/// which a value may be missing, and a dependency for each key that has none of these. Each of these
/// keys is one that the SQL states, and no value of its columns may be missing, or NULLS NOT DISTINCT
/// has missing values compared as others are.
pub fn text_means_the_table()
    ensures means { (d : Dialect) (wanted : TableName) (text printed : List ℕ)
        → imported_text d wanted text ≡ Ok printed
        → (f : Facts) × (keys : List KeyColumns) × (lines : List ℕ) × (definition_of d wanted text ≡ Ok f)
        × (keys_of f ≡ Ok keys) × MeansSchema printed (declared_table f.columns keys lines) }
    ensures stated { (f : Facts) (keys : List KeyColumns) → keys_of f ≡ Ok keys
        → All (IsStatedKey f) (whole_keys f.columns keys) }
    ensures never_missing { (d : Dialect) (wanted : TableName) (text : List ℕ) (f : Facts) (keys : List KeyColumns)
        → definition_of d wanted text ≡ Ok f → keys_of f ≡ Ok keys
        → All (λ key. (key.kind ≡ UniqueMissing) ⊎ Disjoint key.columns (columns_missing f.columns keys))
        (whole_keys f.columns keys) }
{}

/// A statement about another table changes nothing: what is read of statements is what those about the table that is
/// wanted say. So texts that have the same of these give the same schema, or the same refusal.
pub fn other_tables_change_nothing()
    ensures read { (d : Dialect) (wanted : TableName) (statements : List Stated) (f : Facts)
        → read_statements d wanted statements f
        ≡ read_statements d wanted (filter (is_about d wanted) statements) f }
    ensures imported { (d : Dialect) (wanted : TableName) (text other : List ℕ)
        → filter (is_about d wanted) (statements_of d text) ≡ filter (is_about d wanted) (statements_of d other)
        → imported_text d wanted text ≡ imported_text d wanted other }
{}
