//! Laws of `discover`: of the text that it prints, and of files that it never refuses for their size.

ghost use Rattle.std.specs.Prelude.{◌≡◌, ◌≤◌, ◌++◌, ℕ, List, length, replicate};
ghost use Rattle.attr_sets.specs.Attributes.{none};
ghost use Rattle.dep_model.specs.Dependencies.{Dependency};
ghost use Rattle.schema_model.specs.Schemas.{theory_of};
ghost use Rattle.schema_model.specs.declared.column_type.ColumnType.TheVariants.{Text};
ghost use Rattle.schema_model.specs.Schemas.{Schema};
ghost use Rattle.candidate_search.specs.declared.side.TooManyLeftSides.{TooManyLeftSides};
ghost use Rattle.fd_search.specs.Keys.{HasTooManyKeys};
ghost use Rattle.headed_rows.specs.Headings.{HeadedRows};
ghost use Rattle.headed_rows.specs.Headers.{IsColumnHeader, naming_under};
ghost use Rattle.near_rules.specs.NearRules.{IsFirstExceeded};
ghost use Rattle.near_rules.specs.declared.found.TooManyTried.{TooManyTried};
ghost use Rattle.schema_grammar.specs.Schemas.{MeansSchema};
ghost use Rattle.schema_grammar.specs.declared.format.TheConstants.{MOST_DEPENDENCY_LINES};
ghost use Rattle.schema_printer.specs.Printing.{schema_text};
ghost use Rattle.desk_discovery.specs.Discoveries.{HasTextColumns, HasTooManyLeftSides, found_text};
ghost use Rattle.desk_discovery.specs.NearDiscoveries.{near_text};
ghost use Rattle.desk_texts.specs.Texts.{overlong_text};

/// What `discover` prints is the text of a schema of text columns under the header's names, with the
/// dependencies that were found, after a comment where no schema file takes so many. Where a text may have so
/// many dependencies, it means these names, bare ones or any, these columns and these dependencies, and no value
/// may be missing.
pub fn found_texts_mean_their_schema()
    ensures printed { (header : List (List ℕ)) (s : Schema) (ds : List Dependency) → HasTextColumns header s
        → overlong_text ds ++ schema_text s ds ≡ found_text header ds }
    ensures means { (header : List (List ℕ)) (s : Schema) → IsColumnHeader header → HasTextColumns header s
        → length (theory_of s) ≤ MOST_DEPENDENCY_LINES
        → (lines : List ℕ) × MeansSchema (found_text header (theory_of s))
        (record {
          names = header;
          columns = replicate (length header) Text;
          deps = theory_of s;
          lines = lines;
          naming = naming_under header;
          nullable = none;
        }) }
{}

/// What `discover near` prints, each dependency with how many rows must change, means the header's names, as text
/// columns, and these dependencies, where a text may have so many.
pub fn near_texts_mean_their_schema()
    ensures means { (header : List (List ℕ)) (s : Schema) (errors : List ℕ) → IsColumnHeader header
        → HasTextColumns header s → length errors ≡ length (theory_of s)
        → length (theory_of s) ≤ MOST_DEPENDENCY_LINES
        → (lines : List ℕ) × MeansSchema (near_text header (theory_of s) errors)
        (record {
          names = header;
          columns = replicate (length header) Text;
          deps = theory_of s;
          lines = lines;
          naming = naming_under header;
          nullable = none;
        }) }
{}

/// A file of at most 20 columns is answered: it has too many left sides for none of them, of few attributes or near
/// ones neither, and not too many keys.
pub fn few_columns_are_answered()
    ensures left_sides { (most : ℕ) (headed : HeadedRows) (refusal : TooManyLeftSides) → length headed.names ≤ 20
        → HasTooManyLeftSides most headed refusal → ⊥ }
    ensures near { (limit most : ℕ) (headed : HeadedRows) (refusal : TooManyTried) → length headed.names ≤ 20
        → IsFirstExceeded (length headed.names) most limit headed.rows refusal → ⊥ }
    ensures keys { (headed : HeadedRows) → length headed.names ≤ 20
        → HasTooManyKeys (length headed.names) headed.rows → ⊥ }
{}
