//! The law between what is printed of columns and what is read of them.

ghost use Rattle.std.specs.Prelude.{◌≡◌, ◌<◌, ◌≤◌, ℕ, List, All, AllPairs, length, map};
ghost use Rattle.desk_discovery.specs.Discoveries.{column_text};
ghost use Rattle.desk_references.specs.ColumnLists.{MeansColumns};
ghost use Rattle.desk_references.specs.declared.columns.TheConstants.{MOST_LISTED_COLUMNS};
ghost use Rattle.headed_rows.specs.Headers.{IsColumnHeader};
ghost use Rattle.schema_printer.specs.Printing.{side_text};

/// What is printed of columns of a file, none twice and not too many, is a text that names them: so each
/// side of a line of `discover references` is a word for `check references`.
pub fn printed_columns_are_read_back()
    ensures columns { (header : List (List ℕ)) (columns : List ℕ) → IsColumnHeader header
        → All (λ (k : ℕ). k < length header) columns → 0 < length columns → length columns ≤ MOST_LISTED_COLUMNS
        → AllPairs (λ (one other : ℕ). one ≡ other → ⊥) columns
        → MeansColumns header (side_text (map (column_text header) columns)) columns }
{}
