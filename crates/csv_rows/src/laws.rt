//! Laws of what CSV texts mean.

ghost use Rattle.std.specs.Prelude.{◌≡◌, ◌≤◌, List, ℕ, length, All, Result, Ok};
ghost use Rattle.column_values.specs.Values.{FitsColumns};
ghost use Rattle.schema_model.specs.Names.{IsName};
ghost use Rattle.schema_model.specs.Schemas.{names_of, width_of};
ghost use Rattle.dep_model.specs.Tuples.{Relation, IsOver};
ghost use Rattle.schema_model.specs.Schemas.{Schema};
ghost use Rattle.csv_rows.specs.Reading.{RowsOf, PartOf};
ghost use Rattle.csv_text.specs.Rows.{rows_text};
ghost use Rattle.csv_rows.specs.declared.reading.TheConstants.{MOST_ROWS};
ghost use Rattle.csv_rows.specs.declared.refusal.RowRefusal.{RowRefusal};

/// For a schema, a text has one list of rows or one refusal: never two lists, never two refusals, and
/// never both.
pub fn one_reading()
    ensures rows { (s : Schema) (text : List ℕ) (one other : Result Relation RowRefusal)
        → RowsOf s text one → RowsOf s text other → one ≡ other }
    ensures part { (s : Schema) (text : List ℕ) (one other : Result Relation RowRefusal)
        → PartOf s text one → PartOf s text other → one ≡ other }
{}

/// What is printed of rows is the text of these rows, whatever the names, where the rows fit the columns
/// and are no more than a file may have.
pub fn printed_rows_are_read_back()
    ensures law { (s : Schema) (rows : Relation) → All IsName (names_of s)
        → IsOver (width_of s) rows → FitsColumns s rows → length rows ≤ MOST_ROWS
        → RowsOf s (rows_text (names_of s) rows) (Ok rows) }
{}
