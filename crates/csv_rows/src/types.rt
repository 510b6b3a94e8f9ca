ghost use Rattle.std.specs.Prelude.{◌≡◌, IsTrue};
ghost use Rattle.csv_rows.specs.RefusalTexts.{type_of};
ghost use Rattle.schema_model.specs.Columns.{is_column_type};

use schema_model::{ColumnType, Schema};

/// The type of the column of an attribute; text where there is none.
pub fn type_of(schema: &Schema, attribute: u8) -> ColumnType
    ensures column { result ≡ type_of schema.now attribute }
    ensures valid { IsTrue (is_column_type result) }
{
    if attribute < schema.width() {
        schema.column(attribute)
    } else {
        ColumnType::Text
    }
}
