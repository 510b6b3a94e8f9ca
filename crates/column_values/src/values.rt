ghost use Rattle.std.specs.Prelude.{◌↔◌, IsTrue};
ghost use Rattle.column_values.specs.Values.{IsValueOf, FitsColumn};

use crate::calendar::{is_date_text, is_timestamp_text};
use crate::decimals::is_decimal_text;
use crate::uuids::is_uuid_text;
use schema_model::{ColumnType, is_integer_text};

/// Whether bytes are a value of a type.
pub fn is_value_of(column: &ColumnType, bytes: &[u8]) -> bool
    ensures value { IsTrue result ↔ IsValueOf column.now bytes.now }
{
    match column {
        ColumnType::Text => true,
        ColumnType::Integer => is_integer_text(bytes),
        ColumnType::Date => is_date_text(bytes),
        ColumnType::Timestamp => is_timestamp_text(bytes),
        ColumnType::Decimal(scale) => is_decimal_text(*scale, bytes),
        ColumnType::Uuid => is_uuid_text(bytes),
        ColumnType::Other(_) => true,
    }
}

/// Whether bytes fit a column: they are a value of its type, or where a value may be missing, none.
pub fn fits_column(column: &ColumnType, nullable: bool, bytes: &[u8]) -> bool
    ensures fits { IsTrue result ↔ FitsColumn column.now nullable bytes.now }
{
    (nullable && bytes.is_empty()) || is_value_of(column, bytes)
}
