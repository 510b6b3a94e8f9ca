ghost use Rattle.std.specs.Prelude.{◌<◌, All, length, IsTrue};
ghost use Rattle.column_types.specs.FirstTypes.{IsTypeOf};
ghost use Rattle.schema_model.specs.Columns.{is_column_type};

use crate::columns::{all_empty, all_have};
use row_store::Rows;
use schema_model::ColumnType;

/// The types that are tried for a column of values, in this order.
pub const TRIED: [ColumnType; 15] = [
    ColumnType::Integer,
    ColumnType::Decimal(0),
    ColumnType::Decimal(1),
    ColumnType::Decimal(2),
    ColumnType::Decimal(3),
    ColumnType::Decimal(4),
    ColumnType::Decimal(5),
    ColumnType::Decimal(6),
    ColumnType::Decimal(7),
    ColumnType::Decimal(8),
    ColumnType::Decimal(9),
    ColumnType::Date,
    ColumnType::Timestamp,
    ColumnType::Uuid,
    ColumnType::Text,
];

/// The type of a column: the first of those that are tried which all its values have but for empty
/// ones, and text where all are empty. Each row has the column.
pub fn type_of_column(rows: &Rows, position: usize) -> ColumnType
    requires position { All (λ row. position < length row) rows.now }
    ensures column { IsTypeOf rows.now position result }
    ensures valid { IsTrue (is_column_type result) }
{
    if all_empty(rows, position) {
        return ColumnType::Text;
    }
    for i in 0..TRIED.len() {
        if all_have(rows, position, &TRIED[i]) {
            return TRIED[i];
        }
    }
    ColumnType::Text
}
