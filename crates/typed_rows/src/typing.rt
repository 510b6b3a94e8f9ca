ghost use Rattle.std.specs.Prelude.{◌≡◌, length, IfOk};
ghost use Rattle.std.specs.Str.Parse.{digits_value};
ghost use Rattle.dep_model.specs.Tuples.{IsOver};
ghost use Rattle.schema_model.specs.Schemas.{types_of, width_of};
ghost use Rattle.column_values.specs.Values.{FitsColumns};
ghost use Rattle.column_values.specs.MadeUp.{made_up};
ghost use Rattle.typed_rows.specs.Typed.{typed_tuple, typed_relation, AreNumerals, HoldsNumerals, IsNumeral};

use column_values::add_made_up;
use dep_model::{OutOfMemory, Row, Value};
use schema_model::{ColumnType, Schema};
use std::alloc::Global;

/// The rows with values of the columns' types in place of their numbers.
pub fn typed_rows(alloc: Global, schema: &Schema, rows: &[Row]) -> Result<Vec<Row>, OutOfMemory>
    requires over { IsOver (width_of schema.now) rows.now }
    requires numerals { HoldsNumerals rows.now }
    ensures rows { IfOk result (λ typed. typed.items ≡ typed_relation (types_of schema.now) rows.now) }
    ensures count { IfOk result (λ typed. length typed.items ≡ length rows.now) }
    ensures fits { IfOk result (λ typed. FitsColumns schema.now typed.items) }
{
    let mut typed = Vec::with_capacity(alloc, rows.len())?;
    for row in rows {
        typed.push(typed_row(alloc, schema, row)?)?;
    }
    Ok(typed)
}

/// The row with values of the columns' types in place of its numbers.
pub fn typed_row(alloc: Global, schema: &Schema, row: &Row) -> Result<Row, OutOfMemory>
    requires over { length row.now ≡ width_of schema.now }
    requires numerals { AreNumerals row.now }
    ensures row { IfOk result (λ typed. typed ≡ typed_tuple (types_of schema.now) row.now) }
{
    let mut values = Vec::with_capacity(alloc, row.len())?;
    for i in 0..schema.width() {
        values.push(typed_value(alloc, &schema.column(i), row.value(i as usize))?)?;
    }
    Ok(Row::new(values))
}

// The value of a type that stands for a number.
fn typed_value(alloc: Global, column: &ColumnType, value: &Value) -> Result<Value, OutOfMemory>
    requires numeral { IsNumeral value.now }
    ensures value { IfOk result (λ typed. typed ≡ made_up column.now (digits_value 10 value.now)) }
{
    let mut bytes = Vec::new(alloc);
    add_made_up(&mut bytes, column, number_of(value.bytes()))?;
    Value::new(alloc, &bytes)
}

// The number of a numeral.
fn number_of(digits: &[u8]) -> u32
    requires numeral { IsNumeral digits.now }
    ensures number { result ≡ digits_value 10 digits.now }
{
    let mut number = 0;
    for b in digits {
        number = number * 10 + (*b - b'0') as u32;
    }
    number
}
