ghost use Rattle.std.specs.Prelude.{◌≡◌, ◌<◌, ◌≤◌, ◌^◌, if◌then◌else◌, length, IfOk};
ghost use Rattle.std.specs.Fmt.{decimal};
ghost use Rattle.attr_sets.specs.Sets.{attributes};
ghost use Rattle.attr_sets.specs.declared.set.TheConstants.{MOST_ATTRIBUTES};
ghost use Rattle.dep_model.specs.Plans.{schemes_of};
ghost use Rattle.dep_model.specs.TwoTuples.{zero_text};
ghost use Rattle.armstrong_rel.specs.Exhibits.{numbered_tuple, tuples_for};

use attr_sets::{AttrSet, MOST_ATTRIBUTES};
use dep_model::{OutOfMemory, Row, Value};
use std::alloc::Global;

// The row of all `0`, and then a row for each set, numbered from 1.
pub fn rows_for(alloc: Global, width: u8, sets: &[AttrSet]) -> Result<Vec<Row>, OutOfMemory>
    requires width { width ≤ MOST_ATTRIBUTES }
    ensures rows { IfOk result (λ rows. rows.items ≡ tuples_for width (schemes_of sets.now)) }
{
    let mut rows = Vec::new(alloc);
    rows.push(numbered_row(alloc, width, AttrSet::full(width), 0)?)?;
    for (k, set) in sets.iter().enumerate() {
        rows.push(numbered_row(alloc, width, *set, k + 1)?)?;
    }
    Ok(rows)
}

// The row with `0` on a set and a number elsewhere.
fn numbered_row(alloc: Global, width: u8, zeros: AttrSet, number: usize) -> Result<Row, OutOfMemory>
    requires width { width ≤ MOST_ATTRIBUTES }
    ensures row { IfOk result (λ row. row ≡ numbered_tuple width number (attributes zeros)) }
{
    let mut values = Vec::new(alloc);
    for i in 0..width {
        values.push(digits(alloc, zeros.contains(i), number)?)?;
    }
    Ok(Row::new(values))
}

// The value `0`, or a number in decimal digits.
fn digits(alloc: Global, zero: bool, number: usize) -> Result<Value, OutOfMemory>
    ensures value { IfOk result (λ value. value ≡ (if zero then zero_text else decimal number)) }
{
    if zero {
        return Value::new(alloc, b"0");
    }
    let digits = number.to_string(alloc)?;
    Value::new(alloc, digits.as_bytes())
}
