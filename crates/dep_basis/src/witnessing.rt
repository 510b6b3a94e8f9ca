ghost use Rattle.std.specs.Prelude.{◌≡◌, ◌≤◌, if◌then◌else◌, IfOk};
ghost use Rattle.attr_sets.specs.Attributes.{IsSubset};
ghost use Rattle.attr_sets.specs.Sets.{attributes};
ghost use Rattle.attr_sets.specs.declared.set.TheConstants.{MOST_ATTRIBUTES};
ghost use Rattle.dep_model.specs.TwoTuples.{zero_text, one_text, zeros_on, two_tuples};
ghost use Rattle.dep_model.specs.Theories.{width_of, universe_of};

use attr_sets::AttrSet;
use dep_model::{OutOfMemory, Row, Theory, Value};
use std::alloc::Global;

/// Two rows that agree exactly on a set of attributes: all `0`, and `0` on the set and `1` elsewhere
/// (Sagiv, Delobel, Parker and Fagin 1981).
pub fn witness(alloc: Global, theory: &Theory, agreement: AttrSet) -> Result<[Row; 2], OutOfMemory>
    requires within { IsSubset (attributes agreement) (universe_of theory.now) }
    ensures rows { IfOk result (λ rows. rows
        ≡ two_tuples (width_of theory.now) (attributes agreement)) }
{
    let width = theory.width();
    let first = row_with_zeros_on(alloc, width, AttrSet::full(width))?;
    let second = row_with_zeros_on(alloc, width, agreement)?;
    Ok([first, second])
}

// The row with `0` on a set and `1` elsewhere.
fn row_with_zeros_on(alloc: Global, width: u8, zeros: AttrSet) -> Result<Row, OutOfMemory>
    requires width { width ≤ MOST_ATTRIBUTES }
    ensures row { IfOk result (λ row. row ≡ zeros_on width (attributes zeros)) }
{
    let mut values = Vec::with_capacity(alloc, width as usize)?;
    for i in 0..width {
        values.push(digit(alloc, zeros.contains(i))?)?;
    }
    Ok(Row::new(values))
}

// The value `0` or `1`.
fn digit(alloc: Global, zero: bool) -> Result<Value, OutOfMemory>
    ensures value { IfOk result (λ value. value ≡ (if zero then zero_text else one_text)) }
{
    if zero {
        Value::new(alloc, b"0")
    } else {
        Value::new(alloc, b"1")
    }
}
