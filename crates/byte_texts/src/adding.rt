ghost use Rattle.std.specs.Prelude.{◌≡◌, ◌-◌, [], ◌∷◌, ◌++◌, if◌then◌else◌, ◌<◌, decimal, OnOk};

use dep_model::OutOfMemory;
use std::alloc::Global;

/// Adds bytes to a text.
pub fn add(text: &mut Vec<u8>, bytes: &[u8]) -> Result<(), OutOfMemory>
    ensures added { OnOk result (text.new.items ≡ text.old.items ++ bytes.now) }
{
    text.extend_from_slice(bytes)?;
    Ok(())
}

/// Adds a number in decimal digits to a text.
pub fn add_number(text: &mut Vec<u8>, alloc: Global, number: u32) -> Result<(), OutOfMemory>
    ensures added { OnOk result (text.new.items ≡ text.old.items ++ decimal number) }
{
    let digits = format!(in alloc; "{number}")?;
    add(text, digits.as_bytes())
}

/// Adds a number of one digit to a text.
pub fn add_digit(text: &mut Vec<u8>, digit: u8) -> Result<(), OutOfMemory>
    requires digit { digit < 10 }
    ensures added { OnOk result (text.new.items ≡ text.old.items ++ decimal digit) }
{
    text.push(b'0' + digit)?;
    Ok(())
}
