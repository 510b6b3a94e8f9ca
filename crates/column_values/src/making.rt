//! The values that are made up.

ghost use Rattle.std.specs.Prelude.{◌≡◌, ◌++◌, OnOk};
ghost use Rattle.std.specs.Fmt.{decimal};
ghost use Rattle.column_values.specs.Decimals.{point_and_digits};
ghost use Rattle.column_values.specs.MadeUp.{made_up, made_up_date, made_up_uuid};

use crate::digits::add_in_digits;
use dep_model::OutOfMemory;
use itoa::Buffer;
use schema_model::ColumnType;

/// How many different values there are of each type at least, one for each number from 0 on.
pub const MADE_UP_VALUES: u32 = 1_000_000;

/// Adds the value of a type that stands for a number at the end.
pub fn add_made_up(bytes: &mut Vec<u8>, column: &ColumnType, number: u32) -> Result<(), OutOfMemory>
    ensures added { OnOk result (bytes.new.items ≡ bytes.old.items ++ made_up column.now number) }
{
    match column {
        ColumnType::Date => add_date(bytes, number),
        ColumnType::Timestamp => {
            add_date(bytes, number)?;
            bytes.extend_from_slice(b" 00:00:00")?;
            Ok(())
        }
        ColumnType::Decimal(scale) => {
            add_decimal(bytes, number)?;
            add_point_and_zeros(bytes, *scale)
        }
        ColumnType::Uuid => add_uuid(bytes, number),
        ColumnType::Text | ColumnType::Integer | ColumnType::Other(_) => add_decimal(bytes, number),
    }
}

// Adds a number in decimal at the end.
fn add_decimal(bytes: &mut Vec<u8>, number: u32) -> Result<(), OutOfMemory>
    ensures added { OnOk result (bytes.new.items ≡ bytes.old.items ++ decimal number) }
{
    bytes.extend_from_slice(Buffer::new().format(number).as_bytes())?;
    Ok(())
}

// Adds the day of a number at the end.
fn add_date(bytes: &mut Vec<u8>, number: u32) -> Result<(), OutOfMemory>
    ensures added { OnOk result (bytes.new.items ≡ bytes.old.items ++ made_up_date number) }
{
    add_in_digits(bytes, 4, 1000 + number / 336)?;
    bytes.push(b'-')?;
    add_in_digits(bytes, 2, 1 + number / 28 % 12)?;
    bytes.push(b'-')?;
    add_in_digits(bytes, 2, 1 + number % 28)
}

// Adds a point and so many zeros at the end, and nothing where there are none.
fn add_point_and_zeros(bytes: &mut Vec<u8>, scale: u8) -> Result<(), OutOfMemory>
    ensures added { OnOk result (bytes.new.items ≡ bytes.old.items ++ point_and_digits scale 0) }
{
    if scale == 0 {
        return Ok(());
    }
    bytes.push(b'.')?;
    add_in_digits(bytes, scale, 0)
}

// Adds the identifier of a number at the end.
fn add_uuid(bytes: &mut Vec<u8>, number: u32) -> Result<(), OutOfMemory>
    ensures added { OnOk result (bytes.new.items ≡ bytes.old.items ++ made_up_uuid number) }
{
    bytes.extend_from_slice(b"00000000-0000-0000-0000-")?;
    add_in_digits(bytes, 12, number)?;
    Ok(())
}
