ghost use Rattle.std.specs.Prelude.{◌≡◌, IfOk};
ghost use Rattle.csv.specs.Records.{fields_of};
ghost use Rattle.csv_text.specs.Rows.{csv_row};

use crate::writing::write_row;
use csv::{ByteRecord, Writer};
use dep_model::OutOfMemory;
use schema_model::Name;
use std::alloc::Global;

/// The line of a header of these names.
pub fn header_line(alloc: Global, names: &[Name]) -> Result<Vec<u8>, OutOfMemory>
    ensures text { IfOk result (λ text. text.items ≡ csv_row names.now) }
{
    let mut fields = ByteRecord::new(alloc);
    for name in names {
        fields.push_field(name.bytes())?;
    }
    fields_line(alloc, &fields)
}

/// The line of these fields.
pub fn fields_line(alloc: Global, fields: &ByteRecord) -> Result<Vec<u8>, OutOfMemory>
    ensures text { IfOk result (λ text. text.items ≡ csv_row (fields_of fields.now)) }
{
    let mut writer = Writer::from_writer(Vec::new(alloc));
    write_row(&mut writer, fields)?;
    match writer.into_inner() {
        Ok(text) => Ok(text),
        Err(_) => Err(OutOfMemory),
    }
}
