ghost use Rattle.std.specs.Prelude.{◌≡◌, ◌<◌, length, OnOk};
ghost use Rattle.csv.specs.Records.{fields_of};
ghost use Rattle.csv_text.specs.Rows.{WritesRow};
ghost use Rattle.row_store.specs.Rows.{row_at};

use csv::{ByteRecord, Writer};
use dep_model::OutOfMemory;
use row_store::Rows;
use std::io::Write;

/// Writes the fields as the next row.
pub fn write_row<W: Write + Drop>(
    writer: &mut Writer<W>,
    fields: &ByteRecord,
) -> Result<(), OutOfMemory>
    ensures row { OnOk result (WritesRow W.contents writer.old writer.new (fields_of fields.now)) }
{
    match writer.write_byte_record(fields) {
        Ok(()) => Ok(()),
        Err(_) => Err(OutOfMemory),
    }
}

/// The fields become the values of a row of rows.
pub fn take_values(fields: &mut ByteRecord, rows: &Rows, row: usize) -> Result<(), OutOfMemory>
    requires row { row < length rows.now }
    ensures values { OnOk result (fields_of fields.new ≡ row_at rows.now row) }
{
    fields.clear();
    for i in 0..rows.width(row) {
        fields.push_field(rows.value(row, i))?;
    }
    Ok(())
}
