ghost use Rattle.std.specs.Prelude.{◌≡◌, [], slice_index_or, IfOk, IfErr};
ghost use Rattle.csv.specs.Records.{fields_of};
ghost use Rattle.csv_rows.specs.Records.{records_of, HasLeft, TakesRecord, IsOutside};

use csv::{ByteRecord, Error, Reader, ReaderBuilder};
use std::alloc::Global;

/// A reader of the records of a text, with no header row and of any length each. It leaves out one
/// byte-order mark.
pub fn open_reader<'t>(alloc: Global, text: &'t [u8]) -> Reader<&'t [u8]>
    ensures records { HasLeft result (records_of text.now) }
{
    ReaderBuilder::new()
        .has_headers(false)
        .flexible(true)
        .from_reader(alloc, text)
}

/// Takes the next record, if there is one more.
pub fn take_record(reader: &mut Reader<&[u8]>, fields: &mut ByteRecord) -> Result<bool, Error>
    ensures record { IfOk result (λ found. TakesRecord found reader.old reader.new (fields_of fields.new)) }
    ensures outside { (rs : _) → HasLeft reader.old rs → IfErr result (λ e. IsOutside e) }
{
    reader.read_byte_record(fields)
}

/// The field at a position; beyond the last one nothing.
pub fn field(fields: &ByteRecord, i: usize) -> &[u8]
    ensures value { result.now ≡ slice_index_or (fields_of fields.now) i [] }
{
    match fields.get(i) {
        Some(field) => field,
        None => &[],
    }
}
