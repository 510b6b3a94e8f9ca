ghost use Rattle.std.specs.Prelude.{Ok, Err, IfOk, IfErr};
ghost use Rattle.csv_rows.specs.Reading.{PartOf, HasScheme};
ghost use Rattle.dep_model.specs.Failures.{RefusesAs};

use crate::RowRefusal;
use crate::quotes::open_record;
use crate::reading::{read_body, read_header};
use crate::records::open_reader;
use attr_sets::AttrSet;
use dep_model::Failure;
use row_store::Rows;
use schema_model::Schema;
use std::alloc::Global;

/// Rows over some of the attributes of a schema.
#[derive(Debug, Drop)]
pub struct PartialRows {
    /// The attributes that have a column.
    pub scheme: AttrSet,
    /// The rows, each with its values in the order of the schema.
    pub rows: Rows,
}

/// The rows of a CSV text that has a column for some of the attributes. It is read and refused as
/// `read_rows` does it, but a column that is missing is no refusal.
pub fn read_part(
    alloc: Global,
    schema: &Schema,
    text: &[u8],
) -> Result<PartialRows, Failure<RowRefusal>>
    ensures rows { IfOk result (λ part. PartOf schema.now text.now (Ok part.rows)) }
    ensures scheme { IfOk result (λ part. HasScheme schema.now text.now part.scheme) }
    ensures err { IfErr result (RefusesAs (λ e. PartOf schema.now text.now (Err e))) }
{
    let unclosed = open_record(text);
    let mut reader = open_reader(alloc, text);
    let header = match read_header(alloc, schema, unclosed, &mut reader) {
        Ok(header) => header,
        Err(failure) => return Err(failure),
    };
    let scheme = header.scheme;
    match read_body(alloc, schema, &header, unclosed, &mut reader, text.len()) {
        Ok(rows) => Ok(PartialRows { scheme, rows }),
        Err(failure) => Err(failure),
    }
}
