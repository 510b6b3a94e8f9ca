ghost use Rattle.std.specs.Prelude.{◌≤◌, length, IfOk};
ghost use Rattle.csv_rows.specs.declared.reading.TheConstants.{MOST_ROWS};
ghost use Rattle.column_values.specs.Values.{FitsColumns};
ghost use Rattle.schema_model.specs.Schemas.{width_of};
ghost use Rattle.dep_model.specs.Tuples.{IsOver};
ghost use Rattle.desk_inputs.specs.FileCalls.{OpensFile};
ghost use Rattle.desk_inputs.specs.Rows.{rows_file};

use crate::read::open_file;
use crate::row_refusals::row_refusal_line;
use arguments::Argument;
use csv_rows::read_rows;
use dep_model::Failure;
use desk_outside::FileSource;
use desk_responses::{EarlyExit, Status};
use row_store::Rows;
use schema_model::Schema;
use std::alloc::Global;

/// The most bytes of a CSV file.
pub const MOST_CSV_BYTES: usize = 4_000_000_000;

/// The rows of a CSV file in which each attribute of a schema has a column.
pub fn open_rows<F: FileSource>(
    alloc: Global,
    source: &mut F,
    schema: &Schema,
    name: &Argument,
) -> Result<Rows, EarlyExit>
    ensures opens { OpensFile F.FileSource source.old source.new (rows_file schema.now) name.now
        (λ rows. rows) result }
    ensures over { IfOk result (λ rows. IsOver (width_of schema.now) rows) }
    ensures within_limit { IfOk result (λ rows. length rows ≤ MOST_ROWS) }
    ensures fits { IfOk result (λ rows. FitsColumns schema.now rows) }
{
    let bytes = match open_file(alloc, source, name, MOST_CSV_BYTES) {
        Ok(bytes) => bytes,
        Err(exit) => return Err(exit),
    };
    match read_rows(alloc, schema, &bytes) {
        Ok(rows) => Ok(rows),
        Err(Failure::Refused(refusal)) => Err(EarlyExit::with_text(
            Status::Refused,
            row_refusal_line(alloc, schema, name.bytes(), refusal),
        )),
        Err(Failure::OutOfMemory) => Err(EarlyExit::OutOfMemory),
    }
}
