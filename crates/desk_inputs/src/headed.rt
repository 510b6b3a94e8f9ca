ghost use Rattle.std.specs.Prelude.{◌≡◌, ◌≤◌, ◌<◌, length, IfOk};
ghost use Rattle.dep_model.specs.Tuples.{IsOver};
ghost use Rattle.headed_rows.specs.Headers.{IsHeaderWithin};
ghost use Rattle.headed_rows.specs.Headings.{headed_of};
ghost use Rattle.row_store.specs.declared.limits.TheConstants.{MOST_HEADED_ROWS};
ghost use Rattle.desk_inputs.specs.FileCalls.{OpensFile};
ghost use Rattle.desk_inputs.specs.Headed.{command_for, file_for, headed_file_for, headed_refusal_text, limits_for};

use crate::read::open_file;
use crate::rows::MOST_CSV_BYTES;
use arguments::Argument;
use attr_sets::MOST_ATTRIBUTES;
use byte_texts::{add, add_number};
use dep_model::{Failure, OutOfMemory};
use desk_outside::FileSource;
use desk_responses::{EarlyExit, Status};
use desk_texts::add_displayed;
use headed_rows::{Headed, HeaderRefusal, Limits, read_headed};
use row_store::{MOST_HEADED_ROWS, MOST_ROWS_WITH_ALL, WIDEST_HEADED, WIDEST_WITH_ALL};
use std::alloc::Global;

/// What the rows of a file under names of their own are read for.
#[derive(Clone, Copy, Debug)]
pub enum Purpose {
    /// Their functional dependencies are looked for.
    Rules,
    /// All that they obey is looked for.
    AllRules,
    /// Their columns are made a schema.
    Schema,
}

/// The names and rows of a CSV file whose header names its columns, for such a purpose.
pub fn open_headed<F: FileSource>(
    alloc: Global,
    source: &mut F,
    purpose: Purpose,
    name: &Argument,
) -> Result<Headed, EarlyExit>
    ensures opens { OpensFile F.FileSource source.old source.new (file_for purpose) name.now
        (λ headed. headed_of headed) result }
    ensures header { IfOk result (λ headed. IsHeaderWithin (limits_for purpose).columns headed.names.items) }
    ensures any_name { IfOk result (λ headed. 0 < length headed.names.items) }
    ensures same_width { IfOk result (λ headed. IsOver (length headed.names.items)
        headed.rows) }
    ensures within_limit { IfOk result (λ headed. length headed.rows ≤ (limits_for purpose).rows) }
{
    open_headed_for(
        alloc,
        source,
        command_for(purpose),
        limits_for(purpose),
        name,
    )
}

// The limits of such rows.
fn limits_for(purpose: Purpose) -> Limits
    ensures limits { result ≡ limits_for purpose }
    ensures rows { result.rows ≤ MOST_HEADED_ROWS }
{
    match purpose {
        Purpose::Rules => Limits {
            columns: WIDEST_HEADED,
            rows: MOST_HEADED_ROWS,
        },
        Purpose::AllRules => Limits {
            columns: WIDEST_WITH_ALL,
            rows: MOST_ROWS_WITH_ALL,
        },
        Purpose::Schema => Limits {
            columns: MOST_ATTRIBUTES,
            rows: MOST_HEADED_ROWS,
        },
    }
}

// The word of the command that reads them.
fn command_for(purpose: Purpose) -> &'static [u8]
    ensures command { result.now ≡ command_for purpose }
{
    match purpose {
        Purpose::Rules => b"discover",
        Purpose::AllRules => b"discover",
        Purpose::Schema => b"import",
    }
}

// The names and rows of such a file, for a command of this word, within limits.
fn open_headed_for<F: FileSource>(
    alloc: Global,
    source: &mut F,
    command: &[u8],
    limits: Limits,
    name: &Argument,
) -> Result<Headed, EarlyExit>
    requires rows { limits.rows ≤ MOST_HEADED_ROWS }
    ensures opens { OpensFile F.FileSource source.old source.new (headed_file_for command.now limits) name.now
        (λ headed. headed_of headed) result }
    ensures header { IfOk result (λ headed. IsHeaderWithin limits.columns headed.names.items) }
    ensures any_name { IfOk result (λ headed. 0 < length headed.names.items) }
    ensures same_width { IfOk result (λ headed. IsOver (length headed.names.items)
        headed.rows) }
    ensures within_limit { IfOk result (λ headed. length headed.rows ≤ limits.rows) }
{
    let bytes = match open_file(alloc, source, name, MOST_CSV_BYTES) {
        Ok(bytes) => bytes,
        Err(exit) => return Err(exit),
    };
    match read_headed(alloc, limits, &bytes) {
        Ok(headed) => Ok(headed),
        Err(Failure::Refused(refusal)) => Err(EarlyExit::with_text(
            Status::Refused,
            headed_refusal_line(alloc, command, name.bytes(), refusal),
        )),
        Err(Failure::OutOfMemory) => Err(EarlyExit::OutOfMemory),
    }
}

// The line that words a refusal.
fn headed_refusal_line(
    alloc: Global,
    command: &[u8],
    name: &[u8],
    refusal: HeaderRefusal,
) -> Result<Vec<u8>, OutOfMemory>
    ensures text { IfOk result (λ text. text.items ≡ headed_refusal_text command.now name.now refusal) }
{
    let mut text = Vec::new(alloc);
    add(&mut text, b"refused: ")?;
    add(&mut text, command)?;
    add(&mut text, b" ")?;
    add_number(&mut text, alloc, refusal.number())?;
    add(&mut text, b" at ")?;
    add(&mut text, name)?;
    add(&mut text, b": ")?;
    add_displayed(&mut text, alloc, &refusal)?;
    add(&mut text, b"\n")?;
    Ok(text)
}
