ghost use Rattle.std.specs.Prelude.{◌≡◌, ◌∷◌, ◌++◌, [], length, map, All, IfOk, OnOk};
ghost use Rattle.dep_model.specs.Tuples.{IsOver};
ghost use Rattle.headed_rows.specs.Headers.{IsColumnHeader};
ghost use Rattle.headed_rows.specs.Headings.{headed_of};
ghost use Rattle.desk_inputs.specs.FileCalls.{OpensFiles};
ghost use Rattle.desk_inputs.specs.Headed.{headed_file};

use crate::headed::{Purpose, open_headed};
use arguments::Argument;
use dep_model::OutOfMemory;
use desk_outside::FileSource;
use desk_responses::EarlyExit;
use headed_rows::Headed;
use std::alloc::Global;

/// The names and rows of CSV files whose headers name their columns, one after the other, as those of a
/// file of which the dependencies are looked for.
pub fn open_headed_files<F: FileSource>(
    alloc: Global,
    source: &mut F,
    files: &[Argument],
) -> Result<Vec<Headed>, EarlyExit>
    ensures opens { OpensFiles F.FileSource source.old source.new headed_file files.now
        (λ read. map headed_of read.items) result }
    ensures header { IfOk result (λ read. All (λ h. IsColumnHeader h.names.items) read.items) }
    ensures same_width { IfOk result (λ read. All (λ h. IsOver (length h.names.items) h.rows) read.items) }
    ensures one_each { IfOk result (λ read. length read.items ≡ length files.now) }
{
    let mut read = Vec::new(alloc);
    for file in files {
        let headed = match open_headed(alloc, source, Purpose::Rules, file) {
            Ok(headed) => headed,
            Err(exit) => return Err(exit),
        };
        match add_headed(&mut read, headed) {
            Ok(()) => {}
            Err(_) => return Err(EarlyExit::OutOfMemory),
        }
    }
    Ok(read)
}

// One file more.
fn add_headed(read: &mut Vec<Headed>, headed: Headed) -> Result<(), OutOfMemory>
    ensures added { OnOk result (read.new.items ≡ read.old.items ++ headed ∷ []) }
{
    match read.push(headed) {
        Ok(()) => Ok(()),
        Err(_) => Err(OutOfMemory),
    }
}
