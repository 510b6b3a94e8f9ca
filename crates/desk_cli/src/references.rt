//! What is asked of the rows of several files under names of their own: the files are read one after the other, and
//! then the question is put to what was read.

ghost use Rattle.std.specs.Prelude.{◌∷◌, []};
ghost use Rattle.desk_inputs.specs.FileCalls.{Reads};
ghost use Rattle.desk_inputs.specs.FileKinds.{WithFile, WithFiles};
ghost use Rattle.desk_inputs.specs.Headed.{headed_file};
ghost use Rattle.desk_references.specs.Checks.{ChecksReferences};
ghost use Rattle.desk_references.specs.Findings.{FindsReferences};
ghost use Rattle.desk_responses.specs.Responses.{RespondsAs};

use arguments::Argument;
use desk_inputs::{Purpose, open_headed, open_headed_files};
use desk_outside::FileSource;
use desk_references::{check_references, find_references};
use desk_responses::{EarlyExit, Response};
use row_store::Hashing;
use std::alloc::Global;

/// Which columns of files reference which.
pub fn of_headed_files<F: FileSource>(
    alloc: Global,
    hashing: Hashing,
    source: &mut F,
    files: &[Argument],
) -> Result<Response, EarlyExit>
    ensures reads { Reads F.FileSource source.old source.new files.now
        (λ r. RespondsAs (WithFiles headed_file r files.now (FindsReferences files.now)) result) }
{
    let heads = match open_headed_files(alloc, source, files) {
        Ok(heads) => heads,
        Err(exit) => return Err(exit),
    };
    find_references(alloc, hashing, files, &heads)
}

/// Whether each row of a file, by columns of these names, has its match in another, by columns of others.
pub fn of_two_headed<F: FileSource>(
    alloc: Global,
    hashing: Hashing,
    source: &mut F,
    file: &Argument,
    names: &Argument,
    other: &Argument,
    other_names: &Argument,
) -> Result<Response, EarlyExit>
    ensures reads { Reads F.FileSource source.old source.new (file.now ∷ other.now ∷ [])
        (λ r. RespondsAs (WithFile headed_file r file.now
        (λ own. WithFile headed_file r other.now
        (λ others. ChecksReferences own names.now others other_names.now))) result) }
{
    let own = match open_headed(alloc, source, Purpose::Rules, file) {
        Ok(own) => own,
        Err(exit) => return Err(exit),
    };
    let others = match open_headed(alloc, source, Purpose::Rules, other) {
        Ok(others) => others,
        Err(exit) => return Err(exit),
    };
    check_references(alloc, hashing, &own, names, &others, other_names)
}
