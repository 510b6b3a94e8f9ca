ghost use Rattle.std.specs.Prelude.{◌≡◌, ◌^◌, ◌<◌, ◌≤◌, length, IfOk};
ghost use Rattle.schema_model.specs.Schemas.{universe_of, theory_in};
ghost use Rattle.dep_model.specs.Deps.{dependency_of, IsDepWithin};
ghost use Rattle.derivation.specs.Conclusions.{Proves};
ghost use Rattle.derivation.specs.Derivs.{tree_of};
ghost use Rattle.desk_responses.specs.ResponseValues.{Says};
ghost use Rattle.desk_texts.specs.Texts.{cannot_read_text, too_long_text};
ghost use Rattle.desk_inputs.specs.FileCalls.{LoadsFile, OpensFile};
ghost use Rattle.desk_inputs.specs.Inputs.{schema_file, proof_file};
ghost use Rattle.desk_responses.specs.Responses.{ExitsAs};

use arguments::Argument;
use dep_model::{Failure, OutOfMemory};
use desk_outside::{FileSource, LoadRefusal, load};
use desk_refusals::{proof_refusal_line, refusal_exit};
use desk_responses::{EarlyExit, Status};
use desk_texts::line_of;
use proof_text::{Concluded, MOST_PROOF_BYTES, read_concluded};
use schema_model::Schema;
use schema_reader::{MOST_TEXT_BYTES, read_schema};
use std::alloc::Global;

/// The bytes of a file, of which there are at most so many.
pub fn open_file<F: FileSource>(
    alloc: Global,
    source: &mut F,
    name: &Argument,
    limit: usize,
) -> Result<Vec<u8>, EarlyExit>
    requires { limit < 2 ^ 32 }
    ensures loads { LoadsFile F.FileSource source.old source.new limit name.now (λ bytes. bytes.items) result }
    ensures within { IfOk result (λ bytes. length bytes.items ≤ limit) }
{
    match load(alloc, source, name.bytes(), limit) {
        Ok(bytes) => Ok(bytes),
        Err(LoadRefusal::CannotRead) => Err(cannot_read_exit(alloc, name)),
        Err(LoadRefusal::TooLong) => Err(too_long_exit(alloc, name)),
        Err(LoadRefusal::OutOfMemory) => Err(EarlyExit::OutOfMemory),
    }
}

// A file that cannot be read.
fn cannot_read_exit(alloc: Global, name: &Argument) -> EarlyExit
    ensures says { ExitsAs (Says Status.CannotRead (cannot_read_text name.now)) result }
{
    EarlyExit::with_text(Status::CannotRead, cannot_read_line(alloc, name))
}

fn cannot_read_line(alloc: Global, name: &Argument) -> Result<Vec<u8>, OutOfMemory>
    ensures line { IfOk result (λ text. text.items ≡ cannot_read_text name.now) }
{
    line_of(alloc, b"cannot read ", name.bytes(), b"")
}

// A file that is too long.
fn too_long_exit(alloc: Global, name: &Argument) -> EarlyExit
    ensures says { ExitsAs (Says Status.Refused (too_long_text name.now)) result }
{
    EarlyExit::with_text(Status::Refused, too_long_line(alloc, name))
}

fn too_long_line(alloc: Global, name: &Argument) -> Result<Vec<u8>, OutOfMemory>
    ensures line { IfOk result (λ text. text.items ≡ too_long_text name.now) }
{
    line_of(alloc, b"refused: ", name.bytes(), b" is too long")
}

/// The schema of a file.
pub fn open_schema<F: FileSource>(
    alloc: Global,
    source: &mut F,
    name: &Argument,
) -> Result<Schema, EarlyExit>
    ensures opens { OpensFile F.FileSource source.old source.new schema_file name.now
        (λ schema. schema) result }
{
    let bytes = match open_file(alloc, source, name, MOST_TEXT_BYTES) {
        Ok(bytes) => bytes,
        Err(exit) => return Err(exit),
    };
    match read_schema(alloc, &bytes) {
        Ok(schema) => Ok(schema),
        Err(Failure::Refused(refusal)) => Err(refusal_exit(
            alloc,
            b"schema",
            name.bytes(),
            refusal,
        )),
        Err(Failure::OutOfMemory) => Err(EarlyExit::OutOfMemory),
    }
}

/// The derivation of a certificate file, and the dependency that it concludes.
pub fn open_proof<F: FileSource>(
    alloc: Global,
    source: &mut F,
    schema: &Schema,
    name: &Argument,
) -> Result<Concluded, EarlyExit>
    ensures opens { OpensFile F.FileSource source.old source.new (proof_file schema.now) name.now
        (λ read. tree_of read.deriv.value) result }
    ensures concludes { IfOk result
        (λ read. Proves (theory_in schema.now) (tree_of read.deriv.value) (dependency_of read.dep)) }
    ensures within { IfOk result (λ read. IsDepWithin (universe_of schema.now) read.dep) }
{
    let bytes = match open_file(alloc, source, name, MOST_PROOF_BYTES) {
        Ok(bytes) => bytes,
        Err(exit) => return Err(exit),
    };
    match read_concluded(alloc, schema, &bytes) {
        Ok(read) => Ok(read),
        Err(Failure::Refused(refusal)) => Err(EarlyExit::with_text(
            Status::Refused,
            proof_refusal_line(alloc, schema, name.bytes(), refusal),
        )),
        Err(Failure::OutOfMemory) => Err(EarlyExit::OutOfMemory),
    }
}
