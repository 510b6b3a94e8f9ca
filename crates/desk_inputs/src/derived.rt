ghost use Rattle.std.specs.Prelude.{IfOk};
ghost use Rattle.derivation_grammar.specs.Meanings.{IsDerivation};
ghost use Rattle.derivation_text.specs.Views.{derivation_lines_of};
ghost use Rattle.desk_inputs.specs.FileCalls.{OpensFile};
ghost use Rattle.desk_inputs.specs.Inputs.{derivation_file};

use crate::read::open_file;
use arguments::Argument;
use dep_model::Failure;
use derivation_text::{DerivationLine, read_derivation};
use desk_outside::FileSource;
use desk_refusals::derivation_refusal_line;
use desk_responses::{EarlyExit, Status};
use proof_text::MOST_PROOF_BYTES;
use schema_model::Schema;
use std::alloc::Global;

/// The lines of the derivation of a file over a schema, whatever their rules give.
pub fn open_derivation<F: FileSource>(
    alloc: Global,
    source: &mut F,
    schema: &Schema,
    name: &Argument,
) -> Result<Vec<DerivationLine>, EarlyExit>
    ensures opens { OpensFile F.FileSource source.old source.new (derivation_file schema.now) name.now
        (λ lines. derivation_lines_of lines.items) result }
    ensures derivation { IfOk result
        (λ lines. IsDerivation schema.now (derivation_lines_of lines.items)) }
{
    let bytes = match open_file(alloc, source, name, MOST_PROOF_BYTES) {
        Ok(bytes) => bytes,
        Err(exit) => return Err(exit),
    };
    match read_derivation(alloc, schema, &bytes) {
        Ok(lines) => Ok(lines),
        Err(Failure::Refused(refusal)) => Err(EarlyExit::with_text(
            Status::Refused,
            derivation_refusal_line(alloc, schema, name.bytes(), refusal),
        )),
        Err(Failure::OutOfMemory) => Err(EarlyExit::OutOfMemory),
    }
}
