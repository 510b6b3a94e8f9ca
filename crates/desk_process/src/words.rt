ghost use Rattle.std.specs.Prelude.{◌≡◌, ◌≢◌, drop, map, string_bytes, IfOk, IfErr, IsOk, IsErr};
ghost use Rattle.std.specs.IoError.{error_kind};
ghost use Rattle.desk_process.specs.Running.{words_in};

use arguments::Argument;
use dep_model::OutOfMemory;
use std::alloc::Global;
use std::io;
use std::io::ErrorKind;

/// The words of arguments that were read so, without the first, which is the program's name. Where one of them is not
/// UTF-8 there are none, and so they form no command; at any other error memory ran out.
pub fn words_given(
    alloc: Global,
    arguments: io::Result<Vec<String>>,
) -> Result<Vec<Argument>, OutOfMemory>
    ensures words { IfOk result (λ words. words.items ≡ words_in arguments) }
    ensures not_texts { IfErr arguments (λ e. error_kind e ≡ ErrorKind.InvalidData → IsOk result) }
    ensures memory { IfErr arguments (λ e. error_kind e ≢ ErrorKind.InvalidData → IsErr result) }
{
    match arguments {
        Ok(arguments) => words_after_name(alloc, &arguments),
        Err(error) => {
            if error.kind() == ErrorKind::InvalidData {
                return Ok(Vec::new(alloc));
            }
            Err(OutOfMemory)
        }
    }
}

// All of the arguments but the first.
fn words_after_name(alloc: Global, arguments: &[String]) -> Result<Vec<Argument>, OutOfMemory>
    ensures words { IfOk result (λ words. words.items ≡ drop 1 (map string_bytes arguments.now)) }
{
    match arguments {
        [] => Ok(Vec::new(alloc)),
        [_, words @ ..] => words_of(alloc, words),
    }
}

// All of these.
fn words_of(alloc: Global, arguments: &[String]) -> Result<Vec<Argument>, OutOfMemory>
    ensures words { IfOk result (λ words. words.items ≡ map string_bytes arguments.now) }
{
    let mut words = Vec::new(alloc);
    for argument in arguments {
        words.push(Argument::new(alloc, argument.as_bytes())?)?;
    }
    Ok(words)
}
