use arguments::Argument;
use dep_model::OutOfMemory;
use desk_process::words_given;
use std::env;
use std::rt::Runtime;

/// The words after the program's name, as `words_given` has them.
pub fn words<R: Runtime + AllocGlobal>(rt: &R) -> Result<Vec<Argument>, OutOfMemory> {
    match env::args(rt) {
        Ok(arguments) => words_given(rt.alloc(), Ok(arguments.collect(rt.alloc())?)),
        Err(error) => words_given(rt.alloc(), Err(error)),
    }
}
