ghost use Rattle.std.specs.Prelude.{◌≡◌, None};

use desk_outside::{Failed, Sink};

/// What takes the notices that are to be seen although standard output goes elsewhere: standard error. Where standard
/// output is a terminal it takes all and shows nothing, since what is said stands there already.
///
/// Nothing is known of what it took. An error of the system, and a write that takes nothing, are faults, and all are
/// counted.
#[derive(Drop)]
pub struct NoticeSink<P: Print + Drop> {
    err: P,
    is_shown: bool,
    faults: u64,
}

impl<P: Print + Drop> NoticeSink<P> {
    /// A sink that writes to `err`, where notices are shown. No fault is counted.
    pub fn new(err: P, is_shown: bool) -> NoticeSink<P>
        ensures faults { ⟦<NoticeSink<P> as Sink>⟧.faults result ≡ 0 }
    {
        NoticeSink {
            err,
            is_shown,
            faults: 0,
        }
    }
}

impl<P: Print + Drop> Sink for NoticeSink<P> {
    ghost contents = { λ _. None };

    ghost faults = { λ sink. sink.faults };

    fn write(&mut self, piece: &[u8]) -> Result<usize, Failed> {
        if !self.is_shown {
            return Ok(piece.len());
        }
        match self.err.write_some(piece) {
            Ok(count) if count > 0 => Ok(count),
            _ => {
                self.faults = self.faults.saturating_add(1);
                Err(Failed)
            }
        }
    }
}
