use std::alloc::Global;
use std::rt::{Clock, Files};
use std::time::{Duration, Instant};

// How many seconds a line waits, and then stays as it is.
const PAUSE: u64 = 2;

const MEGABYTE: u64 = 1_000_000;

/// A line on standard error that tells what takes long: what is read, is at work or is written, and how
/// much of it.
///
/// It is shown only where standard error is a terminal, from two seconds after its begin on. An error of
/// the clock, of the link or of the line is passed over.
#[derive(Drop)]
pub struct ProgressLine {
    // when it was begun or shown last, where it may be shown at all
    since: Option<Instant>,
}

impl ProgressLine {
    /// A line that is begun now.
    pub fn new<R: Files + Clock>(alloc: Global, rt: &R) -> ProgressLine {
        if is_terminal(alloc, rt) {
            return ProgressLine {
                since: Instant::now(rt).ok(),
            };
        }
        ProgressLine { since: None }
    }

    /// Shows what is done with a file, how many bytes of it are done and of how many, if that is known,
    /// where it is time to.
    pub fn show<R: Clock + Eprint>(
        &mut self,
        rt: &R,
        doing: &str,
        name: &[u8],
        done: u64,
        all: Option<u64>,
    ) {
        if self.is_due(rt) {
            let name = str::from_utf8(name).unwrap_or("");
            let done = done / MEGABYTE;
            let _ = match all {
                Some(all) => {
                    let all = all / MEGABYTE;
                    eprint!(rt; "\r{doing} {name}: {done} of {all} MB\x1b[K")
                }
                None => eprint!(rt; "\r{doing} {name}: {done} MB\x1b[K"),
            };
        }
    }

    /// Takes the lines of all away, before the first byte of output.
    pub fn clear<R: Clock + Eprint>(&mut self, rt: &R) {
        if self.is_due(rt) {
            let _ = eprint!(rt; "\r\x1b[K");
        }
        self.since = None;
    }

    // Whether it may be shown now; the next pause begins then.
    fn is_due<R: Clock>(&mut self, rt: &R) -> bool {
        let (Some(since), Ok(now)) = (self.since, Instant::now(rt)) else {
            return false;
        };
        if now.duration_since(since) < Duration::from_secs(PAUSE) {
            return false;
        }
        self.since = Some(now);
        true
    }
}

// Whether standard error is a terminal, by what its link names.
fn is_terminal<R: Files>(alloc: Global, rt: &R) -> bool {
    match rt.read_link(alloc, "/proc/self/fd/2") {
        Ok(path) => {
            let path = path.to_string_lossy();
            path.starts_with("/dev/pts/") || path.starts_with("/dev/tty")
        }
        Err(_) => false,
    }
}
