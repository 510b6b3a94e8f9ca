ghost use Rattle.std.specs.Prelude.{◌≡◌, [], None, refl};
ghost use Rattle.std.specs.Io.{ReadsAtMost};

use crate::failure::{Failed, OutsideFault};
use crate::file_source::FileSource;
use crate::progress::ProgressLine;
use crate::sink::Sink;
use arguments::Argument;
use std::alloc::Global;
use std::fs::OpenFile;
use std::io::Read;
use std::rt::{Clock, Files};
use std::{fs, io};

/// The system's files.
///
/// Of them only the names begun are known. A name that is not UTF-8, a missing file and any error of
/// the system are faults, and all are counted.
#[derive(Drop)]
pub struct RealFiles<R: Files + Clock + Eprint + Drop> {
    alloc: Global,
    rt: R,
    names: Vec<Argument>,
    begun: Option<R::File>,
    // how many bytes the begun file has, if the system says so
    size: Option<u64>,
    taken: u64,
    faults: u64,
    progress: ProgressLine,
}

impl<R: Files + Clock + Eprint + Drop> RealFiles<R> {
    /// The files that the runtime reaches. None is begun, and no fault is counted.
    pub fn new(alloc: Global, rt: R) -> RealFiles<R>
        ensures begun { ⟦<RealFiles<R> as FileSource>⟧.begun result [] }
        ensures taken { ⟦<RealFiles<R> as FileSource>⟧.taken result ≡ 0 }
        ensures faults { ⟦<RealFiles<R> as FileSource>⟧.faults result ≡ 0 }
    {
        let progress = ProgressLine::new(alloc, &rt);
        RealFiles {
            alloc,
            rt,
            names: Vec::new(alloc),
            begun: None,
            size: None,
            taken: 0,
            faults: 0,
            progress,
        }
    }
}

impl<R: Files + Clock + Eprint + Drop> RealFiles<R> {
    // Tells what is read, and at the end of a file that it is at work.
    fn tell(&mut self, count: usize)
        ensures names { self.new.names ≡ self.old.names }
        ensures taken { self.new.taken ≡ self.old.taken }
        ensures faults { self.new.faults ≡ self.old.faults }
    {
        let doing = if count == 0 { "at work on" } else { "reading" };
        if let Some(name) = self.names.last() {
            self.progress
                .show(&self.rt, doing, name.bytes(), self.taken, self.size);
        }
    }
}

// The file of this name, if it is UTF-8 and the system opens it.
fn open_named<R: Files>(rt: &R, name: &[u8]) -> Option<R::File> {
    let path = str::from_utf8(name).ok()?;
    fs::open(rt, path).ok()
}

// How many bytes the begun file has, if the system says so; a pipe has none.
fn size_of<T: OpenFile>(begun: &Option<T>) -> Option<u64> {
    match begun {
        Some(file) => match file.metadata() {
            Ok(told) if told.len() > 0 => Some(told.len()),
            _ => None,
        },
        None => None,
    }
}

// The next bytes of the begun file; where none is begun, it is at its end.
fn read_begun<T: Read>(begun: &mut Option<T>, buf: &mut [u8]) -> io::Result<usize>
    ensures bound { ReadsAtMost result buf.new }
{
    match begun {
        Some(file) => file.read(buf),
        None => Ok(0),
    }
}

impl<R: Files + Clock + Eprint + Drop> FileSource for RealFiles<R> {
    ghost files = { λ _. None };

    ghost left = { λ _. None };

    ghost taken = { λ source. source.taken };

    ghost begun = { λ source names. source.names.items ≡ names };

    ghost faults = { λ source. source.faults };

    fn begin(&mut self, name: &[u8]) -> Result<(), OutsideFault> {
        self.taken = 0;
        self.begun = None;
        if self.names.push(Argument::new(self.alloc, name)?).is_err() {
            return Err(OutsideFault::OutOfMemory);
        }
        self.begun = open_named(&self.rt, name);
        self.size = size_of(&self.begun);
        if self.begun.is_some() {
            return Ok(());
        }
        self.faults = self.faults.saturating_add(1);
        Err(OutsideFault::Failed)
    }

    fn read(&mut self, buf: &mut [u8]) -> Result<usize, Failed> {
        match read_begun(&mut self.begun, buf) {
            Ok(count) => {
                self.taken = self.taken.saturating_add(count as u64);
                self.tell(count);
                Ok(count)
            }
            Err(_) => {
                self.begun = None;
                self.faults = self.faults.saturating_add(1);
                Err(Failed)
            }
        }
    }

    ghost knows_all_or_none = { λ _. refl };
}

/// The standard output.
///
/// Nothing is known of what it took. An error of the system, and a write that takes nothing, are
/// faults, and all are counted.
#[derive(Drop)]
pub struct StdoutSink<R: Print + Clock + Eprint + Drop> {
    rt: R,
    faults: u64,
    progress: ProgressLine,
}

impl<R: Print + Clock + Eprint + Drop> StdoutSink<R> {
    /// The output that the runtime prints to, before which a line is cleared. No fault is counted.
    pub fn new(rt: R, progress: ProgressLine) -> StdoutSink<R>
        ensures faults { ⟦<StdoutSink<R> as Sink>⟧.faults result ≡ 0 }
    {
        StdoutSink {
            rt,
            faults: 0,
            progress,
        }
    }
}

impl<R: Print + Clock + Eprint + Drop> Sink for StdoutSink<R> {
    ghost contents = { λ _. None };

    ghost faults = { λ sink. sink.faults };

    fn write(&mut self, piece: &[u8]) -> Result<usize, Failed> {
        self.progress.clear(&self.rt);
        match self.rt.write_some(piece) {
            Ok(count) if count > 0 => Ok(count),
            _ => {
                self.faults = self.faults.saturating_add(1);
                Err(Failed)
            }
        }
    }
}
