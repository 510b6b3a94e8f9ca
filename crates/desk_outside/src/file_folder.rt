ghost use Rattle.std.specs.Prelude.{◌≡◌, ◌≤◌, ◌↔◌, ◌⊎◌, false, [], None, IsTrue, IsOk, IsErrAnd, IfOk, is_some, length};
ghost use Rattle.std.specs.IoError.{error_kind};

use crate::failure::OutsideFault;
use crate::folder::Folder;
use crate::free_name::folder_path;
use crate::held_file::HeldFile;
use crate::made_folder::{is_free_path, is_made};
use crate::progress::ProgressLine;
use arguments::Argument;
use std::alloc::Global;
use std::fs::{OpenFile, OpenOptions};
use std::io;
use std::io::{ErrorKind, Write};
use std::rt::{Clock, Files};

/// The system's current folder.
///
/// Of what it holds only the names begun are known: what a look at a name finds is known to nobody. A name that is not
/// UTF-8, a write that takes nothing and any error of the system are faults, and all are counted. A file of a name that
/// is there is emptied. What ends is flushed first, unless it is of a kind that cannot be.
#[derive(Drop)]
pub struct FileFolder<R: Files + Alloc + Clock + Eprint + Clone + Drop> {
    alloc: Global,
    rt: R,
    begun: Vec<Argument>,
    opened: Option<R::File>,
    written: u64,
    faults: u64,
    progress: ProgressLine,
}

impl<R: Files + Alloc + Clock + Eprint + Clone + Drop> FileFolder<R> {
    /// The folder that the runtime reaches. No file is open or begun, and no fault is counted.
    pub fn new(alloc: Global, rt: R) -> FileFolder<R>
        ensures is_open { (⟦<FileFolder<R> as Folder>⟧.state result).is_open ≡ false }
        ensures begun { (⟦<FileFolder<R> as Folder>⟧.state result).begun ≡ [] }
        ensures faults { (⟦<FileFolder<R> as Folder>⟧.state result).faults ≡ 0 }
    {
        let progress = ProgressLine::new(alloc, &rt);
        FileFolder {
            alloc,
            rt,
            begun: Vec::new(alloc),
            opened: None,
            written: 0,
            faults: 0,
            progress,
        }
    }
}

impl<R: Files + Alloc + Clock + Eprint + Clone + Drop> FileFolder<R> {
    // Tells what is written.
    fn tell(&mut self, count: usize)
        ensures opened { self.new.opened ≡ self.old.opened }
        ensures begun { self.new.begun ≡ self.old.begun }
        ensures faults { self.new.faults ≡ self.old.faults }
    {
        self.written = self.written.saturating_add(count as u64);
        if let Some(name) = self.begun.last() {
            self.progress
                .show(&self.rt, "writing", name.bytes(), self.written, None);
        }
    }
}

// An empty file of this name, if it is UTF-8 and the system makes one.
fn create_named<R: Files>(rt: &R, name: &[u8]) -> Option<R::File> {
    let path = str::from_utf8(name).ok()?;
    OpenOptions::new()
        .write(true)
        .create(true)
        .truncate(true)
        .open(rt, path)
        .ok()
}

// Bytes from the front of the piece for the open file, where one is open.
fn write_opened<T: Write>(opened: &mut Option<T>, piece: &[u8]) -> io::Result<usize>
    ensures bound { IfOk result (λ n. n ≤ length piece.now) }
    ensures stays { is_some opened.new ≡ is_some opened.old }
{
    match opened {
        Some(file) => file.write(piece),
        None => Ok(0),
    }
}

// Whether a flush that ended so left all in the file. What is no file that can be flushed, as a pipe,
// took all when it was written.
fn is_flushed(flush: &io::Result<()>) -> bool
    ensures flushed { IsTrue result ↔
        (IsOk flush.now ⊎ IsErrAnd flush.now (λ e. error_kind e ≡ ErrorKind.InvalidInput)) }
{
    match flush {
        Ok(()) => true,
        Err(error) => error.kind() == ErrorKind::InvalidInput,
    }
}

// Flushes the open file, where one is open.
fn flush_opened<T: OpenFile>(opened: &Option<T>) -> io::Result<()> {
    match opened {
        Some(file) => file.sync_all(),
        None => Ok(()),
    }
}

impl<R: Files + Alloc + Clock + Eprint + Clone + Drop> Folder for FileFolder<R> {
    ghost state = { λ folder. record {
      contents = None;
      is_open = is_some folder.opened;
      begun = folder.begun.items;
      faults = folder.faults;
    } };

    fn begin(&mut self, name: &[u8]) -> Result<(), OutsideFault> {
        self.opened = None;
        if self.begun.push(Argument::new(self.alloc, name)?).is_err() {
            return Err(OutsideFault::OutOfMemory);
        }
        self.written = 0;
        self.opened = create_named(&self.rt, name);
        if self.opened.is_some() {
            return Ok(());
        }
        self.faults = self.faults.saturating_add(1);
        Err(OutsideFault::Failed)
    }

    fn write(&mut self, piece: &[u8]) -> Result<usize, OutsideFault> {
        match write_opened(&mut self.opened, piece) {
            Ok(count) if count > 0 => {
                self.tell(count);
                Ok(count)
            }
            _ => {
                self.opened = None;
                self.faults = self.faults.saturating_add(1);
                Err(OutsideFault::Failed)
            }
        }
    }

    fn end(&mut self) -> Result<(), OutsideFault> {
        let flushed = is_flushed(&flush_opened(&self.opened));
        self.opened = None;
        if flushed {
            return Ok(());
        }
        self.faults = self.faults.saturating_add(1);
        Err(OutsideFault::Failed)
    }

    fn give_up(&mut self) {
        self.opened = None;
    }

    fn is_free(&self, name: &[u8]) -> bool {
        match str::from_utf8(name) {
            Ok(path) => is_free_path(&self.rt, path),
            Err(_) => false,
        }
    }

    fn make_folder(&mut self, name: &[u8]) -> Result<(), OutsideFault> {
        let path = folder_path(self.alloc, name)?;
        if self.begun.push(Argument::new(self.alloc, &path)?).is_err() {
            return Err(OutsideFault::OutOfMemory);
        }
        if is_made(&self.rt, name) {
            return Ok(());
        }
        self.faults = self.faults.saturating_add(1);
        Err(OutsideFault::Failed)
    }

    fn visible(&self) -> Option<&[HeldFile]>
        ensures none { result ≡ None }
    {
        None
    }
}
