ghost use Rattle.std.specs.Prelude.{◌≡◌, ◌↔◌, ◌<◌, [], ◌++◌, length, None, Some, is_some, IsTrue, IsErrOf, IfOk, IsSomeAnd, option_map, option_to_list, OnOk, OnErr};
ghost use Rattle.desk_outside.specs.declared.failure.OutsideFault.{OutsideFault};
ghost use Rattle.desk_outside.specs.declared.failure.OutsideFault.TheVariants.{Failed};
ghost use Rattle.desk_outside.specs.Causes.{HasOutsideCause, is_failed};
ghost use Rattle.desk_outside.specs.Files.{files_of, without_file};
ghost use Rattle.desk_outside.specs.Folders.{folder_path, more_bytes, BeginsName};
ghost use Rattle.desk_outside.specs.FreeNames.{is_free_among};
ghost use Rattle.desk_outside.specs.Memory.{new_folder, state_of};
ghost use Rattle.desk_outside.specs.Planned.{FailsNext, CountsCall};

use crate::failure::OutsideFault;
use crate::folder::Folder;
use crate::free_name::{any_taken, folder_path};
use crate::held_file::HeldFile;
use crate::memory_series::MemorySeries;
use arguments::Argument;
use std::alloc::Global;
use std::marker::Model;

/// A folder in memory. It makes all its files known, and fails at chosen calls alone.
#[derive(Drop)]
pub struct MemoryFolder {
    alloc: Global,
    files: MemorySeries<HeldFile>,
    begun: Vec<Argument>,
}

impl Model for MemoryFolder {
    ghost use Rattle.std.specs.Option.{option_map};
    ghost use Rattle.desk_outside.specs.Files.{files_of, stored_file};
    ghost use Rattle.desk_outside.specs.Memory.{FolderInMemory};

    ghost Value = { FolderInMemory };

    ghost view = { λ f. record {
      finished = files_of f.files.finished.items;
      opened = option_map stored_file f.files.opened;
      begun = f.begun.items;
      planned = f.files.planned;
    } };
}

impl MemoryFolder {
    /// An empty folder. The calls with these numbers, from 1, fail.
    pub fn new(alloc: Global, fails: Vec<u64>) -> MemoryFolder
        ensures begins { result ≡ new_folder [] fails.items }
    {
        MemoryFolder::with_files(alloc, Vec::new(alloc), fails)
    }

    /// A folder with these files. The calls with these numbers, from 1, fail.
    pub fn with_files(alloc: Global, files: Vec<HeldFile>, fails: Vec<u64>) -> MemoryFolder
        ensures begins { result ≡ new_folder (files_of files.items) fails.items }
    {
        let mut series = MemorySeries::new(alloc, fails);
        series.finished = files;
        MemoryFolder {
            alloc,
            files: series,
            begun: Vec::new(alloc),
        }
    }

    /// The finished files, in the order of their ending.
    pub fn finished_files(&self) -> &[HeldFile]
        ensures files { files_of result.now ≡ self.now.finished }
    {
        &self.files.finished
    }
}

// Removes the files of this name.
fn remove_named(files: &mut Vec<HeldFile>, name: &[u8])
    ensures others { files_of files.new.items ≡ without_file name.now (files_of files.old.items) }
{
    files.retain(|file| file.name.bytes() != name);
}

#[tactic(auto, using(crate::proofs::SeriesFacts::mapped_end, crate::proofs::FreeFacts::any_mapped, crate::proofs::FreeFacts::true_answer))]
impl Folder for MemoryFolder {
    ghost state = { λ folder. state_of folder };

    fn begin(&mut self, name: &[u8]) -> Result<(), OutsideFault>
        ensures replaced { OnOk result (self.new.finished ≡ without_file name.now self.old.finished) }
        ensures finished { OnErr result (self.new.finished ≡ self.old.finished) }
        ensures begun { OnOk result (self.new.opened ≡ Some (record { name = name.now; bytes = [] })) }
        ensures closed { OnErr result (self.new.opened ≡ None) }
        ensures begins { BeginsName name.now self.old.begun self.new.begun result }

        // It fails exactly where its number is planned.
        ensures failed { IsErrOf result OutsideFault.Failed ↔ FailsNext self.old.planned }
        ensures counts { CountsCall self.old.planned self.new.planned (is_failed result) }
        ensures cause { HasOutsideCause self.old.planned.faults self.new.planned.faults result }
    {
        self.files.take_open()?;
        let held = Argument::new(self.alloc, name)?;
        if self.begun.push(Argument::new(self.alloc, name)?).is_err() {
            return Err(OutsideFault::OutOfMemory);
        }
        remove_named(&mut self.files.finished, name);
        let bytes = Vec::new(self.alloc);
        self.files.opened = Some(HeldFile { name: held, bytes });
        Ok(())
    }

    fn write(&mut self, piece: &[u8]) -> Result<usize, OutsideFault>
        requires is_open { IsTrue (is_some self.old.opened) }
        requires not_empty { 0 < length piece.now }
        ensures finished { self.new.finished ≡ self.old.finished }

        ensures same { self.new.begun ≡ self.old.begun }

        // It takes the whole piece.
        ensures count { IfOk result (λ n. n ≡ length piece.now) }
        ensures bytes { OnOk result (self.new.opened ≡ option_map (more_bytes piece.now) self.old.opened) }
        ensures closed { OnErr result (self.new.opened ≡ None) }
        ensures failed { IsErrOf result OutsideFault.Failed ↔ FailsNext self.old.planned }
        ensures counts { CountsCall self.old.planned self.new.planned (is_failed result) }
        ensures cause { HasOutsideCause self.old.planned.faults self.new.planned.faults result }
    {
        let Some(mut file) = self.files.take_open()? else {
            unreachable!();
        };
        file.bytes.extend_from_slice(piece)?;
        self.files.opened = Some(file);
        Ok(piece.len())
    }

    fn end(&mut self) -> Result<(), OutsideFault>
        requires is_open { IsTrue (is_some self.old.opened) }
        ensures same { self.new.begun ≡ self.old.begun }
        ensures finished { OnErr result (self.new.finished ≡ self.old.finished) }
        ensures ended { OnOk result (self.new.finished
            ≡ self.old.finished ++ option_to_list self.old.opened) }
        ensures closed { self.new.opened ≡ None }
        ensures failed { IsErrOf result OutsideFault.Failed ↔ FailsNext self.old.planned }
        ensures counts { CountsCall self.old.planned self.new.planned (is_failed result) }
        ensures cause { HasOutsideCause self.old.planned.faults self.new.planned.faults result }
    {
        self.files.end()
    }

    fn give_up(&mut self)
        ensures finished { self.new.finished ≡ self.old.finished }
        ensures closed { self.new.opened ≡ None }
        ensures same { self.new.begun ≡ self.old.begun }
        ensures planned { self.new.planned ≡ self.old.planned }
    {
        self.files.opened = None;
    }

    fn is_free(&self, name: &[u8]) -> bool
        ensures free { result ≡ is_free_among name.now self.now.finished }
    {
        !any_taken(&self.files.finished, name)
    }

    fn make_folder(&mut self, name: &[u8]) -> Result<(), OutsideFault>
        ensures finished { self.new.finished ≡ self.old.finished }
        ensures opened { self.new.opened ≡ self.old.opened }
        ensures begins { BeginsName (folder_path name.now) self.old.begun self.new.begun result }
        ensures failed { IsErrOf result OutsideFault.Failed ↔ FailsNext self.old.planned }
        ensures counts { CountsCall self.old.planned self.new.planned (is_failed result) }
        ensures cause { HasOutsideCause self.old.planned.faults self.new.planned.faults result }
    {
        if self.files.planned.next_fails() {
            self.files.planned.count_fault();
            return Err(OutsideFault::Failed);
        }
        let path = folder_path(self.alloc, name)?;
        let held = Argument::new(self.alloc, &path)?;
        match self.begun.push(held) {
            Ok(()) => Ok(()),
            Err(_) => Err(OutsideFault::OutOfMemory),
        }
    }

    fn visible(&self) -> Option<&[HeldFile]>
        ensures files { IsSomeAnd result (λ files. files_of files.now ≡ self.now.finished) }
    {
        Some(&self.files.finished)
    }
}
