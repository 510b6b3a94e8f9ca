ghost use Rattle.std.specs.Prelude.{⊤, ◌≡◌, ◌+◌, ◌^◌, ◌<◌, ◌↔◌, ◌⊎◌, ◌&&◌, [], ◌++◌, min, length, take, drop, is_err, is_some, unwrap_or, None, Some, IsSome, IsOk, IsErr, IfNone, IfSome, IfOk, OnErr, IsOkUnless, refl, if◌then◌else◌};
ghost use Rattle.desk_outside.specs.Causes.{count_on, last_count, HasCause, HasBeginCause};
ghost use Rattle.desk_outside.specs.Files.{bytes_of_file, files_of};
ghost use Rattle.desk_outside.specs.Memory.{new_source, new_sink, room, bytes_at, IsBegun};
ghost use Rattle.desk_outside.specs.Planned.{FailsNext, NeverFails, CountsCall};

use crate::failure::{Failed, OutsideFault};
use crate::fault_plan::PlannedFaults;
use crate::file_source::FileSource;
use crate::held_file::HeldFile;
use crate::sink::Sink;
use dep_model::OutOfMemory;
use std::alloc::Global;
use std::marker::Model;

/// Files in memory. It makes all of them known, and fails at chosen calls alone.
#[derive(Debug, Drop)]
pub struct MemoryFiles {
    files: Vec<HeldFile>,
    begun: Option<usize>,
    taken: usize,
    step: usize,
    planned: PlannedFaults,
}

impl Model for MemoryFiles {
    ghost use Rattle.std.specs.Prelude.{◌<◌, drop};
    ghost use Rattle.desk_outside.specs.Files.{files_of};
    ghost use Rattle.desk_outside.specs.Memory.{FileSourceInMemory, bytes_at, IsBegun};

    ghost Value = { FileSourceInMemory };

    ghost view = { λ s. record {
      files = files_of s.files.items;
      left = drop s.taken (bytes_at s.files.items s.begun);
      taken = s.taken;
      step = s.step;
      planned = s.planned;
    } };

    ghost invariant = { λ s. (0 < s.step) × IsBegun s.files.items s.begun s.taken };
}

impl MemoryFiles {
    /// A file source of these files, of which the first of a name counts. The calls with these numbers,
    /// from 1, fail.
    pub fn new(files: Vec<HeldFile>, fails: Vec<u64>) -> MemoryFiles
        ensures begins { result ≡ new_source (files_of files.items) fails.items last_count }
    {
        MemoryFiles::with_step(files, fails, usize::MAX)
    }

    /// The same, of which each read gives at most `step` bytes.
    pub fn with_step(files: Vec<HeldFile>, fails: Vec<u64>, step: usize) -> MemoryFiles
        requires { 0 < step }
        ensures begins { result ≡ new_source (files_of files.items) fails.items step }
    {
        MemoryFiles {
            files,
            begun: None,
            taken: 0,
            step,
            planned: PlannedFaults::new(fails),
        }
    }
}

// The position of the first file of this name.
fn position_of(files: &[HeldFile], name: &[u8]) -> Option<usize>
    ensures found { IfSome result (λ position. position < length files.now) }
    ensures bytes { IfSome result (λ position.
        bytes_of_file (files_of files.now) name.now ≡ Some (bytes_at files.now (Some position))) }
    ensures missing { IfNone result (bytes_of_file (files_of files.now) name.now ≡ None) }
{
    for (position, file) in files.iter().enumerate() {
        if file.name.bytes() == name {
            return Some(position);
        }
    }
    None
}

// What is left of the begun file.
fn rest_of(files: &[HeldFile], begun: Option<usize>, taken: usize) -> &[u8]
    requires { IsBegun files.now begun taken }
    ensures left { result.now ≡ drop taken (bytes_at files.now begun) }
    ensures fits_u64 { taken + length result.now < 2 ^ 64 }
{
    match begun {
        Some(position) => &files[position].bytes[taken..],
        None => &[],
    }
}

impl FileSource for MemoryFiles {
    ghost files = { λ source. Some source.files };

    ghost left = { λ source. Some source.left };

    ghost taken = { λ source. source.taken };

    // To note a name takes memory, and of a file that is not held it is said that it fails.
    ghost begun = { λ _ _. ⊤ };

    ghost faults = { λ source. source.planned.faults };

    fn begin(&mut self, name: &[u8]) -> Result<(), OutsideFault>
        ensures files { self.new.files ≡ self.old.files }
        ensures step { self.new.step ≡ self.old.step }
        ensures taken { self.new.taken ≡ 0 }

        // It fails exactly where its number is planned or the file is not held, and never otherwise.
        ensures only { IsOkUnless result OutsideFault.Failed }
        ensures failed { IsErr result ↔
            (FailsNext self.old.planned ⊎ (bytes_of_file self.old.files name.now ≡ None)) }
        ensures never_fails { NeverFails self.old.planned
            → IsSome (bytes_of_file self.old.files name.now) → IsOk result }
        ensures left { self.new.left ≡
            (if is_err result then [] else unwrap_or (bytes_of_file self.old.files name.now) []) }

        // A file that is not held is no fault.
        ensures counts { CountsCall self.old.planned self.new.planned
            (is_err result && is_some (bytes_of_file self.old.files name.now)) }
        ensures cause { HasBeginCause (Some self.old.files) name.now
            self.old.planned.faults self.new.planned.faults result }
    {
        let fails = self.planned.next_fails();
        self.taken = 0;
        self.begun = position_of(&self.files, name);
        if self.begun.is_none() {
            return Err(OutsideFault::Failed);
        }
        if fails {
            self.begun = None;
            self.planned.count_fault();
            return Err(OutsideFault::Failed);
        }
        Ok(())
    }

    fn read(&mut self, buf: &mut [u8]) -> Result<usize, Failed>
        ensures files { self.new.files ≡ self.old.files }
        ensures step { self.new.step ≡ self.old.step }

        // It fails exactly where its number is planned, and gives as many bytes as it may.
        ensures failed { IsErr result ↔ FailsNext self.old.planned }
        ensures never_fails { NeverFails self.old.planned → IsOk result }
        ensures count { IfOk result (λ n.
            n ≡ min (length buf.new) (min self.old.step (length self.old.left))) }
        ensures bytes { IfOk result (λ n. self.old.left ≡ take n buf.new ++ self.new.left) }
        ensures end { IfOk result (λ n. n ≡ 0 → 0 < length buf.new → self.new.left ≡ []) }
        ensures taken { IfOk result (λ n. self.new.taken ≡ count_on self.old.taken n) }
        ensures closed { OnErr result (self.new.left ≡ []) }
        ensures kept { OnErr result (self.new.taken ≡ self.old.taken) }
        ensures counts { CountsCall self.old.planned self.new.planned (is_err result) }
        ensures cause { HasCause self.old.planned.faults self.new.planned.faults result }
    {
        if self.planned.next_fails() {
            self.begun = None;
            self.planned.count_fault();
            return Err(Failed);
        }
        let left = rest_of(&self.files, self.begun, self.taken);
        let count = buf.len().min(self.step).min(left.len());
        buf[..count].copy_from_slice(&left[..count]);
        self.taken += count;
        Ok(count)
    }

    ghost knows_all_or_none = { λ source. refl };
}

/// A text in memory, with room for so many bytes. What it took is known, and it fails where it has no
/// room left and at chosen calls alone.
#[derive(Debug, Drop)]
pub struct MemorySink {
    contents: Vec<u8>,
    capacity: usize,
    step: usize,
    planned: PlannedFaults,
}

impl Model for MemorySink {
    ghost use Rattle.std.specs.Prelude.{◌<◌, ◌≤◌, length, vec_capacity};
    ghost use Rattle.desk_outside.specs.Memory.{SinkInMemory};

    ghost Value = { SinkInMemory };

    ghost view = { λ s. record {
      contents = s.contents.items;
      capacity = s.capacity;
      step = s.step;
      planned = s.planned;
    } };

    ghost invariant = { λ s. (0 < s.step)
        × (length s.contents.items ≤ s.capacity)
        × (s.capacity ≤ vec_capacity s.contents) };
}

impl MemorySink {
    /// A sink with room for so many bytes, which it takes at once. The calls with these numbers,
    /// from 1, fail.
    pub fn new(alloc: Global, capacity: usize, fails: Vec<u64>) -> Result<MemorySink, OutOfMemory>
        ensures begins { IfOk result (λ sink. sink ≡ new_sink capacity fails.items last_count) }
    {
        MemorySink::with_step(alloc, capacity, fails, usize::MAX)
    }

    /// The same, of which each write takes at most `step` bytes.
    pub fn with_step(
        alloc: Global,
        capacity: usize,
        fails: Vec<u64>,
        step: usize,
    ) -> Result<MemorySink, OutOfMemory>
        requires { 0 < step }
        ensures begins { IfOk result (λ sink. sink ≡ new_sink capacity fails.items step) }
    {
        let contents = Vec::with_capacity(alloc, capacity)?;
        Ok(MemorySink {
            contents,
            capacity,
            step,
            planned: PlannedFaults::new(fails),
        })
    }

    /// The bytes taken.
    pub fn bytes(&self) -> &[u8]
        ensures contents { result.now ≡ self.now.contents }
    {
        self.contents.as_slice()
    }
}

impl Sink for MemorySink {
    ghost contents = { λ sink. Some sink.contents };

    ghost faults = { λ sink. sink.planned.faults };

    fn write(&mut self, piece: &[u8]) -> Result<usize, Failed>
        requires { 0 < length piece.now }
        ensures capacity { self.new.capacity ≡ self.old.capacity }
        ensures step { self.new.step ≡ self.old.step }

        // It fails exactly where its number is planned or no room is left, and takes what it may.
        ensures failed { IsErr result ↔ (FailsNext self.old.planned ⊎ (room self.old ≡ 0)) }
        ensures never_fails { NeverFails self.old.planned → 0 < room self.old → IsOk result }
        ensures count { IfOk result (λ n. n ≡ min (length piece.now) (min self.old.step (room self.old))) }
        ensures positive { IfOk result (λ n. 0 < n) }
        ensures bytes { IfOk result (λ n. self.new.contents ≡ self.old.contents ++ take n piece.now) }
        ensures err { OnErr result (self.new.contents ≡ self.old.contents) }
        ensures counts { CountsCall self.old.planned self.new.planned (is_err result) }
        ensures cause { HasCause self.old.planned.faults self.new.planned.faults result }
    {
        let room = self.capacity - self.contents.len();
        if self.planned.next_fails() || room == 0 {
            self.planned.count_fault();
            return Err(Failed);
        }
        let count = piece.len().min(self.step).min(room);
        self.contents.extend_from_slice(&piece[..count]).unwrap();
        Ok(count)
    }
}
