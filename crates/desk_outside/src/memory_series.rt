ghost use Rattle.std.specs.Prelude.{◌≡◌, ◌↔◌, [], ◌++◌, None, IsSome, IsErrOf, IsOkUnless, IfOk, OnOk, OnErr, option_to_list};
ghost use Rattle.desk_outside.specs.Causes.{HasOutsideCause, is_failed};
ghost use Rattle.desk_outside.specs.Planned.{new_plan, FailsNext, CountsCall};

use crate::failure::OutsideFault;
use crate::fault_plan::PlannedFaults;
use std::alloc::Global;

/// Things in memory that are made one at a time: the finished ones, in the order of their ending, and
/// the open one; and the faults that are planned for the calls that make them.
#[derive(Drop)]
pub struct MemorySeries<T: Drop> {
    pub finished: Vec<T>,
    pub opened: Option<T>,
    pub planned: PlannedFaults,
}

impl<T: Drop> MemorySeries<T> {
    /// Nothing is finished or open. The calls with these numbers, from 1, fail.
    pub fn new(alloc: Global, fails: Vec<u64>) -> MemorySeries<T>
        ensures finished { result.finished.items ≡ [] }
        ensures closed { result.opened ≡ None }
        ensures planned { result.planned ≡ new_plan fails.items }
    {
        MemorySeries {
            finished: Vec::new(alloc),
            opened: None,
            planned: PlannedFaults::new(fails),
        }
    }

    /// Counts a call and takes out what is open. It fails exactly where its number is planned, and
    /// then nothing is open.
    pub fn take_open(&mut self) -> Result<Option<T>, OutsideFault>
        ensures finished { self.new.finished.items ≡ self.old.finished.items }
        ensures closed { self.new.opened ≡ None }
        ensures taken { IfOk result (λ opened. opened ≡ self.old.opened) }
        ensures only { IsOkUnless result OutsideFault.Failed }
        ensures failed { IsErrOf result OutsideFault.Failed ↔ FailsNext self.old.planned }
        ensures counts { CountsCall self.old.planned self.new.planned (is_failed result) }
        ensures cause { HasOutsideCause self.old.planned.faults self.new.planned.faults result }
    {
        let opened = self.opened.take();
        if self.planned.next_fails() {
            self.planned.count_fault();
            return Err(OutsideFault::Failed);
        }
        Ok(opened)
    }

    /// Counts a call. The open thing becomes the last finished one, or is given up at an error.
    pub fn end(&mut self) -> Result<(), OutsideFault>
        requires is_open { IsSome self.old.opened }
        ensures ended { OnOk result (self.new.finished.items
            ≡ self.old.finished.items ++ option_to_list self.old.opened) }
        ensures finished { OnErr result (self.new.finished.items ≡ self.old.finished.items) }
        ensures closed { self.new.opened ≡ None }
        ensures failed { IsErrOf result OutsideFault.Failed ↔ FailsNext self.old.planned }
        ensures counts { CountsCall self.old.planned self.new.planned (is_failed result) }
        ensures cause { HasOutsideCause self.old.planned.faults self.new.planned.faults result }
    {
        let Some(thing) = self.take_open()? else {
            unreachable!();
        };
        match self.finished.push(thing) {
            Ok(()) => Ok(()),
            Err(_) => Err(OutsideFault::OutOfMemory),
        }
    }
}
