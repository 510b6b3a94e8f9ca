ghost use Rattle.std.specs.Prelude.{◌≡◌, ◌↔◌, IsTrue, false};
ghost use Rattle.desk_outside.specs.Planned.{new_plan, FailsNext, CountsCall, CountsFault};

use std::marker::Model;

/// The faults that are planned for an object in memory, and how many calls and faults there were.
///
/// A count stands still at the end of its type.
#[derive(Debug, Drop)]
pub struct PlannedFaults {
    fails: Vec<u64>,
    calls: u64,
    faults: u64,
}

impl Model for PlannedFaults {
    ghost use Rattle.desk_outside.specs.Planned.{FaultPlan};

    ghost Value = { FaultPlan };

    ghost view = { λ p. record { fails = p.fails.items; calls = p.calls; faults = p.faults } };
}

impl PlannedFaults {
    /// A fault at each call whose number, from 1, is among these.
    pub fn new(fails: Vec<u64>) -> PlannedFaults
        ensures begins { result ≡ new_plan fails.items }
    {
        PlannedFaults {
            fails,
            calls: 0,
            faults: 0,
        }
    }

    /// Counts a call, and answers whether it is to fail. Its fault is not counted yet.
    pub fn next_fails(&mut self) -> bool
        ensures fails { IsTrue result ↔ FailsNext self.old }
        ensures counts { CountsCall self.old self.new false }
    {
        self.calls = self.calls.saturating_add(1);
        self.fails.contains(&self.calls)
    }

    /// Counts a fault.
    pub fn count_fault(&mut self)
        ensures counts { CountsFault self.old self.new }
    {
        self.faults = self.faults.saturating_add(1);
    }
}
