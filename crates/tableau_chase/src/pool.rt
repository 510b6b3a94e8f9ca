//! Rows of a tableau of which no two are equal, at most a given number of them.

ghost use Rattle.std.specs.Prelude.{◌≡◌, ◌≤◌, ◌<◌, ◌^◌, [], length, Err, OnOk, Contains};

use crate::numbers::RowNumbers;
use crate::outcome::ChaseRefusal;
use crate::symbol_row::SymbolRow;
use dep_model::Failure;
use std::alloc::Global;

/// Different rows, and their numbers.
#[derive(Drop)]
pub struct Pool {
    pub rows: Vec<SymbolRow>,
    pub numbers: RowNumbers,
}

impl Pool {
    ghost use Rattle.tableau_chase.specs.Pools.{IsPool, IsAdded};

    /// No rows.
    pub fn new(alloc: Global, limit: u32) -> Pool
        ensures pool { IsPool limit result }
        ensures rows { result.rows.items ≡ [] }
    {
        Pool {
            rows: Vec::new(alloc),
            numbers: RowNumbers::new(alloc),
        }
    }

    /// Adds a row, if it is not there.
    pub fn add(
        &mut self,
        alloc: Global,
        row: SymbolRow,
        limit: u32,
    ) -> Result<(), Failure<ChaseRefusal>>
        requires pool { IsPool limit self.old }
        ensures pool { OnOk result (IsPool limit self.new) }
        ensures rows { OnOk result (IsAdded self.old.rows.items row self.new.rows.items) }
        ensures absent { result ≡ Err (Failure.Refused ChaseRefusal.TooManyRows)
            → Contains self.old.rows.items row → ⊥ }
        ensures full { result ≡ Err (Failure.Refused ChaseRefusal.TooManyRows) → length self.old.rows.items ≡ limit }
    {
        let count = self.rows.len() as u32;
        let number = self.numbers.number(row.symbols(alloc)?, count)?;
        if number != count {
            return Ok(());
        }
        if count >= limit {
            return Err(Failure::Refused(ChaseRefusal::TooManyRows));
        }
        self.rows.push(row)?;
        Ok(())
    }
}
