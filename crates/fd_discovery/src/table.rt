ghost use Rattle.std.specs.Prelude.{◌≡◌, ◌<◌, ◌≤◌, ◌^◌, ℕ, length, IfOk};
ghost use Rattle.row_groups.specs.Interning.{codes_at, width_of_rows};
ghost use Rattle.dep_model.specs.Tuples.{IsOver};
ghost use Rattle.fd_discovery.specs.Leaders.{IsTableOfRows, order_at};

use crate::ordering::RowOrder;
use dep_model::OutOfMemory;
use row_groups::Interned;
use row_store::{Hashing, Rows};
use std::alloc::Global;

/// Rows by numbers in place of their values, and for each column the order of the rows by its numbers.
#[derive(Debug, Drop)]
pub struct CodeColumns {
    pub width: u8,
    pub codes: Interned,
    pub orders: Vec<RowOrder>,
}

impl CodeColumns {
    /// The table of rows that have `width` values each.
    pub fn new(
        alloc: Global,
        hashing: Hashing,
        width: u8,
        rows: &Rows,
    ) -> Result<CodeColumns, OutOfMemory>
        requires over { IsOver width rows.now }
        requires fits_u32 { length rows.now < 2 ^ 32 }
        ensures table { IfOk result (λ table. IsTableOfRows width rows.now table) }
    {
        let codes = Interned::intern(alloc, hashing, width, rows)?;
        let mut orders = Vec::with_capacity(alloc, width as usize)?;
        for attribute in 0..width {
            orders.push(RowOrder::by_numbers(alloc, codes.column(attribute))?)?;
        }
        Ok(CodeColumns {
            width,
            codes,
            orders,
        })
    }
}
