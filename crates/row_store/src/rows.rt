ghost use Rattle.std.specs.Prelude.{◌≡◌, ◌<◌, [], ◌∷◌, ◌++◌, length, IfOk, OnOk, OnErr};
ghost use Rattle.dep_model.specs.Tuples.{value_at};
ghost use Rattle.row_store.specs.Rows.{row_at};

use crate::FlatValues;
use crate::flat_values::{MOST_STORED, start_of};
use dep_model::{OutOfMemory, Row};
use std::alloc::Global;
use std::marker::Model;

/// Rows of values.
#[derive(Debug, Drop)]
pub struct Rows {
    values: FlatValues,
    ends: Vec<u32>,
}

impl Model for Rows {
    ghost use Rattle.std.specs.Prelude.{◌<◌, ◌^◌, length};
    ghost use Rattle.dep_model.specs.Tuples.{Relation};
    ghost use Rattle.row_store.specs.Pieces.{pieces, AreEnds};

    ghost Value = { Relation };

    ghost view = { λ r. pieces 0 r.values r.ends.items };

    ghost invariant = { λ r. AreEnds 0 (length r.values) r.ends.items × (length r.values < 2 ^ 32) };
}

impl Rows {
    /// No rows.
    pub fn new(alloc: Global) -> Rows
        ensures empty { result ≡ [] }
    {
        Rows {
            values: FlatValues::new(alloc),
            ends: Vec::new(alloc),
        }
    }

    /// No rows, and room for so many bytes of values.
    pub fn with_room(alloc: Global, bytes: usize) -> Result<Rows, OutOfMemory>
        ensures empty { IfOk result (λ rows. rows ≡ []) }
    {
        Ok(Rows {
            values: FlatValues::with_room(alloc, bytes)?,
            ends: Vec::new(alloc),
        })
    }

    /// Equal rows in memory of their own.
    pub fn of(alloc: Global, rows: &[Row]) -> Result<Rows, OutOfMemory>
        ensures rows { IfOk result (λ made. made ≡ rows.now) }
    {
        let mut made = Rows::new(alloc);
        let mut values = FlatValues::new(alloc);
        for row in rows {
            take_values(&mut values, row)?;
            made.push(&values)?;
        }
        Ok(made)
    }

    /// How many rows there are.
    pub fn len(&self) -> usize
        ensures count { result ≡ length self.now }
    {
        self.ends.len()
    }

    /// How many values a row has.
    pub fn width(&self, row: usize) -> usize
        requires row { row < length self.now }
        ensures width { result ≡ length (row_at self.now row) }
    {
        self.ends[row] as usize - start_of(&self.ends, row)
    }

    /// The value of a row at a position.
    pub fn value(&self, row: usize, position: usize) -> &[u8]
        requires row { row < length self.now }
        requires position { position < length (row_at self.now row) }
        ensures value { result.now ≡ value_at (row_at self.now row) position }
    {
        let start = start_of(&self.ends, row);
        self.values.value(start + position)
    }

    /// Adds a row at the end.
    pub fn push(&mut self, row: &FlatValues) -> Result<(), OutOfMemory>
        ensures rows { OnOk result (self.new ≡ self.old ++ row.now ∷ []) }
        ensures memory { OnErr result (self.new ≡ self.old) }
    {
        let end = self.values.len() + row.len();
        if end > MOST_STORED {
            return Err(OutOfMemory);
        }
        self.ends.reserve(1)?;
        self.values.append(row)?;
        self.ends.push(end as u32).unwrap();
        Ok(())
    }
}

/// The values become those of a row.
pub fn take_row(values: &mut FlatValues, rows: &Rows, row: usize) -> Result<(), OutOfMemory>
    requires row { row < length rows.now }
    ensures values { OnOk result (values.new ≡ row_at rows.now row) }
{
    values.clear();
    for i in 0..rows.width(row) {
        values.push(rows.value(row, i))?;
    }
    Ok(())
}

// The values become those that a row has.
fn take_values(values: &mut FlatValues, row: &Row) -> Result<(), OutOfMemory>
    ensures values { OnOk result (values.new ≡ row.now) }
{
    values.clear();
    for i in 0..row.len() {
        values.push(row.value(i).bytes())?;
    }
    Ok(())
}
