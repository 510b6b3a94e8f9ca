ghost use Rattle.std.specs.Prelude.{◌≡◌, ℕ, ◌<◌, List, ◌==◌, length, IfOk};
ghost use Rattle.dep_model.specs.Tuples.{value_at};

use crate::{OutOfMemory, Value};
use std::alloc::Global;
use std::marker::Model;

/// A tuple: one value for each attribute, in the order of declaration.
#[derive(Debug, Drop)]
pub struct Row {
    values: Vec<Value>,
}

impl Model for Row {
    ghost Value = { List (List ℕ) };

    ghost view = { λ r. r.values.items };
}

impl Row {
    /// A row of these values.
    pub fn new(values: Vec<Value>) -> Row
        ensures values { result ≡ values.items }
    {
        Row { values }
    }

    /// How many values the row has.
    pub fn len(&self) -> usize
        ensures count { result ≡ length self.now }
    {
        self.values.len()
    }

    /// Whether the row has no value.
    pub fn is_empty(&self) -> bool
        ensures empty { result ≡ (length self.now == 0) }
    {
        self.values.is_empty()
    }

    /// The value at attribute `i`.
    pub fn value(&self, i: usize) -> &Value
        requires { i < length self.now }
        ensures value { result.now ≡ value_at self.now i }
    {
        &self.values[i]
    }

    /// An equal row in memory of its own.
    pub fn copy(&self, alloc: Global) -> Result<Row, OutOfMemory>
        ensures values { IfOk result (λ row. row ≡ self.now) }
    {
        let mut values = Vec::with_capacity(alloc, self.values.len())?;
        for value in &self.values {
            values.push(value.copy(alloc)?)?;
        }
        Ok(Row { values })
    }
}
