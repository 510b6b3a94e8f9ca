ghost use Rattle.std.specs.Prelude.{◌≡◌, ℕ, List, IfOk};

use crate::OutOfMemory;
use std::alloc::Global;
use std::marker::Model;

/// A value of a tuple: any bytes. Two values are equal where all their bytes are.
#[derive(Debug, Drop)]
pub struct Value {
    bytes: Vec<u8>,
}

impl Model for Value {
    ghost Value = { List ℕ };

    ghost view = { λ v. v.bytes.items };
}

impl Value {
    /// A value of these bytes.
    pub fn new(alloc: Global, bytes: &[u8]) -> Result<Value, OutOfMemory>
        ensures value { IfOk result (λ value. value ≡ bytes.now) }
    {
        Ok(Value {
            bytes: Vec::from_slice(alloc, bytes)?,
        })
    }

    pub fn bytes(&self) -> &[u8]
        ensures value { result.now ≡ self.now }
    {
        &self.bytes
    }

    /// An equal value in memory of its own.
    pub fn copy(&self, alloc: Global) -> Result<Value, OutOfMemory>
        ensures value { IfOk result (λ value. value ≡ self.now) }
    {
        Value::new(alloc, self.bytes())
    }
}
