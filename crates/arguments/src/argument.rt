ghost use Rattle.std.specs.Prelude.{◌≡◌, IfOk};

use dep_model::OutOfMemory;
use std::alloc::Global;
use std::marker::Model;

/// A word of a command, or a file's name: any bytes.
#[derive(Debug, Drop)]
pub struct Argument {
    content: Vec<u8>,
}

impl Model for Argument {
    ghost use Rattle.std.specs.Prelude.{ℕ, List};

    ghost Value = { List ℕ };

    ghost view = { λ word. word.content.items };
}

impl Argument {
    /// A word of these bytes.
    pub fn new(alloc: Global, bytes: &[u8]) -> Result<Argument, OutOfMemory>
        ensures bytes { IfOk result (λ word. word ≡ bytes.now) }
    {
        let content = Vec::from_slice(alloc, bytes)?;
        Ok(Argument { content })
    }

    /// Its bytes.
    pub fn bytes(&self) -> &[u8]
        ensures bytes { result.now ≡ self.now }
    {
        self.content.as_slice()
    }
}
