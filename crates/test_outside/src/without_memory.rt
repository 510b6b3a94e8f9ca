ghost use Rattle.std.specs.Prelude.{◌≡◌, false, [], None, Err};
ghost use Rattle.desk_outside.specs.declared.failure.OutsideFault.TheVariants.{OutOfMemory};

use desk_outside::{Folder, HeldFile, OutsideFault};

/// A folder that runs out of memory at each call. It does not make known what it holds.
#[derive(Drop)]
pub struct WithoutMemory {
    // a contract that no call can meet is refused: a file could be open
    is_open: bool,
}

impl WithoutMemory {
    /// One without an open file.
    pub fn new() -> WithoutMemory
        ensures closed { result.is_open ≡ false }
    {
        WithoutMemory { is_open: false }
    }
}

impl Folder for WithoutMemory {
    ghost state = { λ folder. record { contents = None; is_open = folder.is_open; begun = []; faults = 0 } };

    fn begin(&mut self, _name: &[u8]) -> Result<(), OutsideFault>
        ensures memory { result ≡ Err OutOfMemory }
        ensures closed { self.new.is_open ≡ false }
    {
        self.is_open = false;
        Err(OutsideFault::OutOfMemory)
    }

    fn write(&mut self, _piece: &[u8]) -> Result<usize, OutsideFault>
        ensures memory { result ≡ Err OutOfMemory }
        ensures closed { self.new.is_open ≡ false }
    {
        self.is_open = false;
        Err(OutsideFault::OutOfMemory)
    }

    fn end(&mut self) -> Result<(), OutsideFault>
        ensures memory { result ≡ Err OutOfMemory }
        ensures closed { self.new.is_open ≡ false }
    {
        self.is_open = false;
        Err(OutsideFault::OutOfMemory)
    }

    fn give_up(&mut self)
        ensures closed { self.new.is_open ≡ false }
    {
        self.is_open = false;
    }

    fn is_free(&self, _name: &[u8]) -> bool
        ensures taken { result ≡ false }
    {
        false
    }

    fn make_folder(&mut self, _name: &[u8]) -> Result<(), OutsideFault>
        ensures memory { result ≡ Err OutOfMemory }
        ensures same { self.new.is_open ≡ self.old.is_open }
    {
        Err(OutsideFault::OutOfMemory)
    }

    fn visible(&self) -> Option<&[HeldFile]>
        ensures none { result ≡ None }
    {
        None
    }
}
