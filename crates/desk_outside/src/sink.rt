ghost use Rattle.std.specs.Prelude.{◌≡◌, ℕ, ◌<◌, ◌≤◌, List, length, take, Option, OnErr, IfOk};
ghost use Rattle.std.specs.Io.KnownBytes.{append_known};
ghost use Rattle.desk_outside.specs.Causes.{HasCause};

use crate::failure::Failed;

/// What takes the printed text.
pub trait Sink {
    /// The bytes taken, where known.
    ghost contents: { Self → Option (List ℕ) };

    /// An error count, which never falls.
    ghost faults: { Self → ℕ };

    /// Takes bytes from the front of the piece, at least one, and answers how many. After an error
    /// it took none.
    fn write(&mut self, piece: &[u8]) -> Result<usize, Failed>
        requires { 0 < length piece.now }
        ensures positive { IfOk result (λ n. 0 < n) }
        ensures bound { IfOk result (λ n. n ≤ length piece.now) }
        ensures bytes { IfOk result (λ n.
            contents self.new ≡ append_known (contents self.old) (take n piece.now)) }
        ensures err { OnErr result (contents self.new ≡ contents self.old) }
        ensures cause { HasCause (faults self.old) (faults self.new) result };
}
