ghost use Rattle.std.specs.Prelude.{◌≡◌, ℕ, ◌<◌, List, length, take, Option, IsSome, is_some, IfSome, OnOk, OnErr, IfOk, Err};
ghost use Rattle.std.specs.Io.{ReadsAtMost};
ghost use Rattle.std.specs.Io.KnownBytes.{prepend_known, IsAtEnd};
ghost use Rattle.desk_outside.specs.Begun.{Begins, KeepsBegun};
ghost use Rattle.desk_outside.specs.Causes.{HasCause, HasBeginCause, count_on};
ghost use Rattle.desk_outside.specs.Files.{Files, bytes_of_file, all_left, none_left};

use crate::failure::{Failed, OutsideFault};

/// Files to read, one at a time.
///
/// No call changes the files. A file source that does not make its files known may hold anything.
pub trait FileSource {
    /// The files, where known.
    ghost files: { Self → Option Files };

    /// The bytes that are left of the begun file, where known. Where none is begun, none are left.
    ghost left: { Self → Option (List ℕ) };

    /// The number of bytes taken since the last `begin`, which every file source makes known.
    ghost taken: { Self → ℕ };

    /// Whether files of these names were begun, in this order. Where it notes no names, all may be.
    ghost begun: { Self → List (List ℕ) → Type 0 };

    /// An error count, which never falls.
    ghost faults: { Self → ℕ };

    /// Begins the file of this name, of which all bytes are then left. After an error none is begun.
    ///
    /// Where the files are known and none has this name, the answer is `Failed`, and the error
    /// count stays: nobody raises it by asking for an invented name.
    fn begin(&mut self, name: &[u8]) -> Result<(), OutsideFault>
        ensures files { files self.new ≡ files self.old }
        ensures held { OnOk result (IfSome (files self.old) (λ fs. IsSome
            (bytes_of_file fs name.now))) }
        ensures begun { OnOk result (left self.new ≡ all_left (files self.old) name.now) }
        ensures closed { OnErr result (left self.new ≡ none_left (files self.old)) }
        ensures taken { taken self.new ≡ 0 }
        ensures begins { OnOk result (Begins name.now (begun self.old) (begun self.new)) }
        ensures failed_begins { result ≡ Err OutsideFault.Failed →
            Begins name.now (begun self.old) (begun self.new) }
        ensures not_begun { result ≡ Err OutsideFault.OutOfMemory →
            KeepsBegun (begun self.old) (begun self.new) }
        ensures cause { HasBeginCause (files self.old) name.now
            (faults self.old) (faults self.new) result };

    /// Takes the next bytes that are left into the front of the buffer, and answers how many.
    ///
    /// 0 for a buffer that is not empty is the end of the file. After an error no file is begun.
    fn read(&mut self, buf: &mut [u8]) -> Result<usize, Failed>
        ensures files { files self.new ≡ files self.old }
        ensures bound { ReadsAtMost result buf.new }
        ensures bytes { IfOk result (λ n.
            left self.old ≡ prepend_known (take n buf.new) (left self.new)) }
        ensures end { IfOk result (λ n. n ≡ 0 → 0 < length buf.new → IsAtEnd (left self.new)) }
        ensures closed { OnErr result (left self.new ≡ none_left (files self.old)) }
        ensures taken { IfOk result (λ n. taken self.new ≡ count_on (taken self.old) n) }
        ensures same { KeepsBegun (begun self.old) (begun self.new) }
        ensures kept { OnErr result (taken self.new ≡ taken self.old) }
        ensures cause { HasCause (faults self.old) (faults self.new) result };

    /// A file source makes its files known and what is left of the begun one, or neither.
    ghost knows_all_or_none: { (source : Self) → is_some (files source) ≡ is_some (left source) };
}
