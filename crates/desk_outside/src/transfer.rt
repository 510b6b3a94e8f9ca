ghost use Rattle.std.specs.Prelude.{◌≡◌, ◌+◌, ◌^◌, ◌<◌, ◌≤◌, ◌↔◌, ◌⊎◌, length, is_ok, option_map, IsTrue, IfOk, OnOk, OnErr, IsErrOf, Err};
ghost use Rattle.std.specs.Io.KnownBytes.{append_known, IsAtEnd};
ghost use Rattle.desk_outside.specs.Begun.{Begins, MayBegin};
ghost use Rattle.desk_outside.specs.Causes.{ErrorCountIncreased, TookPart, HasOutsideCause};
ghost use Rattle.desk_outside.specs.Files.{none_left, IsMissing, IsHeld, IsLonger};
ghost use Rattle.desk_outside.specs.Folders.{with_bytes, with_none_open};

use crate::failure::{CannotWrite, LoadRefusal, OutsideFault};
use crate::file_source::FileSource;
use crate::folder::Folder;
use crate::sink::Sink;
use std::alloc::Global;

// The most bytes that one read asks for.
const CHUNK: usize = 65_536;

/// Begins the file of this name and reads it to its end, which is at most `limit` bytes away.
pub fn load<F: FileSource>(
    alloc: Global,
    source: &mut F,
    name: &[u8],
    limit: usize,
) -> Result<Vec<u8>, LoadRefusal>
    requires { limit < 2 ^ 32 }
    ensures files { F.files source.new ≡ F.files source.old }
    ensures later { F.faults source.old ≤ F.faults source.new }

    // No call of the file source failed on the way.
    ensures no_new_error { OnOk result (F.faults source.new ≡ F.faults source.old) }

    // The whole file, where the file source makes its files known.
    ensures ok { IfOk result (λ bytes. IsHeld (F.files source.old) name.now bytes.items) }
    ensures within { IfOk result (λ bytes. length bytes.items ≤ limit) }
    ensures taken { IfOk result (λ bytes. F.taken source.new ≡ length bytes.items) }
    ensures ended { OnOk result (IsAtEnd (F.left source.new)) }

    // The file begun is that of this name.
    ensures begins { OnOk result (Begins name.now (F.begun source.old) (F.begun source.new)) }
    ensures unread_begins { IsErrOf result LoadRefusal.CannotRead →
        Begins name.now (F.begun source.old) (F.begun source.new) }
    ensures long_begins { IsErrOf result LoadRefusal.TooLong →
        Begins name.now (F.begun source.old) (F.begun source.new) }
    ensures may_begin { IsErrOf result LoadRefusal.OutOfMemory →
        MayBegin name.now (F.begun source.old) (F.begun source.new) }

    // A file is too long exactly where one byte more than the limit was taken.
    ensures too_long { IsErrOf result LoadRefusal.TooLong ↔ (F.taken source.new ≡ limit + 1) }
    ensures longer { IsErrOf result LoadRefusal.TooLong →
        IsLonger (F.files source.old) name.now limit }
    ensures at_most { F.taken source.new ≤ limit + 1 }

    // Only a fault that was counted, or a missing file.
    ensures cannot_read { IsErrOf result LoadRefusal.CannotRead →
        ErrorCountIncreased (F.faults source.old) (F.faults source.new) ⊎ IsMissing (F.files source.old) name.now }
    ensures closed { IsErrOf result LoadRefusal.CannotRead →
        F.left source.new ≡ none_left (F.files source.old) }

    // A missing file is `CannotRead` alone, and raises no count.
    ensures missing { IsMissing (F.files source.old) name.now →
        (result ≡ Err LoadRefusal.CannotRead) × (F.faults source.new ≡ F.faults source.old) }
{
    source.begin(name)?;
    let mut bytes = Vec::new(alloc);
    let mut chunk = [0u8; CHUNK];
    loop {
        let room = (limit + 1 - bytes.len()).min(CHUNK);
        let count = source.read(&mut chunk[..room])?;
        if count == 0 {
            return Ok(bytes);
        }
        if bytes.len() + count > limit {
            return Err(LoadRefusal::TooLong);
        }
        bytes.extend_from_slice(&chunk[..count])?;
    }
}

/// Writes all bytes, in order.
pub fn send<K: Sink>(sink: &mut K, bytes: &[u8]) -> Result<(), CannotWrite>
    ensures later { K.faults sink.old ≤ K.faults sink.new }
    ensures no_new_error { OnOk result (K.faults sink.new ≡ K.faults sink.old) }
    ensures ok { OnOk result (K.contents sink.new ≡ append_known (K.contents sink.old) bytes.now) }
    ensures err { OnErr result (TookPart (K.contents sink.old) bytes.now (K.contents sink.new)) }
    ensures cannot_write { OnErr result (ErrorCountIncreased (K.faults sink.old) (K.faults sink.new)) }
{
    let mut sent = 0;
    while sent < bytes.len() {
        sent += sink.write(&bytes[sent..])?;
    }
    Ok(())
}

/// Writes all bytes, in order, to the open file of a folder.
pub fn write_all<G: Folder>(folder: &mut G, bytes: &[u8]) -> Result<(), OutsideFault>
    requires is_open { IsTrue (G.state folder.old).is_open }
    ensures ok { OnOk result ((G.state folder.new).contents
        ≡ option_map (with_bytes bytes.now) (G.state folder.old).contents) }
    ensures closed { OnErr result ((G.state folder.new).contents
        ≡ option_map with_none_open (G.state folder.old).contents) }
    ensures is_open { (G.state folder.new).is_open ≡ is_ok result }
    ensures same { (G.state folder.new).begun ≡ (G.state folder.old).begun }
    ensures cause { HasOutsideCause (G.state folder.old).faults (G.state folder.new).faults result }
{
    let mut written = 0;
    while written < bytes.len() {
        written += folder.write(&bytes[written..])?;
    }
    Ok(())
}
