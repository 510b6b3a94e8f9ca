ghost use Rattle.std.specs.Prelude.{◌≡◌, ◌≤◌, [], length, option_map, is_ok, IsTrue, IfOk, OnOk, OnErr, vec_capacity};
ghost use Rattle.desk_outside.specs.Causes.{HasOutsideCause};
ghost use Rattle.desk_outside.specs.Folders.{with_bytes, with_none_open};
ghost use Rattle.destinations.specs.declared.buffered_folder.TheConstants.{CHUNK};

use dep_model::OutOfMemory;
use desk_outside::{Folder, HeldFile, OutsideFault, write_all};
use std::alloc::Global;

// How many bytes are gathered before they are written.
const CHUNK: usize = 65_536;

/// A folder that gathers what is written to the open file, and writes it out in pieces of 64 KiB and
/// when the file ends. It holds what its folder will hold then.
#[derive(Drop)]
pub struct BufferedFolder<G: Folder> {
    pub folder: G,
    pub buffer: Vec<u8>,
    pub ghost within_chunk: { length buffer.items ≤ CHUNK },
    pub ghost room: { CHUNK ≤ vec_capacity buffer },
}

impl<G: Folder> BufferedFolder<G> {
    /// The folder with an empty buffer, which takes its memory at once.
    pub fn new(alloc: Global, folder: G) -> Result<BufferedFolder<G>, OutOfMemory>
        ensures folder { IfOk result (λ made. made.folder ≡ folder) }
        ensures empty { IfOk result (λ made. made.buffer.items ≡ []) }
    {
        let buffer = Vec::with_capacity(alloc, CHUNK)?;
        Ok(BufferedFolder { folder, buffer })
    }

    // Writes out what is gathered.
    fn write_out(&mut self) -> Result<(), OutsideFault>
        requires is_open { IsTrue (G.state self.old.folder).is_open }
        ensures empty { OnOk result (self.new.buffer.items ≡ []) }
        ensures ok { OnOk result ((G.state self.new.folder).contents
            ≡ option_map (with_bytes self.old.buffer.items) (G.state self.old.folder).contents) }
        ensures closed { OnErr result ((G.state self.new.folder).contents
            ≡ option_map with_none_open (G.state self.old.folder).contents) }
        ensures is_open { (G.state self.new.folder).is_open ≡ is_ok result }
        ensures same { (G.state self.new.folder).begun ≡ (G.state self.old.folder).begun }
        ensures cause { HasOutsideCause (G.state self.old.folder).faults (G.state self.new.folder).faults result }
    {
        write_all(&mut self.folder, &self.buffer)?;
        self.buffer.clear();
        Ok(())
    }
}

#[tactic(auto, using(crate::proofs::BufferLemmas::begun_gathered, crate::proofs::BufferLemmas::closed_gathered, crate::proofs::BufferLemmas::finished_gathered, crate::proofs::BufferLemmas::free_gathered))]
impl<G: Folder> Folder for BufferedFolder<G> {
    ghost use Rattle.destinations.specs.Gathering.{gathered};

    ghost state = { λ f. gathered f.buffer.items (G.state f.folder) };

    fn begin(&mut self, name: &[u8]) -> Result<(), OutsideFault> {
        self.buffer.clear();
        self.folder.begin(name)
    }

    fn write(&mut self, piece: &[u8]) -> Result<usize, OutsideFault> {
        if self.buffer.len() == CHUNK {
            self.write_out()?;
        }
        let count = piece.len().min(CHUNK - self.buffer.len());
        self.buffer.extend_from_slice(&piece[..count]).unwrap();
        Ok(count)
    }

    fn end(&mut self) -> Result<(), OutsideFault> {
        self.write_out()?;
        self.folder.end()
    }

    fn give_up(&mut self) {
        self.folder.give_up()
    }

    fn is_free(&self, name: &[u8]) -> bool {
        self.folder.is_free(name)
    }

    fn make_folder(&mut self, name: &[u8]) -> Result<(), OutsideFault> {
        self.folder.make_folder(name)
    }

    fn visible(&self) -> Option<&[HeldFile]> {
        self.folder.visible()
    }
}
