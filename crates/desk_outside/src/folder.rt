ghost use Rattle.std.specs.Prelude.{◌≡◌, ℕ, List, Bool, false, ◌<◌, ◌≤◌, length, take, Option, Some, is_ok, is_some, IsTrue, IfOk, IfSome, OnOk, OnErr};
ghost use Rattle.std.specs.Option.{option_map};
ghost use Rattle.desk_outside.specs.Causes.{HasOutsideCause};
ghost use Rattle.desk_outside.specs.Files.{files_of};
ghost use Rattle.desk_outside.specs.Folders.{FolderState, finished_in, folder_path, with_begun, with_bytes, with_ended, with_none_open, BeginsName};
ghost use Rattle.desk_outside.specs.FreeNames.{may_be_free};

use crate::failure::OutsideFault;
use crate::held_file::HeldFile;

/// Files to write, one at a time, and folders to make for them.
///
/// After an error the finished files are as before and no file is open, but for one of `make_folder`, which changes
/// no file.
pub trait Folder: Drop {
    /// What it holds, where known, whether a file is open, the names begun, and its error count.
    ghost state: { Self → FolderState };

    /// Gives up an open file and opens an empty one of this name, in place of a finished one.
    fn begin(&mut self, name: &[u8]) -> Result<(), OutsideFault>
        ensures begun { OnOk result ((state self.new).contents
            ≡ option_map (with_begun name.now) (state self.old).contents) }
        ensures closed { OnErr result ((state self.new).contents
            ≡ option_map with_none_open (state self.old).contents) }
        ensures is_open { (state self.new).is_open ≡ is_ok result }
        ensures begins { BeginsName name.now (state self.old).begun (state self.new).begun result }
        ensures cause { HasOutsideCause (state self.old).faults (state self.new).faults result };

    /// Takes bytes from the front of the piece, at least one, for the end of the open file, and
    /// answers how many.
    fn write(&mut self, piece: &[u8]) -> Result<usize, OutsideFault>
        requires is_open { IsTrue (state self.old).is_open }
        requires not_empty { 0 < length piece.now }
        ensures positive { IfOk result (λ n. 0 < n) }
        ensures bound { IfOk result (λ n. n ≤ length piece.now) }
        ensures bytes { IfOk result (λ n. (state self.new).contents
            ≡ option_map (with_bytes (take n piece.now)) (state self.old).contents) }
        ensures closed { OnErr result ((state self.new).contents
            ≡ option_map with_none_open (state self.old).contents) }
        ensures is_open { (state self.new).is_open ≡ is_ok result }
        ensures same { (state self.new).begun ≡ (state self.old).begun }
        ensures cause { HasOutsideCause (state self.old).faults (state self.new).faults result };

    /// The open file becomes the last finished one, where all that was written stands in it.
    fn end(&mut self) -> Result<(), OutsideFault>
        requires is_open { IsTrue (state self.old).is_open }
        ensures ended { OnOk result ((state self.new).contents ≡ option_map with_ended (state self.old).contents) }
        ensures closed { OnErr result ((state self.new).contents
            ≡ option_map with_none_open (state self.old).contents) }
        ensures is_open { (state self.new).is_open ≡ false }
        ensures same { (state self.new).begun ≡ (state self.old).begun }
        ensures cause { HasOutsideCause (state self.old).faults (state self.new).faults result };

    /// Gives up the file that is open, if there is one.
    fn give_up(&mut self)
        ensures closed { (state self.new).contents ≡ option_map with_none_open (state self.old).contents }
        ensures is_open { (state self.new).is_open ≡ false }
        ensures same { (state self.new).begun ≡ (state self.old).begun }
        ensures fine { (state self.new).faults ≡ (state self.old).faults };

    /// Whether nothing has this name, or only an empty folder. What cannot be looked at is not free.
    fn is_free(&self, name: &[u8]) -> bool
        ensures free { IsTrue (may_be_free (state self.now).contents name.now result) };

    /// Makes a folder of this name, unless an empty one is there. Files are begun in it by their path.
    fn make_folder(&mut self, name: &[u8]) -> Result<(), OutsideFault>
        ensures kept { (state self.new).contents ≡ (state self.old).contents }
        ensures is_open { (state self.new).is_open ≡ (state self.old).is_open }
        ensures begins { BeginsName (folder_path name.now) (state self.old).begun (state self.new).begun result }
        ensures cause { HasOutsideCause (state self.old).faults (state self.new).faults result };

    /// The finished files, of a folder that makes them known.
    fn visible(&self) -> Option<&[HeldFile]>
        ensures known { is_some result ≡ is_some (state self.now).contents }
        ensures files { IfSome result (λ files.
            finished_in (state self.now).contents ≡ Some (files_of files.now)) };
}
