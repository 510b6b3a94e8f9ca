//! A folder in a box, of whatever type: each call goes to the one in the box.

use crate::failure::OutsideFault;
use crate::folder::Folder;
use crate::held_file::HeldFile;

impl Folder for Box<dyn Folder> {
    ghost state = { λ b. (Folder-box b).state b.value };

    fn begin(&mut self, name: &[u8]) -> Result<(), OutsideFault> {
        (**self).begin(name)
    }

    fn write(&mut self, piece: &[u8]) -> Result<usize, OutsideFault> {
        (**self).write(piece)
    }

    fn end(&mut self) -> Result<(), OutsideFault> {
        (**self).end()
    }

    fn give_up(&mut self) {
        (**self).give_up()
    }

    fn is_free(&self, name: &[u8]) -> bool {
        (**self).is_free(name)
    }

    fn make_folder(&mut self, name: &[u8]) -> Result<(), OutsideFault> {
        (**self).make_folder(name)
    }

    fn visible(&self) -> Option<&[HeldFile]> {
        (**self).visible()
    }
}
