ghost use Rattle.std.specs.Prelude.{◌≡◌, ◌++◌, decimal, OnOk};
ghost use Rattle.design_picture.specs.Picture.{point_text};

use byte_texts::{add, add_number};
use dep_model::OutOfMemory;
use std::alloc::Global;

// Adds two numbers, each with what stands before it.
#[tactic(auto, unfolding(crate::specs::Picture::point_text))]
pub fn add_point(
    text: &mut Vec<u8>,
    alloc: Global,
    before: &[u8],
    x: u32,
    between: &[u8],
    y: u32,
) -> Result<(), OutOfMemory>
    ensures added { OnOk result (text.new.items ≡ text.old.items ++ point_text before.now x between.now y) }
{
    add(text, before)?;
    add_number(text, alloc, x)?;
    add(text, between)?;
    add_number(text, alloc, y)
}
