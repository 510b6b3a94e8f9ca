ghost use Rattle.std.specs.Prelude.{◌≡◌, ◌++◌, All, IfOk, OnOk};
ghost use Rattle.attr_sets.specs.Attributes.{IsSubset};
ghost use Rattle.attr_sets.specs.Sets.{attributes};
ghost use Rattle.schema_model.specs.Schemas.{universe_of};
ghost use Rattle.schema_printer.specs.Spelling.{printed_names_of};
ghost use Rattle.desk_implication.specs.Bases.{GivesBasis, TellsBasis, basis_text, blocks_text};
ghost use Rattle.desk_responses.specs.Responses.{response_value, RespondsAs};

use arguments::Argument;
use attr_sets::AttrSet;
use dep_basis::basis;
use dep_model::OutOfMemory;
use desk_arguments::set_of;
use desk_responses::{EarlyExit, Response, Status, put_set_line};
use schema_model::Schema;
use std::alloc::Global;

/// What a set determines, and the blocks of the other attributes.
pub fn give_basis(alloc: Global, schema: &Schema, set: &Argument) -> Result<Response, EarlyExit>
    ensures response { RespondsAs (GivesBasis schema.now set.now) result }
{
    let lhs = match set_of(alloc, schema, set) {
        Ok(lhs) => lhs,
        Err(exit) => return Err(exit),
    };
    Ok(tell_basis(alloc, schema, lhs)?)
}

// The dependency basis of a left side.
fn tell_basis(alloc: Global, schema: &Schema, lhs: AttrSet) -> Result<Response, OutOfMemory>
    requires within { IsSubset (attributes lhs) (universe_of schema.now) }
    ensures response { IfOk result (λ response. TellsBasis schema.now (attributes lhs)
        (response_value response)) }
{
    let found = basis(&schema.theory(), lhs);
    let blocks = &found.blocks[..found.count as usize];
    Ok(Response::with_text(
        Status::Yes,
        basis_lines(alloc, schema, found.closed, blocks)?,
    ))
}

// A closed set and blocks, each on a line.
fn basis_lines(
    alloc: Global,
    schema: &Schema,
    closed: AttrSet,
    blocks: &[AttrSet],
) -> Result<Vec<u8>, OutOfMemory>
    requires closed { IsSubset (attributes closed) (universe_of schema.now) }
    requires blocks { All (λ block. IsSubset (attributes block) (universe_of schema.now)) blocks.now }
    ensures text { IfOk result
        (λ text. text.items ≡ basis_text (printed_names_of schema.now) (attributes closed) blocks.now) }
{
    let mut text = Vec::new(alloc);
    put_set_line(&mut text, schema, b"closure ", closed)?;
    put_blocks(&mut text, schema, blocks)?;
    Ok(text)
}

// A line for each block, at the end of a text.
fn put_blocks(text: &mut Vec<u8>, schema: &Schema, blocks: &[AttrSet]) -> Result<(), OutOfMemory>
    requires within { All (λ block. IsSubset (attributes block) (universe_of schema.now)) blocks.now }
    ensures added { OnOk result (text.new.items
        ≡ text.old.items ++ blocks_text (printed_names_of schema.now) blocks.now) }
{
    for block in blocks {
        put_set_line(text, schema, b"block ", *block)?;
    }
    Ok(())
}
