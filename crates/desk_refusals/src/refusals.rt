ghost use Rattle.std.specs.Prelude.{◌≡◌, IfOk};
ghost use Rattle.desk_refusals.specs.Refusals.{refusal_text};

use byte_texts::{add, add_number};
use dep_model::OutOfMemory;
use desk_texts::add_displayed;
use schema_grammar::SchemaRefusal;
use std::alloc::Global;

/// The line that words a refusal of a text: the kind of text, its name, the place and the reason.
pub fn refusal_line(
    alloc: Global,
    group: &[u8],
    name: &[u8],
    refusal: SchemaRefusal,
) -> Result<Vec<u8>, OutOfMemory>
    ensures text { IfOk result (λ text. text.items ≡ refusal_text group.now name.now refusal) }
{
    let mut text = Vec::new(alloc);
    add(&mut text, b"refused: ")?;
    add(&mut text, group)?;
    add(&mut text, b" ")?;
    add_number(&mut text, alloc, refusal.kind.number())?;
    add(&mut text, b" at ")?;
    add(&mut text, name)?;
    add(&mut text, b":")?;
    add_displayed(&mut text, alloc, &refusal)?;
    add(&mut text, b"\n")?;
    Ok(text)
}
