//! Texts in labels between double quotes.

ghost use Rattle.std.specs.Prelude.{◌≡◌, ◌++◌, OnOk};
ghost use Rattle.table_drawing.specs.Drawing.{label_byte, label_text};

use byte_texts::add;
use dep_model::OutOfMemory;

// Adds a text to a label between double quotes.
#[tactic(auto, unfolding(crate::specs::Drawing::label_text))]
pub fn add_label(text: &mut Vec<u8>, bytes: &[u8]) -> Result<(), OutOfMemory>
    ensures added { OnOk result (text.new.items ≡ text.old.items ++ label_text bytes.now) }
{
    for b in bytes {
        add_label_byte(text, *b)?;
    }
    Ok(())
}

// Adds a byte to a label between double quotes.
fn add_label_byte(text: &mut Vec<u8>, byte: u8) -> Result<(), OutOfMemory>
    ensures added { OnOk result (text.new.items ≡ text.old.items ++ label_byte byte) }
{
    if byte == b'"' {
        add(text, b"\\\"")
    } else if byte == b'\\' {
        add(text, b"\\\\")
    } else {
        text.push(byte)?;
        Ok(())
    }
}
