ghost use Rattle.std.specs.Prelude.{◌≡◌, ◌++◌, OnOk};
ghost use Rattle.html_pages.specs.Escapes.{html_byte, html_text};

use byte_texts::add;
use dep_model::OutOfMemory;

/// Adds a text as it stands within HTML.
#[tactic(auto, unfolding(crate::specs::Escapes::html_text))]
pub fn add_html(text: &mut Vec<u8>, bytes: &[u8]) -> Result<(), OutOfMemory>
    ensures added { OnOk result (text.new.items ≡ text.old.items ++ html_text bytes.now) }
{
    for b in bytes {
        add_html_byte(text, *b)?;
    }
    Ok(())
}

// Adds a byte as it stands within HTML.
fn add_html_byte(text: &mut Vec<u8>, byte: u8) -> Result<(), OutOfMemory>
    ensures added { OnOk result (text.new.items ≡ text.old.items ++ html_byte byte) }
{
    if byte == b'&' {
        add(text, b"&amp;")
    } else if byte == b'<' {
        add(text, b"&lt;")
    } else if byte == b'>' {
        add(text, b"&gt;")
    } else if byte == b'"' {
        add(text, b"&quot;")
    } else {
        text.push(byte)?;
        Ok(())
    }
}
