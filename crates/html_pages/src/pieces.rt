ghost use Rattle.std.specs.Prelude.{◌≡◌, ◌++◌, IfOk, OnOk};
ghost use Rattle.html_pages.specs.Pages.{folded_text, open_text, printed_text, title_with_words};

use crate::add_html;
use byte_texts::add;
use dep_model::OutOfMemory;
use std::alloc::Global;

/// A title beside the words by which a user has the same, without that of the program.
#[tactic(auto, unfolding(crate::specs::Pages::title_with_words))]
pub fn titled(alloc: Global, title: &[u8], words: &[u8]) -> Result<Vec<u8>, OutOfMemory>
    ensures text { IfOk result (λ text. text.items ≡ title_with_words title.now words.now) }
{
    let mut text = Vec::new(alloc);
    add(&mut text, title)?;
    add(&mut text, b" <code>desk ")?;
    add_html(&mut text, words)?;
    add(&mut text, b"</code>")?;
    Ok(text)
}

/// Adds a text that was printed, below a title, which is HTML.
#[tactic(auto, unfolding(crate::specs::Pages::open_text))]
pub fn add_open_piece(text: &mut Vec<u8>, title: &[u8], printed: &[u8]) -> Result<(), OutOfMemory>
    ensures added { OnOk result (text.new.items ≡ text.old.items ++ open_text title.now printed.now) }
{
    add(text, b"<h3>")?;
    add(text, title)?;
    add(text, b"</h3>\n")?;
    add_printed(text, printed)
}

/// The same, folded until one opens it.
#[tactic(auto, unfolding(crate::specs::Pages::folded_text))]
pub fn add_folded_piece(text: &mut Vec<u8>, title: &[u8], printed: &[u8]) -> Result<(), OutOfMemory>
    ensures added { OnOk result (text.new.items ≡ text.old.items ++ folded_text title.now printed.now) }
{
    add(text, b"<details><summary>")?;
    add(text, title)?;
    add(text, b"</summary>\n")?;
    add_printed(text, printed)?;
    add(text, b"</details>\n")
}

// Adds a text as it was printed.
#[tactic(auto, unfolding(crate::specs::Pages::printed_text))]
fn add_printed(text: &mut Vec<u8>, printed: &[u8]) -> Result<(), OutOfMemory>
    ensures added { OnOk result (text.new.items ≡ text.old.items ++ printed_text printed.now) }
{
    add(text, b"<pre>")?;
    add_html(text, printed)?;
    add(text, b"</pre>\n")
}
