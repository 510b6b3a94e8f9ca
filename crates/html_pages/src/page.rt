ghost use Rattle.std.specs.Prelude.{◌≡◌, ◌++◌, codes, IfOk, OnOk};
ghost use Rattle.html_pages.specs.Pages.{front_text, heading_text};

use crate::add_html;
use crate::style::page_style;
use byte_texts::add;
use dep_model::OutOfMemory;
use std::alloc::Global;

/// Adds the heading of a section, which is HTML. The pieces of the section stand below it.
#[tactic(auto, unfolding(crate::specs::Pages::heading_text))]
pub fn add_heading(text: &mut Vec<u8>, heading: &[u8]) -> Result<(), OutOfMemory>
    ensures added { OnOk result (text.new.items ≡ text.old.items ++ heading_text heading.now) }
{
    add(text, b"<h2>")?;
    add(text, heading)?;
    add(text, b"</h2>\n")
}

/// The front of a page that has the name of a file.
#[tactic(auto, unfolding(crate::specs::Pages::front_text))]
pub fn open_page(alloc: Global, file: &[u8]) -> Result<Vec<u8>, OutOfMemory>
    ensures text { IfOk result (λ text. text.items ≡ front_text file.now) }
{
    let mut text = Vec::new(alloc);
    add(
        &mut text,
        b"<!DOCTYPE html>\n<html lang=\"en\"><head><meta charset=\"utf-8\">",
    )?;
    add(
        &mut text,
        b"<meta name=\"viewport\" content=\"width=device-width, initial-scale=1\"><title>",
    )?;
    add_html(&mut text, file)?;
    add(&mut text, b"</title><style>")?;
    add(&mut text, page_style())?;
    add(&mut text, b"</style></head><body>\n<h1>")?;
    add_html(&mut text, file)?;
    add(&mut text, b"</h1>\n")?;
    Ok(text)
}

/// Ends a page.
pub fn close_page(text: &mut Vec<u8>) -> Result<(), OutOfMemory>
    ensures added { OnOk result (text.new.items ≡ text.old.items ++ codes "</body></html>\n") }
{
    add(text, b"</body></html>\n")
}
