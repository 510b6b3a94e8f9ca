//! Pieces of a page: what a command prints, below a title.

ghost use Rattle.std.specs.Prelude.{◌≡◌, ◌++◌, codes, IfOk, OnOk};
ghost use Rattle.html_pages.specs.Commands.{shell_word};
ghost use Rattle.html_pages.specs.Pages.{folded_text, open_text, title_with_words};
ghost use Rattle.desk_reports.specs.Answers.{Adds, FoldsText, IsTextOf, OpensText};
ghost use Rattle.desk_reports.specs.Tables.{two_files};

use arguments::Argument;
use byte_texts::add;
use dep_model::OutOfMemory;
use desk_responses::{EarlyExit, Response};
use html_pages::{add_folded_piece, add_open_piece, add_shell_word, titled};
use std::alloc::Global;

/// The text of an answer; running out of memory is none.
pub fn text_of(answer: Result<Response, EarlyExit>) -> Result<Vec<u8>, OutOfMemory>
    ensures text { IfOk result (λ text. IsTextOf answer text.items) }
{
    match answer {
        Ok(response) => Ok(response_text(response)),
        Err(EarlyExit::Answered(response)) => Ok(response_text(response)),
        Err(EarlyExit::OutOfMemory) => Err(OutOfMemory),
    }
}

// The text of a response.
fn response_text(response: Response) -> Vec<u8>
    ensures text { result.items ≡ response.text.items }
{
    let Response {
        status: _,
        text,
        tables: _,
        own: _,
    } = response;
    text
}

/// Adds the text of an answer, below a title.
pub fn put_opened(
    text: &mut Vec<u8>,
    title: &[u8],
    answer: Result<Response, EarlyExit>,
) -> Result<(), OutOfMemory>
    ensures added { OnOk result (Adds (OpensText title.now answer) text.old.items text.new.items) }
{
    let printed = text_of(answer)?;
    add_open_piece(text, title, &printed)?;
    Ok(())
}

/// The same, folded.
pub fn put_folded(
    text: &mut Vec<u8>,
    title: &[u8],
    answer: Result<Response, EarlyExit>,
) -> Result<(), OutOfMemory>
    ensures added { OnOk result (Adds (FoldsText title.now answer) text.old.items text.new.items) }
{
    let printed = text_of(answer)?;
    add_folded_piece(text, title, &printed)?;
    Ok(())
}

/// Adds a text that was printed, below a title, and then, folded, what explains it.
pub fn put_explained(
    text: &mut Vec<u8>,
    title: &[u8],
    printed: &[u8],
    explained: &[u8],
) -> Result<(), OutOfMemory>
    ensures added { OnOk result (text.new.items ≡ text.old.items
        ++ (open_text title.now printed.now ++ folded_text (codes "Why") explained.now)) }
{
    add_open_piece(text, title, printed)?;
    add_folded_piece(text, b"Why", explained)
}

/// A title beside the words of a command on a file.
pub fn title_of(
    alloc: Global,
    title: &[u8],
    words: &[u8],
    file: &Argument,
) -> Result<Vec<u8>, OutOfMemory>
    ensures text { IfOk result
        (λ text. text.items ≡ title_with_words title.now (words.now ++ shell_word file.now)) }
{
    let mut whole = Vec::new(alloc);
    add(&mut whole, words)?;
    add_shell_word(&mut whole, file.bytes())?;
    titled(alloc, title, &whole)
}

/// A title beside the words of a command on a schema and a plan.
pub fn title_of_two(
    alloc: Global,
    title: &[u8],
    words: &[u8],
    file: &Argument,
    plan_file: &Argument,
) -> Result<Vec<u8>, OutOfMemory>
    ensures text { IfOk result
        (λ text. text.items ≡ title_with_words title.now (two_files words.now file.now plan_file.now)) }
{
    let mut whole = Vec::new(alloc);
    add(&mut whole, words)?;
    add_shell_word(&mut whole, file.bytes())?;
    add(&mut whole, b" ")?;
    add_shell_word(&mut whole, plan_file.bytes())?;
    titled(alloc, title, &whole)
}
