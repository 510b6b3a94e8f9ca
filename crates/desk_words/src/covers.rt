//! The words after `cover` and `check cover`.

ghost use Rattle.std.specs.Prelude.{◌≡◌, option_map};
ghost use Rattle.desk_words.specs.Commands.{command_form};
ghost use Rattle.desk_words.specs.Forms as forms;

use crate::command::Command;
use crate::questions::{PairQuestion, SchemaQuestion, Task};
use crate::shapes::{is_word, over};
use arguments::Argument;

/// After `cover`.
#[tactic(auto, unfolding(crate::specs::Forms::after_cover))]
pub fn after_cover(words: &[Argument]) -> Option<Command<'_>>
    ensures form { option_map command_form result ≡ forms.after_cover words.now }
{
    match words {
        [schema] => over(
            schema,
            Task::OfSchema {
                question: SchemaQuestion::Cover,
            },
        ),
        [what, schema] => after_cover_canonical(what, schema),
        _ => None,
    }
}

// After `cover`, a word and a schema.
fn after_cover_canonical<'a>(what: &Argument, schema: &'a Argument) -> Option<Command<'a>>
    ensures form { option_map command_form result ≡ forms.cover_after_word what.now schema.now }
{
    if !is_word(what, b"canonical") {
        return None;
    }
    over(
        schema,
        Task::OfSchema {
            question: SchemaQuestion::CoverCanonical,
        },
    )
}

/// After `check cover`.
#[tactic(auto, unfolding(crate::specs::Forms::after_check_cover))]
pub fn after_check_cover(words: &[Argument]) -> Option<Command<'_>>
    ensures form { option_map command_form result ≡ forms.after_check_cover words.now }
{
    match words {
        [schema, other] => over(
            schema,
            Task::OfPair {
                file: schema,
                other,
                question: PairQuestion::CheckCover,
            },
        ),
        [what, schema, other] => after_check_cover_canonical(what, schema, other),
        _ => None,
    }
}

// After `check cover`, a word and two schemas.
fn after_check_cover_canonical<'a>(
    what: &Argument,
    schema: &'a Argument,
    other: &'a Argument,
) -> Option<Command<'a>>
    ensures form { option_map command_form result
        ≡ forms.check_cover_after_word what.now schema.now other.now }
{
    if !is_word(what, b"canonical") {
        return None;
    }
    over(
        schema,
        Task::OfPair {
            file: schema,
            other,
            question: PairQuestion::CheckCoverCanonical,
        },
    )
}
