//! The words after `discover`.

ghost use Rattle.std.specs.Prelude.{◌≡◌, Some, option_map};
ghost use Rattle.desk_words.specs.Commands.{command_form, rules_question};
ghost use Rattle.desk_words.specs.Forms as forms;

use crate::bounds::{left_bound_of, row_bound_of};
use crate::command::Command;
use crate::questions::RulesQuestion;
use crate::references::after_discover_references;
use crate::shapes::is_word;
use arguments::Argument;

/// After `discover`.
#[tactic(auto, unfolding(crate::specs::Forms::after_discover))]
pub fn after_discover(words: &[Argument]) -> Option<Command<'_>>
    ensures form { option_map command_form result ≡ forms.after_discover words.now }
{
    let [what, rest @ ..] = words else {
        return None;
    };
    if !rest.is_empty() && is_word(what, b"references") {
        return after_discover_references(rest);
    }
    discover_in_one(words)
}

// After `discover`, what is asked of one file.
#[tactic(auto, unfolding(crate::specs::Forms::discover_in_one))]
fn discover_in_one(words: &[Argument]) -> Option<Command<'_>>
    ensures form { option_map command_form result ≡ forms.discover_in_one words.now }
{
    match words {
        [file] => rules_of(RulesQuestion::Minimal, file),
        [what, file] => after_discover_word(what, file),
        [what, limit, most, file] => after_near(what, limit, most, file),
        _ => None,
    }
}

// After `discover`, a word, two numbers and rows.
fn after_near<'a>(
    what: &Argument,
    limit: &Argument,
    most: &Argument,
    file: &'a Argument,
) -> Option<Command<'a>>
    ensures form { option_map command_form result
        ≡ forms.discover_after_numbers what.now limit.now most.now file.now }
{
    if !is_word(what, b"near") {
        return None;
    }
    match (row_bound_of(limit.bytes()), left_bound_of(most.bytes())) {
        (Some(limit), Some(most)) => rules_of(RulesQuestion::Near { limit, most }, file),
        _ => None,
    }
}

// After `discover`, a word and rows.
fn after_discover_word<'a>(what: &Argument, file: &'a Argument) -> Option<Command<'a>>
    ensures form { option_map command_form result ≡ forms.discover_after_word what.now file.now }
{
    match left_bound_of(what.bytes()) {
        Some(most) => return rules_of(RulesQuestion::Small { most }, file),
        None => {}
    }
    if is_word(what, b"keys") {
        return rules_of(RulesQuestion::Keys, file);
    }
    if is_word(what, b"all") {
        return Some(Command::DiscoverAll { file });
    }
    None
}

// What is asked of the rows of a file alone.
fn rules_of(question: RulesQuestion, file: &Argument) -> Option<Command<'_>>
    ensures form { option_map command_form result
        ≡ Some (forms.discover (rules_question question) file.now) }
{
    Some(Command::Discover { question, file })
}
