//! The words after `discover references` and `check references`.

ghost use Rattle.std.specs.Prelude.{◌≡◌, option_map};
ghost use Rattle.desk_words.specs.Commands.{command_form};
ghost use Rattle.desk_words.specs.Forms as forms;

use crate::command::{Command, MOST_FILES};
use arguments::Argument;

/// From one to `MOST_FILES` files.
#[tactic(auto, unfolding(crate::specs::Forms::several_files))]
pub fn after_discover_references(words: &[Argument]) -> Option<Command<'_>>
    ensures form { option_map command_form result
        ≡ forms.several_files forms.discover_references words.now }
{
    if words.is_empty() || words.len() > MOST_FILES {
        return None;
    }
    Some(Command::DiscoverReferences { files: words })
}

/// Two files, each with names of its columns.
#[tactic(auto, unfolding(crate::specs::Forms::two_named_files))]
pub fn after_check_references(words: &[Argument]) -> Option<Command<'_>>
    ensures form { option_map command_form result
        ≡ forms.two_named_files forms.check_references words.now }
{
    match words {
        [file, names, other, other_names] => Some(Command::CheckReferences {
            file,
            names,
            other,
            other_names,
        }),
        _ => None,
    }
}
