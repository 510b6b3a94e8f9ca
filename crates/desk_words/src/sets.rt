//! The words after the commands that ask of a schema what follows from a goal or a set.

ghost use Rattle.std.specs.Prelude.{◌≡◌, option_map};
ghost use Rattle.desk_words.specs.Commands.{command_form};
ghost use Rattle.desk_words.specs.Forms as forms;

use crate::command::Command;
use crate::questions::{SchemaQuestion, Task};
use crate::shapes::over;
use arguments::Argument;

/// After `implies`.
#[tactic(auto, unfolding(crate::specs::Forms::schema_and_word))]
pub fn after_implies(words: &[Argument]) -> Option<Command<'_>>
    ensures form { option_map command_form result ≡ forms.schema_and_word forms.implies words.now }
{
    match words {
        [schema, goal] => over(
            schema,
            Task::OfSchema {
                question: SchemaQuestion::Implies { goal },
            },
        ),
        _ => None,
    }
}

/// After `basis`.
#[tactic(auto, unfolding(crate::specs::Forms::schema_and_word))]
pub fn after_basis(words: &[Argument]) -> Option<Command<'_>>
    ensures form { option_map command_form result ≡ forms.schema_and_word forms.basis words.now }
{
    match words {
        [schema, set] => over(
            schema,
            Task::OfSchema {
                question: SchemaQuestion::Basis { set },
            },
        ),
        _ => None,
    }
}

/// After `closure`.
#[tactic(auto, unfolding(crate::specs::Forms::schema_and_word))]
pub fn after_closure(words: &[Argument]) -> Option<Command<'_>>
    ensures form { option_map command_form result ≡ forms.schema_and_word forms.closure words.now }
{
    match words {
        [schema, set] => over(
            schema,
            Task::OfSchema {
                question: SchemaQuestion::Closure { set },
            },
        ),
        _ => None,
    }
}

/// After `project`.
#[tactic(auto, unfolding(crate::specs::Forms::schema_and_word))]
pub fn after_project(words: &[Argument]) -> Option<Command<'_>>
    ensures form { option_map command_form result ≡ forms.schema_and_word forms.project words.now }
{
    match words {
        [schema, set] => over(
            schema,
            Task::OfSchema {
                question: SchemaQuestion::Project { set },
            },
        ),
        _ => None,
    }
}
