//! The words after the command that makes pages.

ghost use Rattle.std.specs.Prelude.{◌≡◌, option_map};
ghost use Rattle.desk_words.specs.Commands.{command_form};
ghost use Rattle.desk_words.specs.Forms as forms;

use crate::command::Command;
use crate::questions::Task;
use crate::shapes::over;
use arguments::Argument;

/// After `report`.
#[tactic(auto, unfolding(crate::specs::Forms::after_report))]
pub fn after_report(words: &[Argument]) -> Option<Command<'_>>
    ensures form { option_map command_form result ≡ forms.after_report words.now }
{
    match words {
        [file] => over(file, Task::Report { file }),
        [file, plan] => over(file, Task::ReportPlan { file, plan }),
        _ => None,
    }
}
