//! The words after `migrate`.

ghost use Rattle.std.specs.Prelude.{◌≡◌, option_map};
ghost use Rattle.desk_words.specs.Commands.{command_form, task_form};
ghost use Rattle.desk_words.specs.Forms as forms;
ghost use Rattle.desk_words.specs.Forms.{where_into};

use crate::command::Command;
use crate::questions::Task;
use crate::shapes::{is_word, normal_form, over};
use arguments::Argument;
use dep_model::Form;

/// After `migrate`.
#[tactic(auto, unfolding(crate::specs::Forms::after_migrate))]
pub fn after_migrate(words: &[Argument]) -> Option<Command<'_>>
    ensures form { option_map command_form result ≡ forms.after_migrate words.now }
{
    let [what, rest @ ..] = words else {
        return None;
    };
    if is_word(what, b"plan") {
        return after_migrate_plan(rest);
    }
    match normal_form(what) {
        Some(form) => after_migrate_form(form, rest),
        None => None,
    }
}

// After `migrate` and a normal form.
#[tactic(auto, unfolding(crate::specs::Forms::after_migrate_form))]
fn after_migrate_form(form: Form, words: &[Argument]) -> Option<Command<'_>>
    ensures form { option_map command_form result ≡ forms.after_migrate_form form words.now }
{
    match words {
        [schema, file] => over(schema, Task::Migrate { schema, file, form }),
        [schema, file, word, folder] => {
            over_into(word, schema, Task::MigrateInto { file, form, folder })
        }
        _ => None,
    }
}

// After `migrate plan`.
#[tactic(auto, unfolding(crate::specs::Forms::after_migrate_plan))]
fn after_migrate_plan(words: &[Argument]) -> Option<Command<'_>>
    ensures form { option_map command_form result ≡ forms.after_migrate_plan words.now }
{
    match words {
        [schema, plan, file] => over(schema, Task::MigratePlan { schema, plan, file }),
        [schema, plan, file, word, folder] => {
            over_into(word, schema, Task::MigratePlanInto { plan, file, folder })
        }
        _ => None,
    }
}

// What is asked of a schema, where a word is `into`.
fn over_into<'a>(word: &Argument, schema: &'a Argument, task: Task<'a>) -> Option<Command<'a>>
    ensures form { option_map command_form result ≡ where_into word.now schema.now (task_form task.entry) }
{
    if is_word(word, b"into") {
        over(schema, task)
    } else {
        None
    }
}
