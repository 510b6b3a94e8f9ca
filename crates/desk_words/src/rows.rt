//! The words after the commands over the rows of files.

ghost use Rattle.std.specs.Prelude.{◌≡◌, option_map};
ghost use Rattle.desk_words.specs.Commands.{command_form};
ghost use Rattle.desk_words.specs.Forms as forms;

use crate::command::{Command, MOST_FILES};
use crate::migrate::after_migrate;
use crate::questions::{RowsQuestion, Task};
use crate::shapes::{is_word, over, schema_and_rows};
use arguments::Argument;

/// What is asked of a schema, to the rows of a file.
#[tactic(auto, unfolding(crate::specs::Forms::form_over_rows))]
pub fn over_rows<'a>(verb: &Argument, rest: &'a [Argument]) -> Option<Command<'a>>
    ensures form { option_map command_form result ≡ forms.form_over_rows verb.now rest.now }
{
    if is_word(verb, b"migrate") {
        return after_migrate(rest);
    }
    if is_word(verb, b"measure") {
        return after_measure(rest);
    }
    if is_word(verb, b"offences") {
        return after_offences(rest);
    }
    if is_word(verb, b"kept") {
        return schema_and_rows(RowsQuestion::Kept, rest);
    }
    if is_word(verb, b"rejoin") {
        return after_rejoin(rest);
    }
    None
}

// A schema and rows of whatever values.
#[tactic(auto, unfolding(crate::specs::Forms::schema_and_file))]
fn after_measure(words: &[Argument]) -> Option<Command<'_>>
    ensures form { option_map command_form result ≡ forms.schema_and_file forms.measure words.now }
{
    match words {
        [schema, file] => over(schema, Task::Measure { file }),
        _ => None,
    }
}

// After `offences`.
#[tactic(auto, unfolding(crate::specs::Forms::after_offences))]
fn after_offences(words: &[Argument]) -> Option<Command<'_>>
    ensures form { option_map command_form result ≡ forms.after_offences words.now }
{
    match words {
        [schema, file] => over(
            schema,
            Task::OfRows {
                file,
                question: RowsQuestion::Offences,
            },
        ),
        [what, schema, file] => after_offences_by_row(what, schema, file),
        _ => None,
    }
}

// After `offences`, a word, a schema and rows.
fn after_offences_by_row<'a>(
    what: &Argument,
    schema: &'a Argument,
    file: &'a Argument,
) -> Option<Command<'a>>
    ensures form { option_map command_form result
        ≡ forms.offences_after_word what.now schema.now file.now }
{
    if !is_word(what, b"rows") {
        return None;
    }
    over(
        schema,
        Task::OfRows {
            file,
            question: RowsQuestion::OffencesByRow,
        },
    )
}

// A schema and from one to `MOST_FILES` files.
#[tactic(auto, unfolding(crate::specs::Forms::schema_and_several))]
fn after_rejoin(words: &[Argument]) -> Option<Command<'_>>
    ensures form { option_map command_form result ≡ forms.schema_and_several forms.rejoin words.now }
{
    let [schema, files @ ..] = words else {
        return None;
    };
    if files.is_empty() || files.len() > MOST_FILES {
        return None;
    }
    over(schema, Task::Rejoin { files })
}
