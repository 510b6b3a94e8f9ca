//! The words after `check`.

ghost use Rattle.std.specs.Prelude.{◌≡◌, option_map};
ghost use Rattle.desk_words.specs.Commands.{command_form};
ghost use Rattle.desk_words.specs.Forms as forms;

use crate::command::Command;
use crate::covers::after_check_cover;
use crate::questions::{PairQuestion, PlanQuestion, RowsQuestion, SchemaQuestion, Task};
use crate::references::after_check_references;
use crate::shapes::{is_word, over, schema_and_plan, schema_and_rows, tested_form, two_schemas};
use arguments::Argument;

/// After `check`.
#[tactic(auto, unfolding(crate::specs::Forms::after_check))]
pub fn after_check(words: &[Argument]) -> Option<Command<'_>>
    ensures form { option_map command_form result ≡ forms.after_check words.now }
{
    let [what, rest @ ..] = words else {
        return None;
    };
    if is_word(what, b"proof") {
        return after_check_proof(rest);
    }
    if is_word(what, b"derivation") {
        return after_check_derivation(rest);
    }
    if is_word(what, b"rows") {
        return schema_and_rows(RowsQuestion::CheckRows, rest);
    }
    if is_word(what, b"key") {
        return after_check_key(rest);
    }
    if is_word(what, b"join") {
        return schema_and_plan(PlanQuestion::CheckJoin, rest);
    }
    if is_word(what, b"form") {
        return after_check_form(rest);
    }
    if is_word(what, b"keeps") {
        return schema_and_plan(PlanQuestion::CheckKeeps, rest);
    }
    if is_word(what, b"same") {
        return two_schemas(PairQuestion::CheckSame, rest);
    }
    if is_word(what, b"cover") {
        return after_check_cover(rest);
    }
    if is_word(what, b"references") {
        return after_check_references(rest);
    }
    None
}

// A schema, a certificate and a goal.
#[tactic(auto, unfolding(crate::specs::Forms::schema_and_two))]
fn after_check_proof(words: &[Argument]) -> Option<Command<'_>>
    ensures form { option_map command_form result ≡ forms.schema_and_two forms.check_proof words.now }
{
    match words {
        [schema, file, goal] => over(schema, Task::CheckProof { file, goal }),
        _ => None,
    }
}

// A schema, a derivation and a goal.
#[tactic(auto, unfolding(crate::specs::Forms::schema_and_two))]
fn after_check_derivation(words: &[Argument]) -> Option<Command<'_>>
    ensures form { option_map command_form result
        ≡ forms.schema_and_two forms.check_derivation words.now }
{
    match words {
        [schema, file, goal] => over(schema, Task::CheckDerivation { file, goal }),
        _ => None,
    }
}

// A schema and a set.
#[tactic(auto, unfolding(crate::specs::Forms::schema_and_word))]
fn after_check_key(words: &[Argument]) -> Option<Command<'_>>
    ensures form { option_map command_form result ≡ forms.schema_and_word forms.check_key words.now }
{
    match words {
        [schema, set] => over(
            schema,
            Task::OfSchema {
                question: SchemaQuestion::CheckKey { set },
            },
        ),
        _ => None,
    }
}

// After `check form`.
#[tactic(auto, unfolding(crate::specs::Forms::after_check_form))]
fn after_check_form(words: &[Argument]) -> Option<Command<'_>>
    ensures form { option_map command_form result ≡ forms.after_check_form words.now }
{
    let [what, rest @ ..] = words else {
        return None;
    };
    match tested_form(what) {
        Some(form) => schema_and_plan(PlanQuestion::CheckForm { form }, rest),
        None => None,
    }
}
