//! The words after `explain`.

ghost use Rattle.std.specs.Prelude.{◌≡◌, option_map};
ghost use Rattle.desk_words.specs.Commands.{command_form};
ghost use Rattle.desk_words.specs.Forms as forms;

use crate::command::Command;
use crate::questions::{SchemaQuestion, Task};
use crate::shapes::{is_word, over, schema_alone};
use arguments::Argument;
use dep_model::Form;

/// After `explain`.
#[tactic(auto, unfolding(crate::specs::Forms::after_explain))]
pub fn after_explain(words: &[Argument]) -> Option<Command<'_>>
    ensures form { option_map command_form result ≡ forms.after_explain words.now }
{
    let [what, rest @ ..] = words else {
        return None;
    };
    if is_word(what, b"implies") {
        return after_explain_implies(rest);
    }
    if is_word(what, b"cover") {
        return schema_alone(SchemaQuestion::ExplainCover, rest);
    }
    if is_word(what, b"keys") {
        return schema_alone(SchemaQuestion::ExplainKeys, rest);
    }
    if is_word(what, b"synthesize") {
        return after_explain_synthesize(rest);
    }
    if is_word(what, b"split") {
        return after_explain_split(rest);
    }
    None
}

// A schema and a goal.
#[tactic(auto, unfolding(crate::specs::Forms::schema_and_word))]
fn after_explain_implies(words: &[Argument]) -> Option<Command<'_>>
    ensures form { option_map command_form result
        ≡ forms.schema_and_word forms.explain_implies words.now }
{
    match words {
        [schema, goal] => over(
            schema,
            Task::OfSchema {
                question: SchemaQuestion::ExplainImplies { goal },
            },
        ),
        _ => None,
    }
}

// After `explain synthesize`.
#[tactic(auto, unfolding(crate::specs::Forms::after_explain_synthesize))]
fn after_explain_synthesize(words: &[Argument]) -> Option<Command<'_>>
    ensures form { option_map command_form result ≡ forms.after_explain_synthesize words.now }
{
    match words {
        [schema] => over(
            schema,
            Task::OfSchema {
                question: SchemaQuestion::ExplainSynthesize,
            },
        ),
        [what, schema] => after_explain_fewest(what, schema),
        _ => None,
    }
}

// After `explain synthesize`, a word and a schema.
fn after_explain_fewest<'a>(what: &Argument, schema: &'a Argument) -> Option<Command<'a>>
    ensures form { option_map command_form result
        ≡ forms.explain_synthesize_after_word what.now schema.now }
{
    if !is_word(what, b"fewest") {
        return None;
    }
    over(
        schema,
        Task::OfSchema {
            question: SchemaQuestion::ExplainFewest,
        },
    )
}

// After `explain split`.
#[tactic(auto, unfolding(crate::specs::Forms::after_explain_split))]
fn after_explain_split(words: &[Argument]) -> Option<Command<'_>>
    ensures form { option_map command_form result ≡ forms.after_explain_split words.now }
{
    let [what, rest @ ..] = words else {
        return None;
    };
    if is_word(what, b"bcnf") {
        return schema_alone(SchemaQuestion::ExplainSplit { form: Form::Bcnf }, rest);
    }
    if is_word(what, b"4nf") {
        return schema_alone(SchemaQuestion::ExplainSplit { form: Form::Fourth }, rest);
    }
    None
}
