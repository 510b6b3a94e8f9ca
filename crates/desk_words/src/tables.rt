//! The words after the commands on keys, normal forms and plans, and those that make SQL tables, scripts
//! and pictures.

ghost use Rattle.std.specs.Prelude.{◌≡◌, option_map};
ghost use Rattle.desk_words.specs.Commands.{command_form};
ghost use Rattle.desk_words.specs.Forms as forms;

use crate::command::Command;
use crate::questions::{PlanQuestion, SchemaQuestion, Task};
use crate::shapes::{is_word, normal_form, over, schema_alone, schema_and_plan};
use arguments::Argument;
use dep_model::Form;

/// After `keys`.
#[tactic(auto, unfolding(crate::specs::Forms::after_keys))]
pub fn after_keys(words: &[Argument]) -> Option<Command<'_>>
    ensures form { option_map command_form result ≡ forms.after_keys words.now }
{
    match words {
        [schema] => over(
            schema,
            Task::OfSchema {
                question: SchemaQuestion::Keys,
            },
        ),
        [schema, plan] => over(
            schema,
            Task::OfPlan {
                plan,
                question: PlanQuestion::Keys,
            },
        ),
        _ => None,
    }
}

/// After `form`.
#[tactic(auto, unfolding(crate::specs::Forms::after_form))]
pub fn after_form(words: &[Argument]) -> Option<Command<'_>>
    ensures form { option_map command_form result ≡ forms.after_form words.now }
{
    match words {
        [schema] => over(
            schema,
            Task::OfSchema {
                question: SchemaQuestion::FormOfAll,
            },
        ),
        [schema, plan] => over(
            schema,
            Task::OfPlan {
                plan,
                question: PlanQuestion::Forms,
            },
        ),
        _ => None,
    }
}

/// After `synthesize`.
#[tactic(auto, unfolding(crate::specs::Forms::after_synthesize))]
pub fn after_synthesize(words: &[Argument]) -> Option<Command<'_>>
    ensures form { option_map command_form result ≡ forms.after_synthesize words.now }
{
    match words {
        [schema] => over(
            schema,
            Task::OfSchema {
                question: SchemaQuestion::Synthesize,
            },
        ),
        [what, schema] => after_synthesize_fewest(what, schema),
        _ => None,
    }
}

// After `synthesize`, a word and a schema.
fn after_synthesize_fewest<'a>(what: &Argument, schema: &'a Argument) -> Option<Command<'a>>
    ensures form { option_map command_form result
        ≡ forms.synthesize_after_word what.now schema.now }
{
    if !is_word(what, b"fewest") {
        return None;
    }
    over(
        schema,
        Task::OfSchema {
            question: SchemaQuestion::SynthesizeFewest,
        },
    )
}

/// After `split`.
#[tactic(auto, unfolding(crate::specs::Forms::after_split))]
pub fn after_split(words: &[Argument]) -> Option<Command<'_>>
    ensures form { option_map command_form result ≡ forms.after_split words.now }
{
    let [what, rest @ ..] = words else {
        return None;
    };
    if is_word(what, b"bcnf") {
        return schema_alone(SchemaQuestion::Split { form: Form::Bcnf }, rest);
    }
    if is_word(what, b"4nf") {
        return schema_alone(SchemaQuestion::Split { form: Form::Fourth }, rest);
    }
    if is_word(what, b"wide-bcnf") {
        return schema_alone(SchemaQuestion::SplitWide, rest);
    }
    None
}

/// After `ddl`.
#[tactic(auto, unfolding(crate::specs::Forms::after_ddl))]
pub fn after_ddl(words: &[Argument]) -> Option<Command<'_>>
    ensures form { option_map command_form result ≡ forms.after_ddl words.now }
{
    let [what, rest @ ..] = words else {
        return None;
    };
    if is_word(what, b"plan") {
        return schema_and_plan(PlanQuestion::Ddl, rest);
    }
    match normal_form(what) {
        Some(form) => schema_alone(SchemaQuestion::Ddl { form }, rest),
        None => None,
    }
}

/// After `sql`.
#[tactic(auto, unfolding(crate::specs::Forms::after_sql, crate::specs::Forms::schema_and_word))]
pub fn after_sql(words: &[Argument]) -> Option<Command<'_>>
    ensures form { option_map command_form result ≡ forms.after_sql words.now }
{
    let [what, rest @ ..] = words else {
        return None;
    };
    if is_word(what, b"check") {
        let [schema, name] = rest else {
            return None;
        };
        return over(
            schema,
            Task::OfSchema {
                question: SchemaQuestion::SqlCheck { name },
            },
        );
    }
    if is_word(what, b"measure") {
        return after_sql_measure(rest);
    }
    if is_word(what, b"migrate") {
        return after_sql_migrate(rest);
    }
    None
}

// A schema and the name of a table.
#[tactic(auto, unfolding(crate::specs::Forms::schema_and_word))]
fn after_sql_measure(words: &[Argument]) -> Option<Command<'_>>
    ensures form { option_map command_form result ≡ forms.schema_and_word forms.sql_measure words.now }
{
    match words {
        [schema, name] => over(
            schema,
            Task::OfSchema {
                question: SchemaQuestion::SqlMeasure { name },
            },
        ),
        _ => None,
    }
}

// After `sql migrate`.
#[tactic(auto, unfolding(crate::specs::Forms::after_sql_migrate))]
fn after_sql_migrate(words: &[Argument]) -> Option<Command<'_>>
    ensures form { option_map command_form result ≡ forms.after_sql_migrate words.now }
{
    let [what, rest @ ..] = words else {
        return None;
    };
    if is_word(what, b"plan") {
        return after_sql_migrate_plan(rest);
    }
    match normal_form(what) {
        Some(form) => after_sql_migrate_form(form, rest),
        None => None,
    }
}

// A schema, a plan and the name of a table.
#[tactic(auto, unfolding(crate::specs::Forms::schema_and_plan_and_word))]
fn after_sql_migrate_plan(words: &[Argument]) -> Option<Command<'_>>
    ensures form { option_map command_form result ≡ forms.schema_and_plan_and_word forms.sql_migrate_plan words.now }
{
    match words {
        [schema, plan, name] => over(
            schema,
            Task::OfPlan {
                plan,
                question: PlanQuestion::SqlMigrate { name },
            },
        ),
        _ => None,
    }
}

// A schema and the name of a table.
#[tactic(auto, unfolding(crate::specs::Forms::schema_and_word))]
fn after_sql_migrate_form(form: Form, words: &[Argument]) -> Option<Command<'_>>
    ensures form { option_map command_form result ≡ forms.schema_and_word (forms.sql_migrate form) words.now }
{
    match words {
        [schema, name] => over(
            schema,
            Task::OfSchema {
                question: SchemaQuestion::SqlMigrate { form, name },
            },
        ),
        _ => None,
    }
}

/// After `draw`.
#[tactic(auto, unfolding(crate::specs::Forms::after_draw))]
pub fn after_draw(words: &[Argument]) -> Option<Command<'_>>
    ensures form { option_map command_form result ≡ forms.after_draw words.now }
{
    let [what, rest @ ..] = words else {
        return None;
    };
    if is_word(what, b"plan") {
        return schema_and_plan(PlanQuestion::Draw, rest);
    }
    match normal_form(what) {
        Some(form) => schema_alone(SchemaQuestion::Draw { form }, rest),
        None => None,
    }
}
