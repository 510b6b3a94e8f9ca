//! What commands have in common: the words that stand after their own.

ghost use Rattle.std.specs.Prelude.{◌≡◌, Some, bytes_eq, option_map};
ghost use Rattle.desk_words.specs.Commands.{command_form, pair_question, plan_question, rows_question, schema_question, task_form};
ghost use Rattle.desk_words.specs.Forms as forms;

use crate::command::Command;
use crate::questions::{PairQuestion, PlanQuestion, RowsQuestion, SchemaQuestion, Task};
use arguments::Argument;
use dep_model::Form;
use which_form::TestedForm;

/// Whether a word is this one.
pub fn is_word(word: &Argument, name: &[u8]) -> bool
    ensures exact { result ≡ bytes_eq word.now name.now }
{
    word.bytes() == name
}

/// The normal form that a word names.
#[tactic(auto, unfolding(crate::specs::Forms::normal_form))]
pub fn normal_form(word: &Argument) -> Option<Form>
    ensures form { result ≡ forms.normal_form word.now }
{
    match word.bytes() {
        b"3nf" => Some(Form::Third),
        b"bcnf" => Some(Form::Bcnf),
        b"4nf" => Some(Form::Fourth),
        _ => None,
    }
}

/// The normal form that a word names, of those that a scheme is tested for.
#[tactic(auto, unfolding(crate::specs::Forms::tested_form))]
pub fn tested_form(word: &Argument) -> Option<TestedForm>
    ensures form { result ≡ forms.tested_form word.now }
{
    if is_word(word, b"2nf") {
        return Some(TestedForm::Second);
    }
    match normal_form(word) {
        Some(form) => Some(TestedForm::Higher { form }),
        None => None,
    }
}

/// No word more.
#[tactic(auto, unfolding(crate::specs::Forms::no_more_arguments))]
pub fn no_more_arguments<'a>(command: Command<'a>, words: &[Argument]) -> Option<Command<'a>>
    ensures form { option_map command_form result
        ≡ forms.no_more_arguments (command_form command.entry) words.now }
{
    match words {
        [] => Some(command),
        _ => None,
    }
}

/// A schema, and no word more.
#[tactic(auto, unfolding(crate::specs::Forms::schema_alone))]
pub fn schema_alone<'a>(question: SchemaQuestion<'a>, words: &'a [Argument]) -> Option<Command<'a>>
    ensures form { option_map command_form result
        ≡ forms.schema_alone (schema_question question.entry) words.now }
{
    match words {
        [schema] => over(schema, Task::OfSchema { question }),
        _ => None,
    }
}

/// A schema and a plan.
#[tactic(auto, unfolding(crate::specs::Forms::schema_and_plan))]
pub fn schema_and_plan<'a>(question: PlanQuestion<'a>, words: &'a [Argument]) -> Option<Command<'a>>
    ensures form { option_map command_form result
        ≡ forms.schema_and_plan (plan_question question.entry) words.now }
{
    match words {
        [schema, plan] => over(schema, Task::OfPlan { plan, question }),
        _ => None,
    }
}

/// Two schemas.
#[tactic(auto, unfolding(crate::specs::Forms::two_schemas))]
pub fn two_schemas(question: PairQuestion, words: &[Argument]) -> Option<Command<'_>>
    ensures form { option_map command_form result
        ≡ forms.two_schemas (pair_question question) words.now }
{
    match words {
        [schema, other] => over(
            schema,
            Task::OfPair {
                file: schema,
                other,
                question,
            },
        ),
        _ => None,
    }
}

/// A schema and rows.
#[tactic(auto, unfolding(crate::specs::Forms::schema_and_rows))]
pub fn schema_and_rows(question: RowsQuestion, words: &[Argument]) -> Option<Command<'_>>
    ensures form { option_map command_form result
        ≡ forms.schema_and_rows (rows_question question) words.now }
{
    match words {
        [schema, file] => over(schema, Task::OfRows { file, question }),
        _ => None,
    }
}

/// What is asked of a schema.
pub fn over<'a>(schema: &'a Argument, task: Task<'a>) -> Option<Command<'a>>
    ensures form { option_map command_form result
        ≡ Some (forms.over_schema schema.now (task_form task.entry)) }
{
    Some(Command::OverSchema { schema, task })
}
