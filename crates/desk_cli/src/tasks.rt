//! What is asked of files: they are read one after the other, in the order of the words, and then the
//! question is put to what was read. What moves rows into tables stands in `migrations`, and what makes a page of
//! a plan in `pages`; no function elsewhere in this crate reads a file.

ghost use Rattle.std.specs.Prelude.{◌∷◌, []};
ghost use Rattle.desk_words.specs.Commands.{pair_question, plan_question, rows_question, rules_question, task_form};
ghost use Rattle.table_join.specs.Tables.{tables_of};
ghost use Rattle.desk_implication.specs.Certificates.{ChecksProof};
ghost use Rattle.desk_inputs.specs.FileCalls.{Reads};
ghost use Rattle.desk_inputs.specs.FileKinds.{WithFile, WithFiles};
ghost use Rattle.desk_outside.specs.FreeNames.{may_be_free};
ghost use Rattle.desk_discovery.specs.AllDiscoveries.{FindsAllRules};
ghost use Rattle.desk_inputs.specs.Headed.{headed_file, whole_file};
ghost use Rattle.desk_implication.specs.Derivations.{ChecksDerivation};
ghost use Rattle.desk_inputs.specs.Inputs.{derivation_file, proof_file, schema_file};
ghost use Rattle.desk_inputs.specs.Parts.{part_file};
ghost use Rattle.desk_cli.specs.FilesRead.{files_of_task};
ghost use Rattle.desk_cli.specs.Performs.{AnswersPair, AnswersPlan, AnswersRows, AnswersRules, Does, WithValues};
ghost use Rattle.desk_measures.specs.Measures.{MeasuresRows};
ghost use Rattle.desk_inputs.specs.Plans.{plan_file};
ghost use Rattle.desk_tables.specs.Rejoining.{JoinsTables};
ghost use Rattle.desk_responses.specs.Responses.{RespondsAs};
ghost use Rattle.desk_inputs.specs.Rows.{rows_file};

use crate::migrations::{of_plan_and_rows, of_plan_and_rows_into, of_rows_in_form, of_rows_into};
use crate::pages::of_page_and_plan;
use crate::questions::{answer_pair, answer_plan, answer_rows, answer_rules, answer_schema};
use arguments::Argument;
use desk_discovery::discover_all_rules;
use desk_implication::{check_derivation, check_proof};
use desk_inputs::{
    Purpose, open_derivation, open_headed, open_parts, open_plan, open_proof, open_rows,
    open_schema,
};
use desk_measures::{measure_rows, text_columns_alone};
use desk_outside::{FileSource, Folder};
use desk_reports::report_schema;
use desk_responses::{EarlyExit, Response};
use desk_tables::rejoin;
use desk_words::{MOST_FILES, PairQuestion, PlanQuestion, RowsQuestion, RulesQuestion, Task};
use row_store::Hashing;
use schema_model::Schema;
use std::alloc::Global;

/// Answers what is asked of the schema of a file.
pub fn over_schema<F: FileSource, G: Folder>(
    alloc: Global,
    hashing: Hashing,
    source: &mut F,
    place: &G,
    file: &Argument,
    task: Task<'_>,
) -> Result<Response, EarlyExit>
    ensures reads { Reads F.FileSource source.old source.new (file.now ∷ files_of_task (task_form task.entry))
        (λ r. RespondsAs (WithFile schema_file r file.now
        (λ schema. Does (may_be_free (G.state place.now).contents) r schema (task_form task.entry))) result) }
{
    let schema = match open_schema(alloc, source, file) {
        Ok(schema) => schema,
        Err(exit) => return Err(exit),
    };
    perform_task(alloc, hashing, source, place, &schema, task)
}

// Answers what is asked of a schema and the files after its own.
#[tactic(auto, unfolding(crate::specs::Performs::Does))]
fn perform_task<F: FileSource, G: Folder>(
    alloc: Global,
    hashing: Hashing,
    source: &mut F,
    place: &G,
    schema: &Schema,
    task: Task<'_>,
) -> Result<Response, EarlyExit>
    ensures reads { Reads F.FileSource source.old source.new (files_of_task (task_form task.entry))
        (λ r. RespondsAs (Does (may_be_free (G.state place.now).contents) r schema.now (task_form task.entry)) result) }
{
    match task {
        Task::OfSchema { question } => answer_schema(alloc, schema, question),
        Task::OfPlan { plan, question } => of_plan(alloc, source, schema, plan, question),
        Task::OfRows { file, question } => of_rows(alloc, hashing, source, schema, file, question),
        Task::Measure { file } => of_values(alloc, hashing, source, schema, file),
        Task::Migrate {
            schema: own,
            file,
            form,
        } => of_rows_in_form(alloc, hashing, source, schema, own, file, form),
        Task::MigratePlan {
            schema: own,
            plan,
            file,
        } => of_plan_and_rows(alloc, hashing, source, schema, own, plan, file),
        Task::MigrateInto { file, form, folder } => {
            of_rows_into(alloc, hashing, source, place, schema, file, form, folder)
        }
        Task::MigratePlanInto { plan, file, folder } => {
            of_plan_and_rows_into(alloc, hashing, source, place, schema, plan, file, folder)
        }
        Task::CheckProof { file, goal } => of_proof(alloc, source, schema, file, goal),
        Task::CheckDerivation { file, goal } => of_derivation(alloc, source, schema, file, goal),
        Task::OfPair {
            file,
            other,
            question,
        } => of_schemas(alloc, source, schema, file, other, question),
        Task::Rejoin { files } => of_parts(alloc, hashing, source, schema, files),
        Task::Report { file } => report_schema(alloc, schema, file),
        Task::ReportPlan { file, plan } => of_page_and_plan(alloc, source, schema, file, plan),
    }
}

// Answers what is asked of a schema and the plan of a file.
fn of_plan<F: FileSource>(
    alloc: Global,
    source: &mut F,
    schema: &Schema,
    file: &Argument,
    question: PlanQuestion<'_>,
) -> Result<Response, EarlyExit>
    ensures reads { Reads F.FileSource source.old source.new (file.now ∷ [])
        (λ r. RespondsAs (WithFile (plan_file schema.now) r file.now
        (λ plan. AnswersPlan schema.now plan (plan_question question.entry))) result) }
{
    let plan = match open_plan(alloc, source, schema, file) {
        Ok(plan) => plan,
        Err(exit) => return Err(exit),
    };
    answer_plan(alloc, schema, &plan, question)
}

// Answers what is asked of a schema and the rows of a file.
fn of_rows<F: FileSource>(
    alloc: Global,
    hashing: Hashing,
    source: &mut F,
    schema: &Schema,
    file: &Argument,
    question: RowsQuestion,
) -> Result<Response, EarlyExit>
    ensures reads { Reads F.FileSource source.old source.new (file.now ∷ [])
        (λ r. RespondsAs (WithFile (rows_file schema.now) r file.now
        (λ rows. AnswersRows schema.now rows (rows_question question))) result) }
{
    let rows = match open_rows(alloc, source, schema, file) {
        Ok(rows) => rows,
        Err(exit) => return Err(exit),
    };
    answer_rows(alloc, hashing, schema, rows, question)
}

// How far the rows of a file are from legal, whatever their values are.
fn of_values<F: FileSource>(
    alloc: Global,
    hashing: Hashing,
    source: &mut F,
    schema: &Schema,
    file: &Argument,
) -> Result<Response, EarlyExit>
    ensures reads { Reads F.FileSource source.old source.new (file.now ∷ [])
        (λ r. RespondsAs (WithValues r schema.now file.now (MeasuresRows schema.now)) result) }
{
    let texts = match text_columns_alone(alloc, schema) {
        Ok(texts) => texts,
        Err(_) => return Err(EarlyExit::OutOfMemory),
    };
    let rows = match open_rows(alloc, source, &texts, file) {
        Ok(rows) => rows,
        Err(exit) => return Err(exit),
    };
    measure_rows(alloc, hashing, schema, &rows)
}

// Whether the certificate of a file proves a goal.
fn of_proof<F: FileSource>(
    alloc: Global,
    source: &mut F,
    schema: &Schema,
    file: &Argument,
    goal: &Argument,
) -> Result<Response, EarlyExit>
    ensures reads { Reads F.FileSource source.old source.new (file.now ∷ [])
        (λ r. RespondsAs (WithFile (proof_file schema.now) r file.now
        (λ tree. ChecksProof schema.now tree goal.now)) result) }
{
    let read = match open_proof(alloc, source, schema, file) {
        Ok(read) => read,
        Err(exit) => return Err(exit),
    };
    check_proof(alloc, schema, read.dep, goal)
}

// Whether the derivation of a file ends with a goal, and what is wrong with its lines.
fn of_derivation<F: FileSource>(
    alloc: Global,
    source: &mut F,
    schema: &Schema,
    file: &Argument,
    goal: &Argument,
) -> Result<Response, EarlyExit>
    ensures reads { Reads F.FileSource source.old source.new (file.now ∷ [])
        (λ r. RespondsAs (WithFile (derivation_file schema.now) r file.now
        (λ lines. ChecksDerivation schema.now lines goal.now)) result) }
{
    let lines = match open_derivation(alloc, source, schema, file) {
        Ok(lines) => lines,
        Err(exit) => return Err(exit),
    };
    check_derivation(alloc, schema, &lines, goal)
}

// Answers what is asked of a schema and that of another file.
fn of_schemas<F: FileSource>(
    alloc: Global,
    source: &mut F,
    schema: &Schema,
    file: &Argument,
    other_file: &Argument,
    question: PairQuestion,
) -> Result<Response, EarlyExit>
    ensures reads { Reads F.FileSource source.old source.new (other_file.now ∷ [])
        (λ r. RespondsAs (WithFile schema_file r other_file.now
        (λ other. AnswersPair schema.now other file.now other_file.now (pair_question question))) result) }
{
    let other = match open_schema(alloc, source, other_file) {
        Ok(other) => other,
        Err(exit) => return Err(exit),
    };
    answer_pair(alloc, schema, &other, file, other_file, question)
}

// The natural join of the tables of files.
fn of_parts<F: FileSource>(
    alloc: Global,
    hashing: Hashing,
    source: &mut F,
    schema: &Schema,
    files: &[Argument],
) -> Result<Response, EarlyExit>
    ensures reads { Reads F.FileSource source.old source.new files.now
        (λ r. RespondsAs (WithFiles (part_file schema.now) r files.now (λ parts. JoinsTables schema.now (tables_of parts))) result) }
{
    let parts = match open_parts(alloc, source, schema, files) {
        Ok(parts) => parts,
        Err(exit) => return Err(exit),
    };
    // the words of a command name fewer
    if parts.len() > MOST_FILES {
        return Err(EarlyExit::OutOfMemory);
    }
    rejoin(alloc, hashing, schema, parts)
}

/// The rules that the rows of a file obey.
pub fn of_headed<F: FileSource>(
    alloc: Global,
    hashing: Hashing,
    source: &mut F,
    file: &Argument,
    question: RulesQuestion,
) -> Result<Response, EarlyExit>
    ensures reads { Reads F.FileSource source.old source.new (file.now ∷ [])
        (λ r. RespondsAs (WithFile headed_file r file.now
        (AnswersRules (rules_question question) file.now)) result) }
{
    let headed = match open_headed(alloc, source, Purpose::Rules, file) {
        Ok(headed) => headed,
        Err(exit) => return Err(exit),
    };
    answer_rules(alloc, hashing, file, headed, question)
}

/// All dependencies that the rows of a file obey.
pub fn of_whole<F: FileSource>(
    alloc: Global,
    hashing: Hashing,
    source: &mut F,
    file: &Argument,
) -> Result<Response, EarlyExit>
    ensures reads { Reads F.FileSource source.old source.new (file.now ∷ [])
        (λ r. RespondsAs (WithFile whole_file r file.now FindsAllRules) result) }
{
    let headed = match open_headed(alloc, source, Purpose::AllRules, file) {
        Ok(headed) => headed,
        Err(exit) => return Err(exit),
    };
    discover_all_rules(alloc, hashing, headed)
}
