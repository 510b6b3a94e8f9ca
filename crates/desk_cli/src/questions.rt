//! What is asked of values that were read: a pure function for each kind of question.

ghost use Rattle.std.specs.Prelude.{◌≤◌, ◌<◌, ◌^◌, length};
ghost use Rattle.dep_model.specs.Projections.{Covers};
ghost use Rattle.schema_model.specs.Schemas.{width_of, theory_in};
ghost use Rattle.dep_model.specs.Tuples.{IsOver};
ghost use Rattle.plan_printer.specs.NamedPlans.{named_schemes};
ghost use Rattle.headed_rows.specs.Headers.{IsColumnHeader};
ghost use Rattle.headed_rows.specs.Headings.{headed_of};
ghost use Rattle.row_store.specs.declared.limits.TheConstants.{MOST_HEADED_ROWS};
ghost use Rattle.plans.specs.Plans.{IsPlanOver, plan_of};
ghost use Rattle.desk_words.specs.Commands.{pair_question, plan_question, rows_question, rules_question, schema_question};
ghost use Rattle.desk_cli.specs.Performs.{AnswersPair, AnswersPlan, AnswersRows, AnswersRules, AnswersSchema};
ghost use Rattle.desk_responses.specs.Responses.{RespondsAs};

use arguments::Argument;
use desk_covers::{
    check_canonical_cover, check_cover, check_same, cover, cover_canonically, explain_cover,
};
use desk_designs::{
    check_form, check_join, check_keeps, draw_form, draw_plan, explain_fewest, explain_split,
    explain_synthesis, form_of_all, forms_of_plan, split_by_pairs, split_in_form,
    synthesize_fewest, synthesize_plan, write_form, write_plan,
};
use desk_discovery::{discover_keys, discover_near_rules, discover_rules, discover_small_rules};
use desk_exhibits::exhibit_relation;
use desk_implication::{explain_implication, give_basis, give_closure, give_projection, implies};
use desk_keys::{check_key, explain_keys, list_keys, list_keys_of_plan};
use desk_measures::{keep_rows, list_offences, list_offences_by_row};
use desk_responses::{EarlyExit, Response};
use desk_scripts::{script_check, script_measure, script_migration, script_migration_by_plan};
use desk_tables::check_rows;
use desk_words::{PairQuestion, PlanQuestion, RowsQuestion, RulesQuestion, SchemaQuestion};
use headed_rows::Headed;
use plan_printer::NamedPlan;
use plans::MOST_SCHEMES;
use row_store::{Hashing, Rows};
use schema_model::{Name, Schema};
use std::alloc::Global;

/// Answers what is asked of a schema alone.
#[tactic(auto, unfolding(crate::specs::Performs::AnswersSchema))]
pub fn answer_schema(
    alloc: Global,
    schema: &Schema,
    question: SchemaQuestion<'_>,
) -> Result<Response, EarlyExit>
    ensures response { RespondsAs (AnswersSchema schema.now (schema_question question.entry)) result }
{
    match question {
        SchemaQuestion::Implies { goal } => implies(alloc, schema, goal),
        SchemaQuestion::Cover => cover(alloc, schema),
        SchemaQuestion::CoverCanonical => cover_canonically(alloc, schema),
        SchemaQuestion::Basis { set } => give_basis(alloc, schema, set),
        SchemaQuestion::Closure { set } => give_closure(alloc, schema, set),
        SchemaQuestion::Project { set } => give_projection(alloc, schema, set),
        SchemaQuestion::Keys => list_keys(alloc, schema),
        SchemaQuestion::FormOfAll => form_of_all(alloc, schema),
        SchemaQuestion::CheckKey { set } => check_key(alloc, schema, set),
        SchemaQuestion::Synthesize => synthesize_plan(alloc, schema),
        SchemaQuestion::SynthesizeFewest => synthesize_fewest(alloc, schema),
        SchemaQuestion::Split { form } => split_in_form(alloc, schema, form),
        SchemaQuestion::SplitWide => split_by_pairs(alloc, schema),
        SchemaQuestion::Exhibit => exhibit_relation(alloc, schema),
        SchemaQuestion::ExplainImplies { goal } => explain_implication(alloc, schema, goal),
        SchemaQuestion::ExplainCover => explain_cover(alloc, schema),
        SchemaQuestion::ExplainKeys => explain_keys(alloc, schema),
        SchemaQuestion::ExplainSynthesize => explain_synthesis(alloc, schema),
        SchemaQuestion::ExplainFewest => explain_fewest(alloc, schema),
        SchemaQuestion::ExplainSplit { form } => explain_split(alloc, schema, form),
        SchemaQuestion::Ddl { form } => write_form(alloc, schema, form),
        SchemaQuestion::SqlCheck { name } => script_check(alloc, schema, name),
        SchemaQuestion::SqlMeasure { name } => script_measure(alloc, schema, name),
        SchemaQuestion::SqlMigrate { form, name } => script_migration(alloc, schema, form, name),
        SchemaQuestion::Draw { form } => draw_form(alloc, schema, form),
    }
}

/// Answers what is asked of a schema and a plan.
#[tactic(auto, unfolding(crate::specs::Performs::AnswersPlan))]
pub fn answer_plan(
    alloc: Global,
    schema: &Schema,
    planned: &NamedPlan,
    question: PlanQuestion<'_>,
) -> Result<Response, EarlyExit>
    requires universe { IsPlanOver (theory_in schema.now) planned.now.plan }
    requires within_limit { length (plan_of planned.now.plan) ≤ MOST_SCHEMES }
    requires covers { Covers (width_of schema.now) (plan_of planned.now.plan) }
    ensures response { RespondsAs
        (AnswersPlan schema.now (named_schemes planned.now) (plan_question question.entry)) result }
{
    let plan = &planned.plan;
    let names: &[Option<Name>] = &planned.names;
    match question {
        PlanQuestion::CheckJoin => check_join(alloc, schema, plan),
        PlanQuestion::CheckForm { form } => check_form(alloc, schema, form, plan),
        PlanQuestion::CheckKeeps => check_keeps(alloc, schema, plan),
        PlanQuestion::Keys => list_keys_of_plan(alloc, schema, plan),
        PlanQuestion::Forms => forms_of_plan(alloc, schema, plan),
        PlanQuestion::Ddl => write_plan(alloc, schema, plan, names),
        PlanQuestion::SqlMigrate { name } => {
            script_migration_by_plan(alloc, schema, plan, names, name)
        }
        PlanQuestion::Draw => draw_plan(alloc, schema, plan, names),
    }
}

/// Answers what is asked of the schemas of two files.
#[tactic(auto, unfolding(crate::specs::Performs::AnswersPair))]
pub fn answer_pair(
    alloc: Global,
    schema: &Schema,
    other: &Schema,
    file: &Argument,
    other_file: &Argument,
    question: PairQuestion,
) -> Result<Response, EarlyExit>
    ensures response { RespondsAs
        (AnswersPair schema.now other.now file.now other_file.now (pair_question question)) result }
{
    match question {
        PairQuestion::CheckSame => check_same(alloc, schema, other, file, other_file),
        PairQuestion::CheckCover => check_cover(alloc, schema, other, file, other_file),
        PairQuestion::CheckCoverCanonical => {
            check_canonical_cover(alloc, schema, other, file, other_file)
        }
    }
}

/// Answers what is asked of a schema and rows.
#[tactic(auto, unfolding(crate::specs::Performs::AnswersRows))]
pub fn answer_rows(
    alloc: Global,
    hashing: Hashing,
    schema: &Schema,
    rows: Rows,
    question: RowsQuestion,
) -> Result<Response, EarlyExit>
    requires over { IsOver (width_of schema.now) rows }
    requires fits_u32 { length rows < 2 ^ 32 }
    ensures response { RespondsAs (AnswersRows schema.now rows (rows_question question)) result }
{
    match question {
        RowsQuestion::CheckRows => check_rows(alloc, hashing, schema, rows),
        RowsQuestion::Offences => list_offences(alloc, hashing, schema, &rows),
        RowsQuestion::OffencesByRow => list_offences_by_row(alloc, hashing, schema, &rows),
        RowsQuestion::Kept => keep_rows(alloc, hashing, schema, &rows),
    }
}

/// Answers which rules the rows under a free header obey.
#[tactic(auto, unfolding(crate::specs::Performs::AnswersRules))]
pub fn answer_rules(
    alloc: Global,
    hashing: Hashing,
    file: &Argument,
    headed: Headed,
    question: RulesQuestion,
) -> Result<Response, EarlyExit>
    requires header { IsColumnHeader headed.names.items }
    requires any_name { 0 < length headed.names.items }
    requires same_width { IsOver (length headed.names.items) headed.rows }
    requires within_limit { length headed.rows ≤ MOST_HEADED_ROWS }
    ensures response { RespondsAs (AnswersRules (rules_question question) file.now (headed_of headed)) result }
{
    match question {
        RulesQuestion::Minimal => discover_rules(alloc, hashing, file, headed),
        RulesQuestion::Small { most } => {
            discover_small_rules(alloc, hashing, file, headed, most.number)
        }
        RulesQuestion::Keys => discover_keys(alloc, hashing, file, headed),
        RulesQuestion::Near { limit, most } => {
            discover_near_rules(alloc, hashing, file, headed, limit, most.number)
        }
    }
}
