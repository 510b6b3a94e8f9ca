ghost use Rattle.std.specs.Prelude.{◌≡◌, ◌≤◌, None, length, IsTrue, IfOk, IfErr};
ghost use Rattle.dep_model.specs.Projections.{Covers};
ghost use Rattle.schema_model.specs.Schemas.{width_of, theory_in};
ghost use Rattle.plans.specs.Plans.{IsPlanOver, plan_of, scheme_sets};
ghost use Rattle.sql_scripts.specs.Naming.{is_table_name, met_name};
ghost use Rattle.desk_responses.specs.ResponseValues.{Says};
ghost use Rattle.desk_responses.specs.Responses.{response_value, RespondsAs, ExitsAs};
ghost use Rattle.desk_scripts.specs.Scripts.{AsksTable, MeasuresTable, MakesDesign, MetNameStops, TableNameStops};
ghost use Rattle.desk_scripts.specs.Scripts.{met_table_text, ScriptsCheck, ScriptsMeasure, ScriptsMigration};
ghost use Rattle.desk_scripts.specs.Scripts.{ScriptsMigrationByPlan};

use arguments::Argument;
use ddl_text::DesignList;
use dep_model::{Form, OutOfMemory};
use desk_designs::{plan_in_form, required_design, test_loss};
use desk_responses::{EarlyExit, Response, Status, bad_table_exit};
use desk_texts::line_of;
use plans::{MOST_SCHEMES, Plan};
use schema_model::{Name, Schema};
use sql_scripts::{check_script, is_table_name, measure_script, met_name, migrate_script};
use std::alloc::Global;

/// The queries for what breaks each rule in a table.
pub fn script_check(alloc: Global, schema: &Schema, name: &Argument) -> Result<Response, EarlyExit>
    ensures response { RespondsAs (ScriptsCheck schema.now name.now) result }
{
    match test_name(alloc, name) {
        Ok(()) => {}
        Err(exit) => return Err(exit),
    }
    Ok(queries_response(alloc, schema, name)?)
}

/// The queries that count what breaks each rule in a table.
pub fn script_measure(
    alloc: Global,
    schema: &Schema,
    name: &Argument,
) -> Result<Response, EarlyExit>
    ensures response { RespondsAs (ScriptsMeasure schema.now name.now) result }
{
    match test_name(alloc, name) {
        Ok(()) => {}
        Err(exit) => return Err(exit),
    }
    Ok(measures_response(alloc, schema, name)?)
}

/// The statements that make the tables of a normal form from a table.
pub fn script_migration(
    alloc: Global,
    schema: &Schema,
    form: Form,
    name: &Argument,
) -> Result<Response, EarlyExit>
    ensures response { RespondsAs (ScriptsMigration schema.now form name.now) result }
{
    match test_name(alloc, name) {
        Ok(()) => {}
        Err(exit) => return Err(exit),
    }
    let plan = match plan_in_form(alloc, schema, form) {
        Ok(plan) => plan,
        Err(exit) => return Err(exit),
    };
    let tables = match required_design(alloc, schema, &plan, &[]) {
        Ok(tables) => tables,
        Err(exit) => return Err(exit),
    };
    Ok(statements_response(alloc, schema, name, &tables)?)
}

/// The statements that make the tables of a plan from a table, where the plan loses nothing.
pub fn script_migration_by_plan(
    alloc: Global,
    schema: &Schema,
    plan: &Plan,
    names: &[Option<Name>],
    name: &Argument,
) -> Result<Response, EarlyExit>
    requires universe { IsPlanOver (theory_in schema.now) plan.now }
    requires within_limit { length (plan_of plan.now) ≤ MOST_SCHEMES }
    requires covers { Covers (width_of schema.now) (plan_of plan.now) }
    ensures response { RespondsAs (ScriptsMigrationByPlan schema.now names.now (plan_of plan.now) name.now) result }
{
    match test_name(alloc, name) {
        Ok(()) => {}
        Err(exit) => return Err(exit),
    }
    match test_other_name(alloc, names, name) {
        Ok(()) => {}
        Err(exit) => return Err(exit),
    }
    let tables = match required_design(alloc, schema, plan, names) {
        Ok(tables) => tables,
        Err(exit) => return Err(exit),
    };
    match test_loss(alloc, schema, plan) {
        Ok(()) => {}
        Err(exit) => return Err(exit),
    }
    Ok(statements_response(alloc, schema, name, &tables)?)
}

// Whether a word names a table.
fn test_name(alloc: Global, name: &Argument) -> Result<(), EarlyExit>
    ensures ok { IfOk result (λ _. IsTrue (is_table_name name.now)) }
    ensures exit { IfErr result (ExitsAs (TableNameStops name.now)) }
{
    if is_table_name(name.bytes()) {
        return Ok(());
    }
    Err(bad_table_exit(alloc))
}

// Whether the last part of a word is none of these names.
fn test_other_name(alloc: Global, names: &[Option<Name>], name: &Argument) -> Result<(), EarlyExit>
    ensures ok { IfOk result (λ _. met_name names.now name.now ≡ None) }
    ensures exit { IfErr result (ExitsAs (MetNameStops names.now name.now)) }
{
    match met_name(names, name.bytes()) {
        Some(met) => Err(met_table_exit(alloc, &met)),
        None => Ok(()),
    }
}

// The last part of a word is the name of a table that is made.
fn met_table_exit(alloc: Global, met: &Name) -> EarlyExit
    ensures says { ExitsAs (Says Status.Refused (met_table_text met.now)) result }
{
    EarlyExit::with_text(Status::Refused, met_table_line(alloc, met))
}

fn met_table_line(alloc: Global, met: &Name) -> Result<Vec<u8>, OutOfMemory>
    ensures line { IfOk result (λ text. text.items ≡ met_table_text met.now) }
{
    line_of(alloc, b"refused: bad table name ", met.bytes(), b"")
}

// The queries for what breaks each rule.
fn queries_response(
    alloc: Global,
    schema: &Schema,
    name: &Argument,
) -> Result<Response, OutOfMemory>
    requires name { IsTrue (is_table_name name.now) }
    ensures response { IfOk result (λ response. AsksTable schema.now name.now
        (response_value response)) }
{
    let script = check_script(alloc, schema, name.bytes())?;
    Ok(Response::with_text(Status::Yes, script))
}

// The queries that count what breaks each rule.
fn measures_response(
    alloc: Global,
    schema: &Schema,
    name: &Argument,
) -> Result<Response, OutOfMemory>
    requires name { IsTrue (is_table_name name.now) }
    ensures response { IfOk result (λ response. MeasuresTable schema.now name.now
        (response_value response)) }
{
    let script = measure_script(alloc, schema, name.bytes())?;
    Ok(Response::with_text(Status::Yes, script))
}

// The statements that make the tables of a design.
fn statements_response(
    alloc: Global,
    schema: &Schema,
    name: &Argument,
    tables: &DesignList,
) -> Result<Response, OutOfMemory>
    requires name { IsTrue (is_table_name name.now) }
    ensures response { IfOk result
        (λ response. MakesDesign schema.now name.now tables.now (response_value response)) }
{
    let script = migrate_script(alloc, schema, tables, name.bytes())?;
    Ok(Response::with_text(Status::Yes, script))
}
