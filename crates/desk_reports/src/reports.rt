ghost use Rattle.std.specs.Prelude.{◌≤◌, codes, length, IfOk, OnOk};
ghost use Rattle.dep_model.specs.Projections.{Covers};
ghost use Rattle.schema_model.specs.Schemas.{width_of, theory_in};
ghost use Rattle.html_pages.specs.Pages.{page_text};
ghost use Rattle.plans.specs.Plans.{IsPlanOver, plan_of};
ghost use Rattle.plan_printer.specs.NamedPlans.{named_schemes};
ghost use Rattle.desk_reports.specs.Answers.{Adds, IsFoundCover};
ghost use Rattle.desk_reports.specs.Reports.{ExampleSection, FrontSections, ReportsPlan, ReportsSchema, TablesSections};
ghost use Rattle.desk_responses.specs.Responses.{RespondsAs, response_value};

use crate::attributes::put_attributes_section;
use crate::covers::put_cover_section;
use crate::forms::put_forms_section;
use crate::found::{find_cover, find_keys};
use crate::keys::put_keys_section;
use crate::pieces::{put_opened, title_of};
use crate::planned::put_plan_section;
use crate::rules::put_rules_section;
use crate::tables::put_tables_section;
use arguments::Argument;
use cover_accounts::CoverSteps;
use dep_model::{Form, OutOfMemory};
use desk_exhibits::exhibit_relation;
use desk_responses::{EarlyExit, Response, Status};
use html_pages::{add_heading, close_page, open_page};
use plan_printer::NamedPlan;
use plans::MOST_SCHEMES;
use schema_model::Schema;
use std::alloc::Global;

/// The page of a schema, which is in a file of this name.
pub fn report_schema(alloc: Global, schema: &Schema, file: &Argument) -> Result<Response, EarlyExit>
    ensures response { RespondsAs (ReportsSchema file.now schema.now) result }
{
    Ok(schema_page(alloc, schema, file)?)
}

fn schema_page(alloc: Global, schema: &Schema, file: &Argument) -> Result<Response, OutOfMemory>
    ensures response { IfOk result
        (λ response. ReportsSchema file.now schema.now (response_value response)) }
{
    let cover = find_cover(alloc, schema)?;
    let mut text = open_page(alloc, file.bytes())?;
    put_front_sections(alloc, &mut text, schema, file, &cover)?;
    put_tables_sections(alloc, &mut text, schema, file, &cover)?;
    put_example_section(alloc, &mut text, schema, file)?;
    close_page(&mut text)?;
    Ok(Response::with_text(Status::Yes, text))
}

/// The page of a schema and a plan, which are in files of these names.
pub fn report_plan(
    alloc: Global,
    schema: &Schema,
    planned: &NamedPlan,
    file: &Argument,
    plan_file: &Argument,
) -> Result<Response, EarlyExit>
    requires universe { IsPlanOver (theory_in schema.now) planned.now.plan }
    requires within_limit { length (plan_of planned.now.plan) ≤ MOST_SCHEMES }
    requires covers { Covers (width_of schema.now) (plan_of planned.now.plan) }
    ensures response { RespondsAs
        (ReportsPlan file.now plan_file.now schema.now (named_schemes planned.now)) result }
{
    Ok(plan_page(alloc, schema, planned, file, plan_file)?)
}

fn plan_page(
    alloc: Global,
    schema: &Schema,
    planned: &NamedPlan,
    file: &Argument,
    plan_file: &Argument,
) -> Result<Response, OutOfMemory>
    requires universe { IsPlanOver (theory_in schema.now) planned.now.plan }
    requires within_limit { length (plan_of planned.now.plan) ≤ MOST_SCHEMES }
    requires covers { Covers (width_of schema.now) (plan_of planned.now.plan) }
    ensures response { IfOk result
        (λ response. ReportsPlan file.now plan_file.now schema.now (named_schemes planned.now)
        (response_value response)) }
{
    let cover = find_cover(alloc, schema)?;
    let mut text = open_page(alloc, file.bytes())?;
    put_front_sections(alloc, &mut text, schema, file, &cover)?;
    put_plan_section(alloc, &mut text, schema, planned, file, plan_file)?;
    put_example_section(alloc, &mut text, schema, file)?;
    close_page(&mut text)?;
    Ok(Response::with_text(Status::Yes, text))
}

// Adds the sections before those of tables.
fn put_front_sections(
    alloc: Global,
    text: &mut Vec<u8>,
    schema: &Schema,
    file: &Argument,
    cover: &CoverSteps,
) -> Result<(), OutOfMemory>
    requires cover { IsFoundCover schema.now cover.now }
    ensures added { OnOk result (Adds (FrontSections file.now schema.now) text.old.items text.new.items) }
{
    let keys = find_keys(alloc, schema)?;
    put_attributes_section(alloc, text, schema, &keys)?;
    put_rules_section(alloc, text, schema)?;
    put_cover_section(alloc, text, schema, file, cover)?;
    put_keys_section(alloc, text, schema, file, &keys)?;
    put_forms_section(alloc, text, schema, file)?;
    Ok(())
}

// Adds the sections of the tables in each of the normal forms.
fn put_tables_sections(
    alloc: Global,
    text: &mut Vec<u8>,
    schema: &Schema,
    file: &Argument,
    cover: &CoverSteps,
) -> Result<(), OutOfMemory>
    requires cover { IsFoundCover schema.now cover.now }
    ensures added { OnOk result (Adds (TablesSections file.now schema.now) text.old.items text.new.items) }
{
    put_tables_section(alloc, text, schema, file, Form::Third, cover)?;
    put_tables_section(alloc, text, schema, file, Form::Bcnf, cover)?;
    put_tables_section(alloc, text, schema, file, Form::Fourth, cover)?;
    Ok(())
}

// Adds rows that obey just what follows.
fn put_example_section(
    alloc: Global,
    text: &mut Vec<u8>,
    schema: &Schema,
    file: &Argument,
) -> Result<(), OutOfMemory>
    ensures added { OnOk result (Adds (ExampleSection file.now schema.now) text.old.items text.new.items) }
{
    let title = title_of(
        alloc,
        b"Rows that obey just what follows",
        b"exhibit ",
        file,
    )?;
    add_heading(text, b"Example rows")?;
    put_opened(text, &title, exhibit_relation(alloc, schema))?;
    Ok(())
}
