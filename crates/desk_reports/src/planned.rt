//! The section on the tables of a plan of one's own.

ghost use Rattle.std.specs.Prelude.{◌≡◌, ◌≤◌, codes, length, OnOk};
ghost use Rattle.dep_model.specs.Projections.{Covers};
ghost use Rattle.schema_model.specs.Schemas.{width_of, theory_in};
ghost use Rattle.plans.specs.Plans.{IsPlanOver, plan_of};
ghost use Rattle.plan_printer.specs.NamedPlans.{named_schemes};
ghost use Rattle.desk_designs.specs.Joins.{JudgesJoin};
ghost use Rattle.desk_designs.specs.Keeping.{JudgesKeeping};
ghost use Rattle.desk_designs.specs.Designs.{WritesPlan};
ghost use Rattle.html_pages.specs.Pages.{title_with_words};
ghost use Rattle.desk_reports.specs.Answers.{Adds};
ghost use Rattle.desk_reports.specs.Pieces.{Folds, Opens};
ghost use Rattle.desk_reports.specs.Tables.{PlanSection, ShowsFormOf, ShowsFormsOf, ShowsJoinOf, ShowsUseOf};
ghost use Rattle.desk_reports.specs.Tables.{check_words, two_files};

use crate::forms::title_of_form;
use crate::pieces::{put_folded, put_opened, title_of_two};
use crate::tables::put_picture;
use arguments::Argument;
use dep_model::{Form, OutOfMemory};
use desk_designs::{check_form, check_join, check_keeps, write_plan};
use html_pages::add_heading;
use plan_printer::NamedPlan;
use plans::{MOST_SCHEMES, Plan};
use schema_model::Schema;
use std::alloc::Global;
use which_form::TestedForm;

/// Adds the section on the tables of a plan.
pub fn put_plan_section(
    alloc: Global,
    text: &mut Vec<u8>,
    schema: &Schema,
    planned: &NamedPlan,
    file: &Argument,
    plan_file: &Argument,
) -> Result<(), OutOfMemory>
    requires universe { IsPlanOver (theory_in schema.now) planned.now.plan }
    requires within_limit { length (plan_of planned.now.plan) ≤ MOST_SCHEMES }
    requires covers { Covers (width_of schema.now) (plan_of planned.now.plan) }
    ensures added { OnOk result
        (Adds (PlanSection file.now plan_file.now schema.now (named_schemes planned.now))
        text.old.items text.new.items) }
{
    add_heading(text, b"Your tables")?;
    put_join(alloc, text, schema, planned, file, plan_file)?;
    put_forms(alloc, text, schema, &planned.plan, file, plan_file)?;
    put_use(alloc, text, schema, planned, file, plan_file)?;
    Ok(())
}

// Adds whether the tables can be joined again, and their picture.
fn put_join(
    alloc: Global,
    text: &mut Vec<u8>,
    schema: &Schema,
    planned: &NamedPlan,
    file: &Argument,
    plan_file: &Argument,
) -> Result<(), OutOfMemory>
    requires universe { IsPlanOver (theory_in schema.now) planned.now.plan }
    requires within_limit { length (plan_of planned.now.plan) ≤ MOST_SCHEMES }
    requires covers { Covers (width_of schema.now) (plan_of planned.now.plan) }
    ensures added { OnOk result
        (Adds (ShowsJoinOf file.now plan_file.now schema.now (named_schemes planned.now))
        text.old.items text.new.items) }
{
    let title = title_of_two(alloc, b"Joined again", b"check join ", file, plan_file)?;
    put_opened(text, &title, check_join(alloc, schema, &planned.plan))?;
    put_picture(alloc, text, schema, &planned.plan, &planned.names)?;
    Ok(())
}

// Adds whether the schemes are in each of the normal forms.
fn put_forms(
    alloc: Global,
    text: &mut Vec<u8>,
    schema: &Schema,
    plan: &Plan,
    file: &Argument,
    plan_file: &Argument,
) -> Result<(), OutOfMemory>
    requires universe { IsPlanOver (theory_in schema.now) plan.now }
    ensures added { OnOk result
        (Adds (ShowsFormsOf file.now plan_file.now schema.now (plan_of plan.now))
        text.old.items text.new.items) }
{
    put_form_of(alloc, text, schema, plan, file, plan_file, Form::Third)?;
    put_form_of(alloc, text, schema, plan, file, plan_file, Form::Bcnf)?;
    put_form_of(alloc, text, schema, plan, file, plan_file, Form::Fourth)?;
    Ok(())
}

// Adds whether the schemes are in a normal form.
fn put_form_of(
    alloc: Global,
    text: &mut Vec<u8>,
    schema: &Schema,
    plan: &Plan,
    file: &Argument,
    plan_file: &Argument,
    form: Form,
) -> Result<(), OutOfMemory>
    requires universe { IsPlanOver (theory_in schema.now) plan.now }
    ensures added { OnOk result
        (Adds (ShowsFormOf file.now plan_file.now schema.now (plan_of plan.now) form)
        text.old.items text.new.items) }
{
    let tested = TestedForm::Higher { form };
    let title = title_of_two(
        alloc,
        title_of_form(form),
        words_for_check(form),
        file,
        plan_file,
    )?;
    put_opened(text, &title, check_form(alloc, schema, tested, plan))?;
    Ok(())
}

// The words that ask whether the schemes are in a normal form.
fn words_for_check(form: Form) -> &'static [u8]
    ensures words { result.now ≡ check_words form }
{
    match form {
        Form::Third => b"check form 3nf ",
        Form::Bcnf => b"check form bcnf ",
        Form::Fourth => b"check form 4nf ",
    }
}

// Adds whether the rules are kept, and the SQL tables.
fn put_use(
    alloc: Global,
    text: &mut Vec<u8>,
    schema: &Schema,
    planned: &NamedPlan,
    file: &Argument,
    plan_file: &Argument,
) -> Result<(), OutOfMemory>
    requires universe { IsPlanOver (theory_in schema.now) planned.now.plan }
    requires within_limit { length (plan_of planned.now.plan) ≤ MOST_SCHEMES }
    requires covers { Covers (width_of schema.now) (plan_of planned.now.plan) }
    ensures added { OnOk result
        (Adds (ShowsUseOf file.now plan_file.now schema.now (named_schemes planned.now))
        text.old.items text.new.items) }
{
    let keeping = title_of_two(
        alloc,
        b"Rules that they keep",
        b"check keeps ",
        file,
        plan_file,
    )?;
    put_opened(text, &keeping, check_keeps(alloc, schema, &planned.plan))?;
    let writing = title_of_two(alloc, b"SQL", b"ddl plan ", file, plan_file)?;
    let written = write_plan(alloc, schema, &planned.plan, &planned.names);
    put_folded(text, &writing, written)?;
    Ok(())
}
