//! The sections on the tables of the normal forms.

ghost use Rattle.std.specs.Prelude.{◌≡◌, [], ◌++◌, codes, OnOk};
ghost use Rattle.design_picture.specs.Picture.{picture_text};
ghost use Rattle.plans.specs.Plans.{IsPlanOver, plan_of, scheme_sets};
ghost use Rattle.html_pages.specs.Commands.{shell_word};
ghost use Rattle.html_pages.specs.Pages.{title_with_words};
ghost use Rattle.desk_designs.specs.Decompositions.{IsPlanInForm};
ghost use Rattle.desk_designs.specs.Designs.{IsSoundDesign};
ghost use Rattle.desk_designs.specs.Keeping.{JudgesKeeping};
ghost use Rattle.desk_designs.specs.SplitReasons.{AreReasonsInForm, ExplainsSplit};
ghost use Rattle.desk_reports.specs.Answers.{Adds, IsFoundCover};
ghost use Rattle.desk_reports.specs.Pieces.{FoldsReasons, Opens, OpensExplained, Then};
ghost use Rattle.desk_reports.specs.Tables.{GivesPlan, ShowsPicture, ShowsSql, ShowsTables, ShowsPlan, TablesSection};
ghost use Rattle.desk_reports.specs.Tables.{ddl_words, plan_words, tables_heading};
ghost use Rattle.schema_model.specs.Schemas.{theory_in};

use crate::pieces::{put_explained, put_folded, put_opened, title_of};
use arguments::Argument;
use byte_texts::add;
use cover_accounts::CoverSteps;
use ddl_text::DesignList;
use dep_model::{Form, OutOfMemory};
use design_picture::draw_design;
use desk_designs::{
    ExplainedPlan, check_keeps, design_of_plan, explained_plan, print_explained, write_tables,
};
use html_pages::add_heading;
use plan_printer::print_plan;
use plans::Plan;
use schema_model::{Name, Schema};
use std::alloc::Global;

/// Adds the section on the tables of a normal form. Where their plan is refused, it says why, and nothing else.
pub fn put_tables_section(
    alloc: Global,
    text: &mut Vec<u8>,
    schema: &Schema,
    file: &Argument,
    form: Form,
    cover: &CoverSteps,
) -> Result<(), OutOfMemory>
    requires cover { IsFoundCover schema.now cover.now }
    ensures added { OnOk result
        (Adds (TablesSection file.now schema.now form) text.old.items text.new.items) }
{
    let title = title_of(alloc, b"The tables", words_for_plan(form), file)?;
    add_heading(text, heading_of(form))?;
    match explained_plan(alloc, schema, form, &cover.whole) {
        Ok(found) => put_tables(alloc, text, schema, file, form, &title, &found),
        Err(exit) => put_opened(text, &title, Err(exit)),
    }
}

// The heading of the section of a normal form.
fn heading_of(form: Form) -> &'static [u8]
    ensures heading { result.now ≡ tables_heading form }
{
    match form {
        Form::Third => b"Tables in third normal form",
        Form::Bcnf => b"Tables in Boyce-Codd normal form",
        Form::Fourth => b"Tables in fourth normal form",
    }
}

// The words that ask for the plan of a normal form.
fn words_for_plan(form: Form) -> &'static [u8]
    ensures words { result.now ≡ plan_words form }
{
    match form {
        Form::Third => b"synthesize ",
        Form::Bcnf => b"split bcnf ",
        Form::Fourth => b"split 4nf ",
    }
}

// The words that ask for the SQL tables of a normal form.
fn words_for_sql(form: Form) -> &'static [u8]
    ensures words { result.now ≡ ddl_words form }
{
    match form {
        Form::Third => b"ddl 3nf ",
        Form::Bcnf => b"ddl bcnf ",
        Form::Fourth => b"ddl 4nf ",
    }
}

// Adds the plan of a normal form, how it comes about, and what is said of its tables.
fn put_tables(
    alloc: Global,
    text: &mut Vec<u8>,
    schema: &Schema,
    file: &Argument,
    form: Form,
    title: &[u8],
    found: &ExplainedPlan,
) -> Result<(), OutOfMemory>
    requires plan { IsPlanInForm schema.now form (scheme_sets found.now.plan) }
    requires universe { IsPlanOver (theory_in schema.now) found.now.plan }
    requires reasons { AreReasonsInForm schema.now form found.now.reasons.items }
    ensures added { OnOk result (Adds (Then (Opens title.now (GivesPlan schema.now form))
        (ShowsTables file.now schema.now form (scheme_sets found.now.plan))) text.old.items text.new.items) }
{
    put_plan(alloc, text, schema, form, title, found)?;
    let tables = design_of_plan(alloc, schema, &found.plan, &[])?;
    put_drawing(alloc, text, schema, &tables)?;
    let kept = check_keeps(alloc, schema, &found.plan);
    put_opened(text, b"Rules that they keep", kept)?;
    put_sql(alloc, text, schema, file, form, found, &tables)?;
    Ok(())
}

// Adds the plan of a normal form, and how it comes about.
fn put_plan(
    alloc: Global,
    text: &mut Vec<u8>,
    schema: &Schema,
    form: Form,
    title: &[u8],
    found: &ExplainedPlan,
) -> Result<(), OutOfMemory>
    requires plan { IsPlanInForm schema.now form (scheme_sets found.now.plan) }
    requires universe { IsPlanOver (theory_in schema.now) found.now.plan }
    requires reasons { AreReasonsInForm schema.now form found.now.reasons.items }
    ensures added { OnOk result
        (Adds (OpensExplained title.now (GivesPlan schema.now form) (ExplainsSplit schema.now form))
        text.old.items text.new.items) }
{
    let plain = print_plan(alloc, schema, &found.plan)?;
    let explained = print_explained(alloc, schema, found)?;
    put_explained(text, title, &plain, &explained)?;
    Ok(())
}

// Adds the picture of the tables of a design.
fn put_drawing(
    alloc: Global,
    text: &mut Vec<u8>,
    schema: &Schema,
    tables: &DesignList,
) -> Result<(), OutOfMemory>
    ensures added { OnOk result (text.new.items ≡ text.old.items ++ picture_text schema.now tables.now) }
{
    let drawing = draw_design(alloc, schema, tables)?;
    add(text, &drawing)
}

/// Adds the picture of the tables of a plan, whose names come in the order of its design.
pub fn put_picture(
    alloc: Global,
    text: &mut Vec<u8>,
    schema: &Schema,
    plan: &Plan,
    names: &[Option<Name>],
) -> Result<(), OutOfMemory>
    requires universe { IsPlanOver (theory_in schema.now) plan.now }
    ensures added { OnOk result (Adds (ShowsPicture schema.now names.now (scheme_sets plan.now))
        text.old.items text.new.items) }
{
    let tables = design_of_plan(alloc, schema, plan, names)?;
    put_drawing(alloc, text, schema, &tables)?;
    Ok(())
}

// Adds the SQL tables of a normal form, whose plan has this design.
fn put_sql(
    alloc: Global,
    text: &mut Vec<u8>,
    schema: &Schema,
    file: &Argument,
    form: Form,
    found: &ExplainedPlan,
    tables: &DesignList,
) -> Result<(), OutOfMemory>
    requires plan { IsPlanInForm schema.now form (scheme_sets found.now.plan) }
    requires sound { IsSoundDesign schema.now [] (scheme_sets found.now.plan) tables.now }
    ensures added { OnOk result
        (Adds (ShowsSql file.now schema.now form) text.old.items text.new.items) }
{
    let title = title_of(alloc, b"SQL", words_for_sql(form), file)?;
    put_folded(text, &title, write_tables(alloc, schema, tables))?;
    Ok(())
}
