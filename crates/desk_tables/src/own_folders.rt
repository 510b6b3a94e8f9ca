//! Rows as tables in a folder of their own.

ghost use Rattle.std.specs.Prelude.{◌≡◌, ◌≤◌, ◌<◌, ◌^◌, true, List, length, IfOk, IfErr, IsTrue};
ghost use Rattle.attr_sets.specs.declared.set.AttrSet.{AttrSet};
ghost use Rattle.table_names.specs.TableNames.{GivenNames};
ghost use Rattle.desk_designs.specs.Designs.{IsSoundDesign};
ghost use Rattle.dep_model.specs.Projections.{Covers, IsLossless};
ghost use Rattle.schema_model.specs.Schemas.{theory_of, width_of, theory_in};
ghost use Rattle.dep_model.specs.Tuples.{IsOver};
ghost use Rattle.plans.specs.Plans.{IsPlanOver, plan_of, scheme_sets};
ghost use Rattle.desk_responses.specs.ResponseValues.{Says};
ghost use Rattle.desk_responses.specs.Responses.{ExitsAs, RespondsAs, own_folder_value};
ghost use Rattle.desk_responses.specs.declared.status.Status.TheVariants.{Refused};
ghost use Rattle.desk_tables.specs.OwnFolders.{FolderStops, IsFolderOf, Looks, MigratesInto, MigratesPlanInto};
ghost use Rattle.desk_tables.specs.OwnFolders.{MigratesRowsInto, not_empty_text};

use crate::migration::migrate_rows;
use arguments::Argument;
use ddl_text::{DesignList, print_ddl};
use dep_model::{Form, OutOfMemory};
use desk_designs::{plan_in_form, required_design, test_loss};
use desk_responses::{EarlyExit, OwnFolder, Response, Status};
use desk_texts::line_of;
use plans::{MOST_SCHEMES, Plan};
use row_store::{Hashing, Rows};
use schema_model::{Name, Schema};
use std::alloc::Global;

/// Rows as tables in a normal form, in a folder of their own; `is_free` is the answer to a look at its name.
pub fn migrate_form_into(
    alloc: Global,
    hashing: Hashing,
    schema: &Schema,
    form: Form,
    folder: &Argument,
    is_free: bool,
    rows: Rows,
) -> Result<Response, EarlyExit>
    requires over { IsOver (width_of schema.now) rows }
    requires fits_u32 { length rows < 2 ^ 32 }
    ensures response { (looks : Looks) → IsTrue (looks folder.now is_free)
        → RespondsAs (MigratesInto looks schema.now form folder.now rows) result }
{
    let plan = match plan_in_form(alloc, schema, form) {
        Ok(plan) => plan,
        Err(exit) => return Err(exit),
    };
    let tables = match required_design(alloc, schema, &plan, &[]) {
        Ok(tables) => tables,
        Err(exit) => return Err(exit),
    };
    match test_folder(alloc, folder, is_free) {
        Ok(()) => {}
        Err(exit) => return Err(exit),
    }
    migrate_rows_into(alloc, hashing, schema, &plan, &[], &tables, folder, rows)
}

/// Rows as tables of a plan, where it loses nothing, in a folder of their own; `is_free` is the answer to a
/// look at its name.
pub fn migrate_plan_into(
    alloc: Global,
    hashing: Hashing,
    schema: &Schema,
    plan: &Plan,
    names: &[Option<Name>],
    folder: &Argument,
    is_free: bool,
    rows: Rows,
) -> Result<Response, EarlyExit>
    requires universe { IsPlanOver (theory_in schema.now) plan.now }
    requires within_limit { length (plan_of plan.now) ≤ MOST_SCHEMES }
    requires covers { Covers (width_of schema.now) (plan_of plan.now) }
    requires over { IsOver (width_of schema.now) rows }
    requires fits_u32 { length rows < 2 ^ 32 }
    ensures response { (looks : Looks) → IsTrue (looks folder.now is_free)
        → RespondsAs (MigratesPlanInto looks schema.now names.now (plan_of plan.now) folder.now rows) result }
{
    let tables = match required_design(alloc, schema, plan, names) {
        Ok(tables) => tables,
        Err(exit) => return Err(exit),
    };
    match test_folder(alloc, folder, is_free) {
        Ok(()) => {}
        Err(exit) => return Err(exit),
    }
    match test_loss(alloc, schema, plan) {
        Ok(()) => {}
        Err(exit) => return Err(exit),
    }
    migrate_rows_into(alloc, hashing, schema, plan, names, &tables, folder, rows)
}

// Rows as tables of a plan that loses nothing, if they are legal, in a folder of their own.
fn migrate_rows_into(
    alloc: Global,
    hashing: Hashing,
    schema: &Schema,
    plan: &Plan,
    names: &[Option<Name>],
    tables: &DesignList,
    folder: &Argument,
    rows: Rows,
) -> Result<Response, EarlyExit>
    requires over { IsOver (width_of schema.now) rows }
    requires fits_u32 { length rows < 2 ^ 32 }
    requires universe { IsPlanOver (theory_in schema.now) plan.now }
    requires sound { IsSoundDesign schema.now names.now (scheme_sets plan.now) tables.now }
    requires lossless { IsLossless (width_of schema.now) (theory_of schema.now) (plan_of plan.now) }
    ensures response { RespondsAs
        (MigratesRowsInto schema.now names.now (scheme_sets plan.now) folder.now rows) result }
{
    let own = folder_of(alloc, schema, tables, folder)?;
    match migrate_rows(alloc, hashing, schema, plan, names, rows) {
        Ok(response) => Ok(response.in_own_folder(own)),
        Err(EarlyExit::Answered(response)) => Ok(response.in_own_folder(own)),
        Err(EarlyExit::OutOfMemory) => Err(EarlyExit::OutOfMemory),
    }
}

// The folder of this name, with the statements that make the tables of a design.
fn folder_of(
    alloc: Global,
    schema: &Schema,
    tables: &DesignList,
    name: &Argument,
) -> Result<OwnFolder, OutOfMemory>
    ensures folder { (names : GivenNames) (plan : List AttrSet) → IsSoundDesign schema.now names plan tables.now
        → IfOk result (λ folder. IsFolderOf schema.now names plan name.now (own_folder_value folder)) }
{
    Ok(OwnFolder {
        name: Vec::from_slice(alloc, name.bytes())?,
        script: print_ddl(alloc, schema, tables)?,
    })
}

// Tests whether a look found nothing, or an empty folder.
fn test_folder(alloc: Global, folder: &Argument, is_free: bool) -> Result<(), EarlyExit>
    ensures ok { IfOk result (λ _. is_free ≡ true) }
    ensures exit { (looks : Looks) → IsTrue (looks folder.now is_free)
        → IfErr result (ExitsAs (FolderStops looks folder.now)) }
{
    if is_free {
        Ok(())
    } else {
        Err(not_empty_exit(alloc, folder))
    }
}

// What has the name is no empty folder.
fn not_empty_exit(alloc: Global, folder: &Argument) -> EarlyExit
    ensures says { ExitsAs (Says Refused (not_empty_text folder.now)) result }
{
    EarlyExit::with_text(Status::Refused, not_empty_line(alloc, folder))
}

fn not_empty_line(alloc: Global, folder: &Argument) -> Result<Vec<u8>, OutOfMemory>
    ensures line { IfOk result (λ text. text.items ≡ not_empty_text folder.now) }
{
    line_of(
        alloc,
        b"refused: ",
        folder.bytes(),
        b" is not an empty folder",
    )
}
