//! Rows as tables whose files stand beside those that are read.

ghost use Rattle.std.specs.Prelude.{◌≤◌, ◌<◌, ◌^◌, [], ◌∷◌, length};
ghost use Rattle.dep_model.specs.Projections.{Covers};
ghost use Rattle.schema_model.specs.Schemas.{width_of, theory_in};
ghost use Rattle.dep_model.specs.Tuples.{IsOver};
ghost use Rattle.plans.specs.Plans.{IsPlanOver, plan_of};
ghost use Rattle.desk_responses.specs.Responses.{RespondsAs};
ghost use Rattle.desk_tables.specs.Overwriting.{MigratesHere, MigratesPlanHere};

use crate::migration::{migrate_by_plan, migrate_rows};
use crate::overwriting::test_file;
use dep_model::Form;
use desk_designs::{plan_in_form, test_missing};
use desk_responses::{EarlyExit, Response};
use plans::{MOST_SCHEMES, Plan};
use row_store::{Hashing, Rows};
use schema_model::{Name, Schema};
use std::alloc::Global;

/// Rows as tables in a normal form, where none of their files is one of the files of these names.
pub fn migrate_form_here(
    alloc: Global,
    hashing: Hashing,
    schema: &Schema,
    form: Form,
    schema_file: &[u8],
    rows_file: &[u8],
    rows: Rows,
) -> Result<Response, EarlyExit>
    requires over { IsOver (width_of schema.now) rows }
    requires fits_u32 { length rows < 2 ^ 32 }
    ensures response { RespondsAs
        (MigratesHere schema.now form (schema_file.now ∷ rows_file.now ∷ []) rows) result }
{
    let plan = match plan_in_form(alloc, schema, form) {
        Ok(plan) => plan,
        Err(exit) => return Err(exit),
    };
    match test_missing(alloc, schema, &plan, &[]) {
        Ok(()) => {}
        Err(exit) => return Err(exit),
    }
    match test_file(alloc, &plan, &[], schema_file) {
        Ok(()) => {}
        Err(exit) => return Err(exit),
    }
    match test_file(alloc, &plan, &[], rows_file) {
        Ok(()) => {}
        Err(exit) => return Err(exit),
    }
    migrate_rows(alloc, hashing, schema, &plan, &[], rows)
}

/// Rows as tables of a plan, where it loses nothing and none of their files is one of these.
pub fn migrate_plan_here(
    alloc: Global,
    hashing: Hashing,
    schema: &Schema,
    plan: &Plan,
    names: &[Option<Name>],
    schema_file: &[u8],
    plan_file: &[u8],
    rows_file: &[u8],
    rows: Rows,
) -> Result<Response, EarlyExit>
    requires universe { IsPlanOver (theory_in schema.now) plan.now }
    requires within_limit { length (plan_of plan.now) ≤ MOST_SCHEMES }
    requires covers { Covers (width_of schema.now) (plan_of plan.now) }
    requires over { IsOver (width_of schema.now) rows }
    requires fits_u32 { length rows < 2 ^ 32 }
    ensures response { RespondsAs
        (MigratesPlanHere schema.now names.now (plan_of plan.now)
        (schema_file.now ∷ plan_file.now ∷ rows_file.now ∷ []) rows) result }
{
    match test_missing(alloc, schema, plan, names) {
        Ok(()) => {}
        Err(exit) => return Err(exit),
    }
    match test_file(alloc, plan, names, schema_file) {
        Ok(()) => {}
        Err(exit) => return Err(exit),
    }
    match test_file(alloc, plan, names, plan_file) {
        Ok(()) => {}
        Err(exit) => return Err(exit),
    }
    match test_file(alloc, plan, names, rows_file) {
        Ok(()) => {}
        Err(exit) => return Err(exit),
    }
    migrate_by_plan(alloc, hashing, schema, plan, names, rows)
}
