//! Whether values that may be missing keep the tables of a plan from being read back.

ghost use Rattle.std.specs.Prelude.{◌≡◌, List, length, map, IfOk, IfErr};
ghost use Rattle.attr_sets.specs.declared.set.AttrSet.{AttrSet};
ghost use Rattle.dep_model.specs.Plans.{schemes_of};
ghost use Rattle.schema_model.specs.Schemas.{nullable_of, width_of, theory_in};
ghost use Rattle.plans.specs.Plans.{IsPlanOver, plan_of, scheme_sets};
ghost use Rattle.optional_tables.specs.Hindrances.{IsUnhindered};
ghost use Rattle.ddl_text.specs.Designs.{keyed};
ghost use Rattle.desk_designs.specs.Designs.{AreReadable, IsSoundDesign, MissingStops};
ghost use Rattle.desk_responses.specs.ResponseValues.{Says};
ghost use Rattle.desk_responses.specs.Responses.{ExitsAs};
ghost use Rattle.desk_responses.specs.declared.status.Status.TheVariants.{Refused};
ghost use Rattle.table_names.specs.TableNames.{GivenNames};
ghost use Rattle.missing_values.specs.Refusals.{IsWithin, refusal_text};

use crate::designs::design_of_plan;
use ddl_text::{DesignList, keyed_tables};
use desk_responses::{EarlyExit, Status};
use missing_values::{MissingRefusal, missing_refusal, print_refusal};
use plans::Plan;
use schema_model::{Name, Schema};
use std::alloc::Global;

/// Tests that nothing keeps the tables of a plan from being read back.
pub fn test_missing(
    alloc: Global,
    schema: &Schema,
    plan: &Plan,
    names: &[Option<Name>],
) -> Result<(), EarlyExit>
    requires universe { IsPlanOver (theory_in schema.now) plan.now }
    ensures ok { IfOk result (λ _. AreReadable schema.now names.now (plan_of plan.now)) }
    ensures exit { IfErr result (ExitsAs (MissingStops schema.now names.now (plan_of plan.now))) }
{
    match required_design(alloc, schema, plan, names) {
        Ok(_) => Ok(()),
        Err(exit) => Err(exit),
    }
}

/// The design of a plan in its order, with the names that are given in this order, where nothing keeps its tables from
/// being read back.
pub fn required_design(
    alloc: Global,
    schema: &Schema,
    plan: &Plan,
    names: &[Option<Name>],
) -> Result<DesignList, EarlyExit>
    requires universe { IsPlanOver (theory_in schema.now) plan.now }
    ensures sound { IfOk result (λ tables. IsSoundDesign schema.now names.now (scheme_sets plan.now) tables) }
    ensures unhindered { IfOk result (λ tables. IsUnhindered (nullable_of schema.now) (map keyed tables)) }
    ensures exit { IfErr result (ExitsAs (MissingStops schema.now names.now (plan_of plan.now))) }
{
    let tables = design_of_plan(alloc, schema, plan, names)?;
    match test_design(alloc, schema, &tables) {
        Ok(()) => Ok(tables),
        Err(exit) => Err(exit),
    }
}

/// Tests that nothing keeps the tables of a design from being read back.
pub fn test_design(alloc: Global, schema: &Schema, tables: &DesignList) -> Result<(), EarlyExit>
    ensures unhindered { IfOk result (λ _. IsUnhindered (nullable_of schema.now) (map keyed tables.now)) }
    ensures exit { (names : GivenNames) (plan : List AttrSet) → IsSoundDesign schema.now names plan tables.now
        → IfErr result (ExitsAs (MissingStops schema.now names (schemes_of plan))) }
{
    let with_keys = keyed_tables(alloc, tables.tables())?;
    match missing_refusal(schema, &with_keys) {
        None => Ok(()),
        Some(refusal) => Err(missing_exit(alloc, schema, tables, refusal)),
    }
}

// Something keeps the tables from being read back.
fn missing_exit(
    alloc: Global,
    schema: &Schema,
    tables: &DesignList,
    refusal: MissingRefusal,
) -> EarlyExit
    requires within { IsWithin (width_of schema.now) (length tables.now) refusal }
    ensures says { ExitsAs (Says Refused (refusal_text schema.now tables.now refusal)) result }
{
    EarlyExit::with_text(
        Status::Refused,
        print_refusal(alloc, schema, tables.tables(), refusal),
    )
}
