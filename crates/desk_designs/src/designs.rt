ghost use Rattle.std.specs.Prelude.{List, ◌≤◌, length, IfOk};
ghost use Rattle.attr_sets.specs.declared.set.AttrSet.{AttrSet};
ghost use Rattle.dep_model.specs.Plans.{schemes_of};
ghost use Rattle.dep_model.specs.Projections.{Covers};
ghost use Rattle.schema_model.specs.Schemas.{width_of, theory_in};
ghost use Rattle.plans.specs.Plans.{IsPlanOver, plan_of, scheme_sets};
ghost use Rattle.ddl_text.specs.Ddl.{ddl_text};
ghost use Rattle.table_names.specs.TableNames.{GivenNames};
ghost use Rattle.desk_designs.specs.Designs.{IsSoundDesign, WithoutMissing, WritesForm, WritesPlan, WritesTables};
ghost use Rattle.desk_responses.specs.ResponseValues.{Says};
ghost use Rattle.desk_responses.specs.Responses.{response_value, RespondsAs};
ghost use Rattle.desk_responses.specs.declared.status.Status.TheVariants.{Yes};

use crate::decomposition::plan_in_form;
use crate::join::test_loss;
use crate::missing::{required_design, test_design};
use ddl_text::{DesignList, design, print_ddl};
use dep_model::{Form, OutOfMemory};
use design_order::in_design_order;
use desk_responses::{EarlyExit, Response, Status};
use plans::{MOST_SCHEMES, Plan};
use schema_model::{Name, Schema};
use std::alloc::Global;
use table_names::MOST_TABLES;

/// The statements that create the tables of a normal form.
pub fn write_form(alloc: Global, schema: &Schema, form: Form) -> Result<Response, EarlyExit>
    ensures response { RespondsAs (WritesForm schema.now form) result }
{
    let plan = match plan_in_form(alloc, schema, form) {
        Ok(plan) => plan,
        Err(exit) => return Err(exit),
    };
    let tables = design_of_plan(alloc, schema, &plan, &[])?;
    write_tables(alloc, schema, &tables)
}

/// The statements that create the tables of a design, where no value of a key may be missing and none of an attribute
/// of two tables.
pub fn write_tables(
    alloc: Global,
    schema: &Schema,
    tables: &DesignList,
) -> Result<Response, EarlyExit>
    ensures response { (names : GivenNames) (plan : List AttrSet) → IsSoundDesign schema.now names plan tables.now
        → RespondsAs (WithoutMissing schema.now names (schemes_of plan) (WritesTables schema.now names plan))
        result }
{
    match test_design(alloc, schema, tables) {
        Ok(()) => Ok(tables_response(alloc, schema, tables)?),
        Err(exit) => Err(exit),
    }
}

/// The statements that create the tables of a plan, where it loses nothing; the names of its tables come in the
/// order of its design.
pub fn write_plan(
    alloc: Global,
    schema: &Schema,
    plan: &Plan,
    names: &[Option<Name>],
) -> Result<Response, EarlyExit>
    requires universe { IsPlanOver (theory_in schema.now) plan.now }
    requires within_limit { length (plan_of plan.now) ≤ MOST_SCHEMES }
    requires covers { Covers (width_of schema.now) (plan_of plan.now) }
    ensures response { RespondsAs (WritesPlan schema.now names.now (plan_of plan.now)) result }
{
    let tables = match required_design(alloc, schema, plan, names) {
        Ok(tables) => tables,
        Err(exit) => return Err(exit),
    };
    match test_loss(alloc, schema, plan) {
        Ok(()) => {}
        Err(exit) => return Err(exit),
    }
    Ok(tables_response(alloc, schema, &tables)?)
}

// The statements that create the tables of a design.
fn tables_response(
    alloc: Global,
    schema: &Schema,
    tables: &DesignList,
) -> Result<Response, OutOfMemory>
    ensures response { IfOk result
        (λ response. Says Yes (ddl_text schema.now tables.now) (response_value response)) }
{
    Ok(Response::with_text(Status::Yes, print_ddl(alloc, schema, tables)?))
}

/// The design of a plan in its order, with the names that are given in this order. No memory holds a plan of more
/// tables than have a name.
pub fn design_of_plan(
    alloc: Global,
    schema: &Schema,
    plan: &Plan,
    names: &[Option<Name>],
) -> Result<DesignList, OutOfMemory>
    requires universe { IsPlanOver (theory_in schema.now) plan.now }
    ensures sound { IfOk result (λ tables. IsSoundDesign schema.now names.now (scheme_sets plan.now) tables) }
{
    let ordered = in_design_order(alloc, &schema.theory(), plan)?;
    if ordered.schemes().len() > MOST_TABLES as usize {
        return Err(OutOfMemory);
    }
    Ok(design(alloc, schema, &ordered, names)?)
}
