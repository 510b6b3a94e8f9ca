ghost use Rattle.desk_tables.specs.Migrations.{Samples};
ghost use Rattle.desk_responses.specs.Responses.{RespondsAs};

use crate::migration::migrate_rows;
use dep_model::Form;
use desk_designs::plan_in_form;
use desk_responses::{EarlyExit, Response};
use row_store::Hashing;
use sample_rows::{Persons, sample_rows, sample_schema};
use std::alloc::Global;

/// The rows of so many invented persons, as tables in fourth normal form.
pub fn migrate_sample(
    alloc: Global,
    hashing: Hashing,
    persons: Persons,
) -> Result<Response, EarlyExit>
    ensures response { RespondsAs (Samples persons.number) result }
{
    let schema = sample_schema(alloc)?;
    let rows = sample_rows(alloc, persons.number)?;
    let plan = match plan_in_form(alloc, &schema, Form::Fourth) {
        Ok(plan) => plan,
        Err(exit) => return Err(exit),
    };
    migrate_rows(alloc, hashing, &schema, &plan, &[], rows)
}
