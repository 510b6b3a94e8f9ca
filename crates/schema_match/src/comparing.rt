ghost use Rattle.std.specs.Prelude.{◌≡◌, ◌<◌, ◌↔◌, [], length, All, IfOk};
ghost use Rattle.schema_model.specs.Schemas.{deps_of};
ghost use Rattle.schema_match.specs.Columns.{IsDeclaredBy};
ghost use Rattle.schema_match.specs.Carried.{IsImpliedBy};
ghost use Rattle.schema_match.specs.Differences.{AreDifferences};

use crate::carrying::carry_dependency;
use crate::naming::namesakes;
use dep_basis::is_implied;
use dep_model::OutOfMemory;
use schema_model::Schema;
use std::alloc::Global;

/// The numbers, from 0 in the order of the file, of the dependencies of a schema that the other does not
/// imply once each attribute is taken by its name. Dependencies of both kinds count.
pub fn differences(alloc: Global, schema: &Schema, other: &Schema) -> Result<Vec<u16>, OutOfMemory>
    requires declared { IsDeclaredBy other.now schema.now }
    ensures differences { IfOk result (λ numbers. AreDifferences schema.now other.now numbers.items) }
    ensures none { IfOk result (λ numbers. (numbers.items ≡ []) ↔ IsImpliedBy other.now schema.now) }
    ensures inside { IfOk result (λ numbers. All (λ k. k < length (deps_of schema.now)) numbers.items) }
{
    let attributes = namesakes(alloc, schema, other)?;
    let mut numbers = Vec::new(alloc);
    for (k, dep) in schema.deps().iter().enumerate() {
        if !is_implied(&other.theory(), carry_dependency(&attributes, *dep)) {
            numbers.push(k as u16)?;
        }
    }
    Ok(numbers)
}
