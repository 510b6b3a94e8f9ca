ghost use Rattle.std.specs.Prelude.{◌<◌, ◌↔◌, IsNone, IfSome, IfOk};
ghost use Rattle.attr_sets.specs.Attributes.{IsFirstFrom};
ghost use Rattle.schema_model.specs.Schemas.{width_of};
ghost use Rattle.schema_match.specs.Columns.{undeclared_attributes, IsDeclaredBy};
ghost use Rattle.schema_match.specs.Namesakes.{AreNamesakes};

use dep_model::OutOfMemory;
use schema_model::Schema;
use std::alloc::Global;

/// The first attribute of a schema whose name the other does not declare, ASCII case aside.
pub fn first_undeclared(schema: &Schema, other: &Schema) -> Option<u8>
    ensures none { IsNone result ↔ IsDeclaredBy other.now schema.now }
    ensures least { IfSome result (IsFirstFrom (undeclared_attributes schema.now other.now) 0) }
    ensures attribute { IfSome result (λ a. a < width_of schema.now) }
{
    let width = schema.width();
    for a in 0..width {
        if other.attribute_named(schema.name(a).bytes()).is_none() {
            return Some(a);
        }
    }
    None
}

// For each attribute of a schema, the attribute of the other that has its name.
pub fn namesakes(alloc: Global, schema: &Schema, other: &Schema) -> Result<Vec<u8>, OutOfMemory>
    requires declared { IsDeclaredBy other.now schema.now }
    ensures namesakes { IfOk result (λ attributes. AreNamesakes schema.now other.now attributes.items) }
{
    let mut attributes = Vec::with_capacity(alloc, schema.width() as usize)?;
    for a in 0..schema.width() {
        match other.attribute_named(schema.name(a).bytes()) {
            Some(b) => attributes.push(b)?,
            None => unreachable!(),
        }
    }
    Ok(attributes)
}
