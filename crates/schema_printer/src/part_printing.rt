ghost use Rattle.std.specs.Prelude.{◌≡◌, All, IfOk};
ghost use Rattle.attr_sets.specs.Attributes.{IsSubset, IsEmpty};
ghost use Rattle.attr_sets.specs.Sets.{attributes};
ghost use Rattle.dep_model.specs.Deps.{dependencies_of, IsDepWithin};
ghost use Rattle.schema_model.specs.Schemas.{universe_of};
ghost use Rattle.schema_printer.specs.Parts.{part_text};

use crate::parts::part_of;
use crate::{add_deps, add_nullable, print_deps};
use attr_sets::AttrSet;
use dep_model::{Dep, OutOfMemory};
use schema_model::Schema;
use std::alloc::Global;

/// The lines that declare the attributes of a set, as a schema has them, and a line for each of these
/// dependencies.
pub fn print_part(
    alloc: Global,
    schema: &Schema,
    set: AttrSet,
    deps: &[Dep],
) -> Result<Vec<u8>, OutOfMemory>
    requires within { IsSubset (attributes set) (universe_of schema.now) }
    requires not_empty { IsEmpty (attributes set) → ⊥ }
    requires deps { All (IsDepWithin (universe_of schema.now)) deps.now }
    ensures text { IfOk result
        (λ text. text.items ≡ part_text schema.now (attributes set) (dependencies_of deps.now)) }
{
    let part = part_of(alloc, schema, set)?;
    let mut text = print_deps(alloc, &part, &[])?;
    add_nullable(&mut text, schema, schema.nullable().intersection(set))?;
    add_deps(&mut text, schema, deps)?;
    Ok(text)
}
