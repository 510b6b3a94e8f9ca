ghost use Rattle.std.specs.Prelude.{◌≡◌, IfOk, IsTrue, All};
ghost use Rattle.attr_sets.specs.Attributes.{none, IsSubset, IsEmpty};
ghost use Rattle.attr_sets.specs.Sets.{attributes};
ghost use Rattle.schema_model.specs.Columns.{is_column_type};
ghost use Rattle.schema_model.specs.Schemas.{naming_of, names_of, types_of, nullable_of, universe_of};
ghost use Rattle.schema_printer.specs.Parts.{part_names, part_types};

use attr_sets::AttrSet;
use dep_model::OutOfMemory;
use schema_model::{ColumnType, Name, Schema};
use std::alloc::Global;

// The attributes of a set as a schema of their own, without dependencies and with no nullable one.
pub fn part_of(alloc: Global, schema: &Schema, set: AttrSet) -> Result<Schema, OutOfMemory>
    requires within { IsSubset (attributes set) (universe_of schema.now) }
    requires not_empty { IsEmpty (attributes set) → ⊥ }
    ensures naming { IfOk result (λ part. naming_of part ≡ naming_of schema.now) }
    ensures names { IfOk result (λ part. names_of part ≡ part_names schema.now (attributes set)) }
    ensures columns { IfOk result (λ part. types_of part ≡ part_types schema.now (attributes set)) }
    ensures nullable { IfOk result (λ part. nullable_of part ≡ none) }
{
    let names = names_in(alloc, schema, set)?;
    let columns = columns_in(alloc, schema, set)?;
    Ok(Schema::with_columns(
        schema.naming(),
        names,
        columns,
        AttrSet::empty(),
        Vec::new(alloc),
        Vec::new(alloc),
    ))
}

// The names of the attributes of a set.
fn names_in(alloc: Global, schema: &Schema, set: AttrSet) -> Result<Vec<Name>, OutOfMemory>
    ensures names { IfOk result (λ names. names.items ≡ part_names schema.now (attributes set)) }
{
    let mut names = Vec::new(alloc);
    for attribute in 0..schema.width() {
        if set.contains(attribute) {
            names.push(*schema.name(attribute))?;
        }
    }
    Ok(names)
}

// The types of the columns of the attributes of a set.
fn columns_in(alloc: Global, schema: &Schema, set: AttrSet) -> Result<Vec<ColumnType>, OutOfMemory>
    ensures columns { IfOk result (λ columns. columns.items ≡ part_types schema.now (attributes set)) }
    ensures each { IfOk result (λ columns. All (λ column. IsTrue (is_column_type column)) columns.items) }
{
    let mut columns = Vec::new(alloc);
    for attribute in 0..schema.width() {
        if set.contains(attribute) {
            columns.push(schema.column(attribute))?;
        }
    }
    Ok(columns)
}
