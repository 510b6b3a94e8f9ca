ghost use Rattle.std.specs.Prelude.{◌≡◌, List, length, replicate, IfOk};
ghost use Rattle.schema_model.specs.Schemas.{deps_of, lines_of, names_of, width_of};
ghost use Rattle.desk_measures.specs.Untyped.{HasTextsAlone};

use dep_model::OutOfMemory;
use schema_model::{ColumnType, Name, Schema};
use std::alloc::Global;

/// What a schema declares, with text columns alone: by it rows are read whose values may not be
/// of their column's type.
pub fn text_columns_alone(alloc: Global, schema: &Schema) -> Result<Schema, OutOfMemory>
    ensures texts { IfOk result (λ texts. HasTextsAlone schema.now texts) }
{
    let names = names_of(alloc, schema)?;
    let columns = text_columns(alloc, schema.width())?;
    let deps = Vec::from_slice(alloc, schema.deps())?;
    let lines = lines_of(alloc, schema)?;
    Ok(Schema::with_columns(
        schema.naming(),
        names,
        columns,
        schema.nullable(),
        deps,
        lines,
    ))
}

// The names of a schema.
#[tactic(auto, using(dep_model::proofs::ListLemmas::take_next))]
fn names_of(alloc: Global, schema: &Schema) -> Result<Vec<Name>, OutOfMemory>
    ensures names { IfOk result (λ names. names.items ≡ names_of schema.now) }
{
    let mut names = Vec::new(alloc);
    for attribute in 0..schema.width() {
        names.push(*schema.name(attribute))?;
    }
    Ok(names)
}

// This many text columns.
fn text_columns(alloc: Global, count: u8) -> Result<Vec<ColumnType>, OutOfMemory>
    ensures columns { IfOk result (λ columns. columns.items ≡ replicate count ColumnType.Text) }
{
    let mut columns = Vec::new(alloc);
    columns.resize(count as usize, ColumnType::Text)?;
    Ok(columns)
}

// The line of each dependency of a schema.
#[tactic(auto, using(dep_model::proofs::ListLemmas::take_next))]
fn lines_of(alloc: Global, schema: &Schema) -> Result<Vec<u32>, OutOfMemory>
    ensures lines { IfOk result (λ lines. lines.items ≡ lines_of schema.now) }
{
    let mut lines = Vec::new(alloc);
    for k in 0..schema.deps().len() {
        lines.push(schema.line_of(k))?;
    }
    Ok(lines)
}
