//! What is told of each dependency of a schema, one after the other.

ghost use Rattle.std.specs.Prelude.{◌≡◌, ◌&&◌, IfOk};
ghost use Rattle.row_groups.specs.Interning.{IsInterned};
ghost use Rattle.dep_model.specs.Deps.{IsDepWithin, dependency_of};
ghost use Rattle.schema_model.specs.Schemas.{universe_of, width_of};
ghost use Rattle.desk_measures.specs.Findings.{Adds, status_of};
ghost use Rattle.desk_measures.specs.Offences.{OfDependency, OfEachDependency};
ghost use Rattle.desk_measures.specs.BreachFindings.{Tells};

use crate::measures::put_measure_of;
use crate::offences::{put_parts_of, put_rows_of};
use dep_model::{Dep, OutOfMemory};
use desk_responses::Status;
use row_groups::Interned;
use row_store::{FlatValues, Rows};
use schema_model::Schema;
use std::alloc::Global;

// What is told of a dependency.
#[derive(Clone, Copy, Debug)]
pub enum Told {
    // how far the rows are from obeying it
    Measures,
    // the classes of the groups that break it, or those groups
    Classes,
    // the rows of the groups that break it
    Rows,
}

// What is told of each dependency, at the end of a text, and whether nothing is wrong.
#[tactic(auto, using(crate::proofs::FindingLemmas::adds_none))]
pub fn put_each(
    alloc: Global,
    text: &mut Vec<u8>,
    schema: &Schema,
    rows: &Rows,
    codes: &Interned,
    told: Told,
) -> Result<bool, OutOfMemory>
    requires codes { IsInterned (width_of schema.now) rows.now codes.now }
    ensures added { IfOk result (λ clean.
        Adds (OfEachDependency schema.now (Tells told schema.now rows.now))
        text.old.items text.new.items clean) }
{
    let mut fields = FlatValues::new(alloc);
    let mut clean = true;
    for k in 0..schema.deps().len() {
        let own = put_one(alloc, text, &mut fields, schema, rows, codes, k, told)?;
        clean = both(clean, own);
    }
    Ok(clean)
}

// What is told of the dependency at a position, if there is one.
fn put_one(
    alloc: Global,
    text: &mut Vec<u8>,
    fields: &mut FlatValues,
    schema: &Schema,
    rows: &Rows,
    codes: &Interned,
    k: usize,
    told: Told,
) -> Result<bool, OutOfMemory>
    requires codes { IsInterned (width_of schema.now) rows.now codes.now }
    ensures added { IfOk result (λ clean.
        Adds (OfDependency schema.now (Tells told schema.now rows.now) k)
        text.old.items text.new.items clean) }
{
    match schema.deps().get(k) {
        Some(dep) => put_told(alloc, text, fields, schema, rows, codes, k, *dep, told),
        None => Ok(true),
    }
}

fn put_told(
    alloc: Global,
    text: &mut Vec<u8>,
    fields: &mut FlatValues,
    schema: &Schema,
    rows: &Rows,
    codes: &Interned,
    k: usize,
    dep: Dep,
    told: Told,
) -> Result<bool, OutOfMemory>
    requires codes { IsInterned (width_of schema.now) rows.now codes.now }
    requires dep { IsDepWithin (universe_of schema.now) dep }
    ensures added { IfOk result (λ clean.
        Adds (Tells told schema.now rows.now k (dependency_of dep))
        text.old.items text.new.items clean) }
{
    match told {
        Told::Measures => put_measure_of(alloc, text, schema, rows, codes, k, dep),
        Told::Classes => put_parts_of(alloc, text, fields, schema, rows, codes, k, dep),
        Told::Rows => put_rows_of(alloc, text, fields, schema, rows, codes, k, dep),
    }
}

// Yes where nothing is wrong.
pub fn status_of(clean: bool) -> Status
    ensures status { result ≡ status_of clean }
{
    if clean { Status::Yes } else { Status::No }
}

// Whether nothing is wrong in either.
pub fn both(first: bool, second: bool) -> bool
    ensures both { result ≡ (first && second) }
{
    first && second
}
