ghost use Rattle.std.specs.Prelude.{◌≡◌, ◌<◌, ◌^◌, ◌++◌, ◌==◌, ◌&&◌, [], Bool, length, nat_lt, if◌then◌else◌, IfOk};
ghost use Rattle.std.specs.Prelude.{OnOk};
ghost use Rattle.attr_sets.specs.Attributes.{IsSubset, count_below};
ghost use Rattle.attr_sets.specs.Sets.{attributes};
ghost use Rattle.row_groups.specs.Interning.{IsInterned};
ghost use Rattle.dep_model.specs.Deps.{IsDepWithin, dependency_of};
ghost use Rattle.schema_model.specs.Schemas.{universe_of, width_of};
ghost use Rattle.dep_model.specs.Tuples.{IsOver};
ghost use Rattle.desk_responses.specs.Responses.{response_value, RespondsAs};
ghost use Rattle.desk_measures.specs.Findings.{Adds};
ghost use Rattle.desk_measures.specs.Measures.{AreAttributes, AreDetails, FindsWhere, IsAttributeMeasured};
ghost use Rattle.desk_measures.specs.Measures.{IsMeasured, MeasuresRows, attribute_text, breach_text, change_text};
ghost use Rattle.desk_measures.specs.Measures.{counted_text, groups_text, lack_text, measure_text, missing_words};
ghost use Rattle.desk_measures.specs.Measures.{verdict_text};
ghost use Rattle.desk_measures.specs.Offences.{OfDependency, OfEachDependency};

use crate::columns::{put_columns, put_name};
use crate::telling::{Told, both, put_each, status_of};
use attr_sets::{AttrSet, MOST_ATTRIBUTES};
use byte_texts::add;
use dep_model::{Dep, OutOfMemory};
use desk_responses::{EarlyExit, Response, put_line};
use itoa::Buffer;
use row_groups::Interned;
use row_measures::{Measure, measure};
use row_store::{Hashing, Rows};
use schema_model::Schema;
use schema_printer::add_dep;
use std::alloc::Global;

/// How far rows are from legal, of which some values may not be of their column's type.
pub fn measure_rows(
    alloc: Global,
    hashing: Hashing,
    schema: &Schema,
    rows: &Rows,
) -> Result<Response, EarlyExit>
    requires over { IsOver (width_of schema.now) rows.now }
    requires fits_u32 { length rows.now < 2 ^ 32 }
    ensures response { RespondsAs (MeasuresRows schema.now rows.now) result }
{
    Ok(measure_response(alloc, hashing, schema, rows)?)
}

fn measure_response(
    alloc: Global,
    hashing: Hashing,
    schema: &Schema,
    rows: &Rows,
) -> Result<Response, OutOfMemory>
    requires over { IsOver (width_of schema.now) rows.now }
    requires fits_u32 { length rows.now < 2 ^ 32 }
    ensures response { IfOk result
        (λ response. MeasuresRows schema.now rows.now (response_value response)) }
{
    let mut text = Vec::new(alloc);
    let typed = put_columns(alloc, &mut text, schema, rows)?;
    let codes = Interned::intern(alloc, hashing, schema.width(), rows)?;
    let legal = put_each(alloc, &mut text, schema, rows, &codes, Told::Measures)?;
    Ok(Response::with_text(status_of(both(typed, legal)), text))
}

// The lines of one dependency.
pub fn put_measure_of(
    alloc: Global,
    text: &mut Vec<u8>,
    schema: &Schema,
    rows: &Rows,
    codes: &Interned,
    k: usize,
    dep: Dep,
) -> Result<bool, OutOfMemory>
    requires codes { IsInterned (width_of schema.now) rows.now codes.now }
    requires dep { IsDepWithin (universe_of schema.now) dep }
    ensures added { IfOk result (λ clean.
        Adds (IsMeasured schema.now rows.now k (dependency_of dep))
        text.old.items text.new.items clean) }
{
    let found = measure(alloc, rows, schema.width(), codes, dep)?;
    put_measure_line(alloc, text, schema, k, dep, found)?;
    put_details(alloc, text, schema, rows, codes, dep, found.groups != 0)?;
    Ok(found.groups == 0)
}

// The line of a dependency.
fn put_measure_line(
    alloc: Global,
    text: &mut Vec<u8>,
    schema: &Schema,
    k: usize,
    dep: Dep,
    found: Measure,
) -> Result<(), OutOfMemory>
    ensures added { OnOk result (text.new.items
        ≡ text.old.items ++ measure_text schema.now k (dependency_of dep) found) }
{
    add(text, b"line ")?;
    put_line(alloc, text, schema, k)?;
    add(text, b": ")?;
    add_dep(text, schema, dep)?;
    add(text, b" ")?;
    put_verdict(text, dep, found)?;
    add(text, b"\n")
}

#[tactic(auto, unfolding(crate::specs::Measures::verdict_text))]
fn put_verdict(text: &mut Vec<u8>, dep: Dep, found: Measure) -> Result<(), OutOfMemory>
    ensures added { OnOk result (text.new.items
        ≡ text.old.items ++ verdict_text (dependency_of dep) found) }
{
    if found.groups == 0 {
        return add(text, b"holds");
    }
    add(text, b"broken: ")?;
    put_breach(text, dep, found)
}

#[tactic(auto, unfolding(crate::specs::Measures::breach_text))]
fn put_breach(text: &mut Vec<u8>, dep: Dep, found: Measure) -> Result<(), OutOfMemory>
    ensures added { OnOk result (text.new.items
        ≡ text.old.items ++ breach_text (dependency_of dep) found) }
{
    match dep {
        Dep::Fd { .. } => put_change(text, found),
        Dep::Mvd { .. } => put_lack(text, found),
    }
}

// Broken groups, and the rows in them.
#[tactic(auto, unfolding(crate::specs::Measures::groups_text))]
fn put_groups(text: &mut Vec<u8>, found: Measure) -> Result<(), OutOfMemory>
    ensures added { OnOk result (text.new.items ≡ text.old.items ++ groups_text found) }
{
    if found.groups == 1 {
        put_counted(text, found, b" group, ", b" rows in it, ")
    } else {
        put_counted(text, found, b" groups, ", b" rows in them, ")
    }
}

fn put_counted(
    text: &mut Vec<u8>,
    found: Measure,
    of_groups: &[u8],
    of_rows: &[u8],
) -> Result<(), OutOfMemory>
    ensures added { OnOk result (text.new.items
        ≡ text.old.items ++ counted_text found of_groups.now of_rows.now) }
{
    add(text, Buffer::new().format(found.groups).as_bytes())?;
    add(text, of_groups)?;
    add(text, Buffer::new().format(found.rows).as_bytes())?;
    add(text, of_rows)
}

// What is wrong with a functional dependency.
fn put_change(text: &mut Vec<u8>, found: Measure) -> Result<(), OutOfMemory>
    ensures added { OnOk result (text.new.items ≡ text.old.items ++ change_text found) }
{
    put_groups(text, found)?;
    add(text, Buffer::new().format(found.amount).as_bytes())?;
    add(text, b" must change")
}

// What is wrong with a multivalued dependency.
fn put_lack(text: &mut Vec<u8>, found: Measure) -> Result<(), OutOfMemory>
    ensures added { OnOk result (text.new.items ≡ text.old.items ++ lack_text found) }
{
    put_groups(text, found)?;
    add(text, Buffer::new().format(found.amount).as_bytes())?;
    put_missing_words(text, found.amount)
}

#[tactic(auto, unfolding(crate::specs::Measures::missing_words))]
fn put_missing_words(text: &mut Vec<u8>, amount: u64) -> Result<(), OutOfMemory>
    ensures added { OnOk result (text.new.items ≡ text.old.items ++ missing_words amount) }
{
    if amount == 1 {
        add(text, b" is missing")
    } else {
        add(text, b" are missing")
    }
}

// The lines below that of a dependency.
fn put_details(
    alloc: Global,
    text: &mut Vec<u8>,
    schema: &Schema,
    rows: &Rows,
    codes: &Interned,
    dep: Dep,
    broken: bool,
) -> Result<(), OutOfMemory>
    requires codes { IsInterned (width_of schema.now) rows.now codes.now }
    requires dep { IsDepWithin (universe_of schema.now) dep }
    ensures added { OnOk result ((clean : Bool)
        × Adds (AreDetails schema.now rows.now (dependency_of dep) broken)
        text.old.items text.new.items clean) }
{
    match dep {
        Dep::Fd { lhs, rhs } => {
            let own = rhs.difference(lhs);
            let shown = has_details(broken, own);
            put_attributes_where(alloc, text, schema, rows, codes, lhs, own, shown)
        }
        Dep::Mvd { .. } => Ok(()),
    }
}

// Whether there are lines below that of a functional dependency, with these attributes on the
// right side alone.
fn has_details(broken: bool, own: AttrSet) -> bool
    ensures details { result ≡ (broken && nat_lt 1 (count_below (attributes own) MOST_ATTRIBUTES)) }
{
    broken && own.len() > 1
}

// A line for each attribute of a set that a left side does not determine, where they are shown.
#[tactic(auto, using(crate::proofs::FindingLemmas::adds_nothing))]
fn put_attributes_where(
    alloc: Global,
    text: &mut Vec<u8>,
    schema: &Schema,
    rows: &Rows,
    codes: &Interned,
    lhs: AttrSet,
    own: AttrSet,
    shown: bool,
) -> Result<(), OutOfMemory>
    requires codes { IsInterned (width_of schema.now) rows.now codes.now }
    requires lhs { IsSubset (attributes lhs) (universe_of schema.now) }
    ensures added { OnOk result ((clean : Bool)
        × Adds (FindsWhere shown
        (AreAttributes schema.now rows.now (attributes lhs) (attributes own)))
        text.old.items text.new.items clean) }
{
    if shown {
        put_attributes(alloc, text, schema, rows, codes, lhs, own)?;
    }
    Ok(())
}

// A line for each attribute of a set that a left side does not determine.
#[tactic(auto, using(crate::proofs::FindingLemmas::adds_none))]
fn put_attributes(
    alloc: Global,
    text: &mut Vec<u8>,
    schema: &Schema,
    rows: &Rows,
    codes: &Interned,
    lhs: AttrSet,
    own: AttrSet,
) -> Result<bool, OutOfMemory>
    requires codes { IsInterned (width_of schema.now) rows.now codes.now }
    requires lhs { IsSubset (attributes lhs) (universe_of schema.now) }
    ensures added { IfOk result (λ clean.
        Adds (AreAttributes schema.now rows.now (attributes lhs) (attributes own))
        text.old.items text.new.items clean) }
{
    let mut clean = true;
    for attribute in 0..schema.width() {
        let is_own = own.contains(attribute);
        let one = put_attribute(alloc, text, schema, rows, codes, lhs, attribute, is_own)?;
        clean = both(clean, one);
    }
    Ok(clean)
}

#[tactic(auto, using(crate::proofs::FindingLemmas::adds_nothing))]
fn put_attribute(
    alloc: Global,
    text: &mut Vec<u8>,
    schema: &Schema,
    rows: &Rows,
    codes: &Interned,
    lhs: AttrSet,
    attribute: u8,
    is_own: bool,
) -> Result<bool, OutOfMemory>
    requires codes { IsInterned (width_of schema.now) rows.now codes.now }
    requires lhs { IsSubset (attributes lhs) (universe_of schema.now) }
    requires attribute { attribute < width_of schema.now }
    ensures added { IfOk result (λ clean.
        Adds (FindsWhere is_own
        (IsAttributeMeasured schema.now rows.now (attributes lhs) attribute))
        text.old.items text.new.items clean) }
{
    if is_own {
        put_attribute_of(alloc, text, schema, rows, codes, lhs, attribute)
    } else {
        Ok(true)
    }
}

fn put_attribute_of(
    alloc: Global,
    text: &mut Vec<u8>,
    schema: &Schema,
    rows: &Rows,
    codes: &Interned,
    lhs: AttrSet,
    attribute: u8,
) -> Result<bool, OutOfMemory>
    requires codes { IsInterned (width_of schema.now) rows.now codes.now }
    requires lhs { IsSubset (attributes lhs) (universe_of schema.now) }
    requires attribute { attribute < width_of schema.now }
    ensures added { IfOk result (λ clean.
        Adds (IsAttributeMeasured schema.now rows.now (attributes lhs) attribute)
        text.old.items text.new.items clean) }
{
    let rhs = AttrSet::single(attribute);
    let found = measure(alloc, rows, schema.width(), codes, Dep::Fd { lhs, rhs })?;
    put_attribute_where(text, schema, attribute, found)?;
    Ok(found.groups == 0)
}

// The line of an attribute that a left side does not determine.
fn put_attribute_where(
    text: &mut Vec<u8>,
    schema: &Schema,
    attribute: u8,
    found: Measure,
) -> Result<(), OutOfMemory>
    requires attribute { attribute < width_of schema.now }
    ensures added { OnOk result (text.new.items ≡ text.old.items
        ++ (if found.groups == 0 then [] else attribute_text schema.now attribute found)) }
{
    if found.groups == 0 {
        return Ok(());
    }
    put_attribute_line(text, schema, attribute, found)
}

fn put_attribute_line(
    text: &mut Vec<u8>,
    schema: &Schema,
    attribute: u8,
    found: Measure,
) -> Result<(), OutOfMemory>
    requires attribute { attribute < width_of schema.now }
    ensures added { OnOk result (text.new.items
        ≡ text.old.items ++ attribute_text schema.now attribute found) }
{
    add(text, b"  ")?;
    put_name(text, schema, attribute)?;
    add(text, b": ")?;
    put_change(text, found)?;
    add(text, b"\n")
}
