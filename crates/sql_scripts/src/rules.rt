ghost use Rattle.std.specs.Prelude.{◌≡◌, ◌++◌, codes, IfOk};
ghost use Rattle.attr_sets.specs.Sets.{attributes};
ghost use Rattle.dep_model.specs.Deps.{dependency_of};
ghost use Rattle.dep_model.specs.Dependencies.{fd, mvd};
ghost use Rattle.sql_check.specs.Checks.{check_query};
ghost use Rattle.sql_scripts.specs.Checking.{breaches_text, rule_line, rule_text};

use crate::selecting::line_of_query;
use crate::several::several_text;
use crate::unpaired::unpaired_text;
use attr_sets::AttrSet;
use byte_texts::{add, add_number};
use dep_model::{Dep, OutOfMemory};
use schema_model::Schema;
use schema_printer::add_dep;
use std::alloc::Global;

// A rule and the query for what breaks it.
#[tactic(auto, unfolding(crate::specs::Checking::rule_text))]
pub fn rule_text(
    alloc: Global,
    schema: &Schema,
    table: &[u8],
    line: u32,
    dep: Dep,
) -> Result<Vec<u8>, OutOfMemory>
    ensures text { IfOk result (λ text.
        text.items ≡ rule_text schema.now table.now line (dependency_of dep)) }
{
    let query = breaches_text(alloc, schema, table, line, dep)?;
    rule_line(alloc, schema, line, dep, &query)
}

// A rule: its line in the schema's file, the dependency, and what is said of it.
pub fn rule_line(
    alloc: Global,
    schema: &Schema,
    line: u32,
    dep: Dep,
    rest: &[u8],
) -> Result<Vec<u8>, OutOfMemory>
    ensures text { IfOk result
        (λ text. text.items ≡ rule_line schema.now line (dependency_of dep) rest.now) }
{
    let mut text = Vec::new(alloc);
    add(&mut text, b"-- line ")?;
    add_number(&mut text, alloc, line)?;
    add(&mut text, b": ")?;
    add_dep(&mut text, schema, dep)?;
    add(&mut text, rest)?;
    Ok(text)
}

// The query for what breaks a dependency, or that it holds always.
fn breaches_text(
    alloc: Global,
    schema: &Schema,
    table: &[u8],
    line: u32,
    dep: Dep,
) -> Result<Vec<u8>, OutOfMemory>
    ensures text { IfOk result (λ text. text.items
        ≡ breaches_text (check_query schema.now table.now line (dependency_of dep))) }
{
    match dep {
        Dep::Fd { lhs, rhs } => breaches_of_fd(alloc, schema, table, line, lhs, rhs),
        Dep::Mvd { lhs, rhs } => breaches_of_mvd(alloc, schema, table, line, lhs, rhs),
    }
}

fn breaches_of_fd(
    alloc: Global,
    schema: &Schema,
    table: &[u8],
    line: u32,
    lhs: AttrSet,
    rhs: AttrSet,
) -> Result<Vec<u8>, OutOfMemory>
    ensures text { IfOk result (λ text. text.items
        ≡ breaches_text (check_query schema.now table.now line (fd (attributes lhs) (attributes rhs)))) }
{
    if rhs.is_subset(lhs) {
        return holds_always(alloc);
    }
    let query = several_text(alloc, schema, table, line, lhs, lhs.union(rhs))?;
    line_of_query(alloc, b"\n", &query)
}

fn breaches_of_mvd(
    alloc: Global,
    schema: &Schema,
    table: &[u8],
    line: u32,
    lhs: AttrSet,
    rhs: AttrSet,
) -> Result<Vec<u8>, OutOfMemory>
    ensures text { IfOk result (λ text. text.items
        ≡ breaches_text (check_query schema.now table.now line (mvd (attributes lhs) (attributes rhs)))) }
{
    let universe = AttrSet::full(schema.width());
    let both = lhs.union(rhs);
    if rhs.is_subset(lhs) {
        return holds_always(alloc);
    }
    if universe.is_subset(both) {
        return holds_always(alloc);
    }
    let rest = universe.difference(both);
    let left = rhs.difference(lhs);
    let query = unpaired_text(alloc, schema, table, line, lhs, left, rest)?;
    line_of_query(alloc, b"\n", &query)
}

// What is said of a dependency that every relation obeys.
pub fn holds_always(alloc: Global) -> Result<Vec<u8>, OutOfMemory>
    ensures text { IfOk result (λ text. text.items ≡ codes " holds always\n") }
{
    let mut text = Vec::new(alloc);
    add(&mut text, b" holds always\n")?;
    Ok(text)
}
