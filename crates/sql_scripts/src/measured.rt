ghost use Rattle.std.specs.Prelude.{◌≡◌, ◌++◌, codes, true, false, IfOk};
ghost use Rattle.attr_sets.specs.Sets.{attributes};
ghost use Rattle.dep_model.specs.Deps.{dependency_of};
ghost use Rattle.dep_model.specs.Dependencies.{fd, mvd};
ghost use Rattle.sql_syntax.specs.Printing.{in_brackets, query_text, selected_text, source_text};
ghost use Rattle.sql_measure.specs.Measures.{change_query, groups_query, lack_query, measure_query, pairs_query};
ghost use Rattle.sql_scripts.specs.Checking.{breaches_text};
ghost use Rattle.sql_scripts.specs.Measuring.{measured_rule_text};

use crate::counted::{classes_text, four_counts, keys_clause};
use crate::listing::Listed;
use crate::rules::{holds_always, rule_line};
use crate::selecting::{in_brackets, line_of_query, selected_text};
use attr_sets::AttrSet;
use dep_model::{Dep, OutOfMemory};
use schema_model::Schema;
use std::alloc::Global;

// A rule and the query that counts what breaks it.
#[tactic(auto, unfolding(crate::specs::Measuring::measured_rule_text))]
pub fn measured_rule_text(
    alloc: Global,
    schema: &Schema,
    table: &[u8],
    line: u32,
    dep: Dep,
) -> Result<Vec<u8>, OutOfMemory>
    ensures text { IfOk result (λ text.
        text.items ≡ measured_rule_text schema.now table.now line (dependency_of dep)) }
{
    let query = measured_text(alloc, schema, table, dep)?;
    rule_line(alloc, schema, line, dep, &query)
}

// The query that counts what breaks a dependency, or that it holds always.
fn measured_text(
    alloc: Global,
    schema: &Schema,
    table: &[u8],
    dep: Dep,
) -> Result<Vec<u8>, OutOfMemory>
    ensures text { IfOk result (λ text. text.items
        ≡ breaches_text (measure_query schema.now table.now (dependency_of dep))) }
{
    match dep {
        Dep::Fd { lhs, rhs } => measured_fd(alloc, schema, table, lhs, rhs),
        Dep::Mvd { lhs, rhs } => measured_mvd(alloc, schema, table, lhs, rhs),
    }
}

fn measured_fd(
    alloc: Global,
    schema: &Schema,
    table: &[u8],
    lhs: AttrSet,
    rhs: AttrSet,
) -> Result<Vec<u8>, OutOfMemory>
    ensures text { IfOk result (λ text. text.items
        ≡ breaches_text (measure_query schema.now table.now
        (fd (attributes lhs) (attributes rhs)))) }
{
    if rhs.is_subset(lhs) {
        return holds_always(alloc);
    }
    let query = change_text(alloc, schema, table, lhs, lhs.union(rhs))?;
    line_of_query(alloc, b"\n", &query)
}

fn measured_mvd(
    alloc: Global,
    schema: &Schema,
    table: &[u8],
    lhs: AttrSet,
    rhs: AttrSet,
) -> Result<Vec<u8>, OutOfMemory>
    ensures text { IfOk result (λ text. text.items
        ≡ breaches_text (measure_query schema.now table.now
        (mvd (attributes lhs) (attributes rhs)))) }
{
    let universe = AttrSet::full(schema.width());
    let both = lhs.union(rhs);
    if rhs.is_subset(lhs) {
        return holds_always(alloc);
    }
    if universe.is_subset(both) {
        return holds_always(alloc);
    }
    let rest = universe.difference(both);
    let left = rhs.difference(lhs);
    let query = lack_text(alloc, schema, table, lhs, left, rest)?;
    line_of_query(alloc, b"\n", &query)
}

// Of the groups that have more than one class how many they are, their rows, and those that must
// change.
#[tactic(auto, unfolding(sql_measure::specs::Measures::totals_query))]
fn change_text(
    alloc: Global,
    schema: &Schema,
    table: &[u8],
    lhs: AttrSet,
    both: AttrSet,
) -> Result<Vec<u8>, OutOfMemory>
    ensures text { IfOk result (λ text. text.items
        ≡ query_text (change_query schema.now table.now (attributes lhs) (attributes both))) }
{
    let groups = groups_text(alloc, schema, table, lhs, both)?;
    totals_text(
        alloc,
        b"h.\"groups\", h.\"rows\", h.\"change\"",
        b"COUNT(*) AS \"groups\", SUM(g.n) AS \"rows\", SUM(g.n) - SUM(g.m) AS \"change\"",
        &groups,
        b" WHERE g.k > 1",
    )
}

// Of the groups in which a pair is missing how many they are, their rows, and these pairs.
#[tactic(auto, unfolding(sql_measure::specs::Measures::totals_query))]
fn lack_text(
    alloc: Global,
    schema: &Schema,
    table: &[u8],
    lhs: AttrSet,
    first: AttrSet,
    second: AttrSet,
) -> Result<Vec<u8>, OutOfMemory>
    ensures text { IfOk result (λ text. text.items
        ≡ query_text (lack_query schema.now table.now (attributes lhs) (attributes first)
        (attributes second))) }
{
    let groups = pairs_text(alloc, schema, table, lhs, first, second)?;
    totals_text(
        alloc,
        b"h.\"groups\", h.\"rows\", h.\"missing\"",
        b"COUNT(*) AS \"groups\", SUM(g.r) AS \"rows\", SUM(g.m) AS \"missing\"",
        &groups,
        b" WHERE g.m <> 0",
    )
}

// What is counted of the groups that pass a test, where there are some.
fn totals_text(
    alloc: Global,
    shown: &[u8],
    counted: &[u8],
    groups: &[u8],
    test: &[u8],
) -> Result<Vec<u8>, OutOfMemory>
    ensures text { IfOk result (λ text. text.items
        ≡ selected_text false shown.now (in_brackets true
        (selected_text false counted.now groups.now (codes "g") test.now)) (codes "h")
        (codes " WHERE h.\"groups\" > 0")) }
{
    let query = selected_text(alloc, false, counted, groups, b"g", test)?;
    let totals = in_brackets(alloc, &query)?;
    selected_text(
        alloc,
        false,
        shown,
        &totals,
        b"h",
        b" WHERE h.\"groups\" > 0",
    )
}

// For each value of the left side its rows, those of its largest class, and its classes, as a
// source.
fn groups_text(
    alloc: Global,
    schema: &Schema,
    table: &[u8],
    lhs: AttrSet,
    both: AttrSet,
) -> Result<Vec<u8>, OutOfMemory>
    ensures text { IfOk result (λ text. text.items
        ≡ source_text (groups_query schema.now table.now (attributes lhs) (attributes both))) }
{
    let classes = classes_text(alloc, schema, table, lhs, both)?;
    let clause = keys_clause(alloc, schema, lhs, Listed::ClassGroup)?;
    let counts = b"SUM(c.n) AS n, MAX(c.n) AS m, COUNT(*) AS k";
    let query = selected_text(alloc, false, counts, &classes, b"c", &clause)?;
    in_brackets(alloc, &query)
}

// For each value of the left side its rows, and the pairs beside it that no row has, as a source.
fn pairs_text(
    alloc: Global,
    schema: &Schema,
    table: &[u8],
    lhs: AttrSet,
    first: AttrSet,
    second: AttrSet,
) -> Result<Vec<u8>, OutOfMemory>
    ensures text { IfOk result (λ text. text.items
        ≡ source_text (pairs_query schema.now table.now (attributes lhs) (attributes first)
        (attributes second))) }
{
    let counts = four_counts(alloc, schema, table, lhs, first, second)?;
    let clause = keys_clause(alloc, schema, lhs, Listed::Group)?;
    let pairs = b"SUM(e.r) AS r, SUM(e.y) * SUM(e.z) - SUM(e.n) AS m";
    let query = selected_text(alloc, false, pairs, &counts, b"e", &clause)?;
    in_brackets(alloc, &query)
}
