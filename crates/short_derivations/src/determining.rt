//! Derivations of multivalued dependencies by functional ones.

ghost use Rattle.std.specs.Prelude.{◌≡◌, ◌<◌, [], All, IsTrue, IfOk, OnOk, length};
ghost use Rattle.attr_sets.specs.Attributes.{IsSubset};
ghost use Rattle.attr_sets.specs.Sets.{attributes};
ghost use Rattle.dep_model.specs.Deps.{dependency_of, IsDepWithin};
ghost use Rattle.dep_model.specs.Implication.{Implies};
ghost use Rattle.dep_model.specs.Theories.{width_of, universe_of};
ghost use Rattle.short_derivations.specs.Emitted.{AreWritten};
ghost use Rattle.short_derivations.specs.Links.{IsLinkOf, said_by};
ghost use Rattle.short_derivations.specs.Views.{lines_of};

use crate::certificates::add_functional;
use crate::chaining::chain;
use crate::checking::{ends_with, try_line};
use crate::given::number_given;
use crate::links::{Link, add_link_deps};
use crate::needing::needed_links;
use crate::substituting::{last_line, substituted};
use crate::{Inference, Reason};
use attr_sets::AttrSet;
use dep_basis::is_implied_by;
use dep_model::{Dep, OutOfMemory, Theory};
use derivation::{LeafRule, MOST_NODES, StepRule};
use std::alloc::Global;

// Lines of a multivalued dependency by the functional ones that it needs: from a functional dependency of its
// sides, or of what is beside both. Nothing is said of what they come to.
pub fn by_functional(
    alloc: Global,
    theory: &Theory,
    links: &[Link],
    lhs: AttrSet,
    rhs: AttrSet,
) -> Result<Vec<Inference>, OutOfMemory>
    requires links { All (IsLinkOf theory.now) links.now }
    requires lhs { IsSubset (attributes lhs) (universe_of theory.now) }
    requires rhs { IsSubset (attributes rhs) (universe_of theory.now) }
    ensures written { IfOk result (λ lines. AreWritten theory.now (lines_of lines.items)) }
{
    let goal = Dep::Mvd { lhs, rhs };
    let rest = AttrSet::full(theory.width()).difference(lhs.union(rhs));
    let mut lines = determined(alloc, theory, links, goal, lhs, rhs)?;
    if lines.is_empty() {
        lines = determined(alloc, theory, links, goal, lhs, rest)?;
    }
    lead_on(theory, &mut lines, lhs, rhs)?;
    Ok(lines)
}

// Lines of a functional dependency by those links that a goal needs, if they imply it.
fn determined(
    alloc: Global,
    theory: &Theory,
    links: &[Link],
    goal: Dep,
    lhs: AttrSet,
    rhs: AttrSet,
) -> Result<Vec<Inference>, OutOfMemory>
    requires links { All (IsLinkOf theory.now) links.now }
    requires goal { IsDepWithin (universe_of theory.now) goal }
    requires lhs { IsSubset (attributes lhs) (universe_of theory.now) }
    requires rhs { IsSubset (attributes rhs) (universe_of theory.now) }
    ensures written { IfOk result (λ lines. AreWritten theory.now (lines_of lines.items)) }
{
    if !follows_from(alloc, theory, links, goal)? {
        return Ok(Vec::new(alloc));
    }
    let kept = needed_links(alloc, theory, links, goal)?;
    chained(alloc, theory, &kept, lhs, rhs)
}

// Lines of a functional dependency by links, if they imply it.
fn chained(
    alloc: Global,
    theory: &Theory,
    links: &[Link],
    lhs: AttrSet,
    rhs: AttrSet,
) -> Result<Vec<Inference>, OutOfMemory>
    requires links { All (IsLinkOf theory.now) links.now }
    requires lhs { IsSubset (attributes lhs) (universe_of theory.now) }
    requires rhs { IsSubset (attributes rhs) (universe_of theory.now) }
    ensures written { IfOk result (λ lines. AreWritten theory.now (lines_of lines.items)) }
{
    let dep = Dep::Fd { lhs, rhs };
    if rhs.is_subset(lhs) {
        let empty = AttrSet::empty();
        let rule = LeafRule::MReflexivity { lhs, rhs: empty };
        return first_line(alloc, theory, Dep::Mvd { lhs, rhs: empty }, rule);
    }
    if let Some(number) = number_given(theory, dep) {
        return first_line(alloc, theory, dep, LeafRule::Given(number));
    }
    if links.len() > MOST_NODES as usize || !follows_from(alloc, theory, links, dep)? {
        return Ok(Vec::new(alloc));
    }
    let lines = chain(alloc, theory, links, lhs, rhs)?;
    let other = substituted(alloc, theory, links, lhs, rhs, AttrSet::empty())?;
    if other.len() < lines.len() && ends_with(&other, dep) {
        return Ok(other);
    }
    Ok(lines)
}

// A first line, by a rule without premises.
fn first_line(
    alloc: Global,
    theory: &Theory,
    stated: Dep,
    rule: LeafRule,
) -> Result<Vec<Inference>, OutOfMemory>
    ensures written { IfOk result (λ lines. AreWritten theory.now (lines_of lines.items)) }
{
    let mut lines = Vec::new(alloc);
    try_line(theory, &mut lines, stated, Reason::Leaf(rule))?;
    Ok(lines)
}

// Whether links imply a goal.
pub fn follows_from(
    alloc: Global,
    theory: &Theory,
    links: &[Link],
    goal: Dep,
) -> Result<bool, OutOfMemory>
    requires links { All (IsLinkOf theory.now) links.now }
    requires goal { IsDepWithin (universe_of theory.now) goal }
    ensures implied { IfOk result (λ follows. IsTrue follows
        → Implies (width_of theory.now) (said_by links.now) (dependency_of goal)) }
{
    let mut deps = Vec::new(alloc);
    add_link_deps(&mut deps, links)?;
    Ok(is_implied_by(&deps, theory.width(), goal))
}

// The functional dependencies of a theory.
pub fn functional_links(alloc: Global, theory: &Theory) -> Result<Vec<Link>, OutOfMemory>
    ensures links { IfOk result (λ links. All (IsLinkOf theory.now) links.items) }
{
    let mut links = Vec::new(alloc);
    for (k, dep) in theory.deps().iter().enumerate() {
        add_functional(&mut links, k as u16, *dep)?;
    }
    Ok(links)
}

// Leads from the last line to a multivalued goal: by replication, and, where its right side is another, by
// complementation and what both sides share.
fn lead_on(
    theory: &Theory,
    lines: &mut Vec<Inference>,
    lhs: AttrSet,
    rhs: AttrSet,
) -> Result<(), OutOfMemory>
    requires written { AreWritten theory.now (lines_of lines.old.items) }
    ensures written { OnOk result (AreWritten theory.now (lines_of lines.new.items)) }
{
    if let Some((last, _, right)) = last_line(lines) {
        let stated = Dep::Mvd { lhs, rhs: right };
        try_line(
            theory,
            lines,
            stated,
            Reason::Step(StepRule::Replication, last),
        )?;
    }
    turn(theory, lines, lhs, rhs)?;
    widen(theory, lines, lhs, rhs)
}

// Turns the last line to what is beside its sides, unless it has the right side of the goal.
fn turn(
    theory: &Theory,
    lines: &mut Vec<Inference>,
    lhs: AttrSet,
    rhs: AttrSet,
) -> Result<(), OutOfMemory>
    requires written { AreWritten theory.now (lines_of lines.old.items) }
    ensures written { OnOk result (AreWritten theory.now (lines_of lines.new.items)) }
{
    match last_line(lines) {
        Some((last, _, right)) if right != rhs => {
            let beside = AttrSet::full(theory.width()).difference(lhs.union(right));
            let stated = Dep::Mvd { lhs, rhs: beside };
            try_line(
                theory,
                lines,
                stated,
                Reason::Step(StepRule::Complementation, last),
            )
        }
        _ => Ok(()),
    }
}

// Adds to the right side of the last line what both sides of the goal share, unless it has that already.
fn widen(
    theory: &Theory,
    lines: &mut Vec<Inference>,
    lhs: AttrSet,
    rhs: AttrSet,
) -> Result<(), OutOfMemory>
    requires written { AreWritten theory.now (lines_of lines.old.items) }
    ensures written { OnOk result (AreWritten theory.now (lines_of lines.new.items)) }
{
    match last_line(lines) {
        Some((last, _, right)) if right != rhs => {
            let narrow = lhs.intersection(rhs);
            let stated = Dep::Mvd {
                lhs,
                rhs: right.union(narrow),
            };
            let rule = StepRule::MAugmentation { wide: lhs, narrow };
            try_line(theory, lines, stated, Reason::Step(rule, last))
        }
        _ => Ok(()),
    }
}
