//! Derivations that are found from the goal back: what is left to be determined is replaced by the left
//! sides of dependencies, by pseudotransitivity.

ghost use Rattle.std.specs.Prelude.{◌<◌, OnOk, IfOk, IfSome};
ghost use Rattle.derivation.specs.declared.measures.TheConstants.{MOST_NODES};
ghost use Rattle.short_derivations.specs.Emitted.{AreWritten};
ghost use Rattle.short_derivations.specs.Views.{lines_of};

use crate::checking::try_line;
use crate::links::Link;
use crate::{Inference, Reason};
use attr_sets::AttrSet;
use dep_model::{Dep, OutOfMemory, Theory, sides};
use derivation::{LeafRule, MOST_NODES, StepRule};
use derivation_rules::FurtherRule;
use std::alloc::Global;

// Lines of such a derivation, from the last link to the first; `more` stands on both sides from the start.
// Nothing is said of what they come to.
pub fn substituted(
    alloc: Global,
    theory: &Theory,
    links: &[Link],
    lhs: AttrSet,
    rhs: AttrSet,
    more: AttrSet,
) -> Result<Vec<Inference>, OutOfMemory>
    ensures written { IfOk result (λ lines. AreWritten theory.now (lines_of lines.items)) }
{
    let mut lines = Vec::new(alloc);
    for i in 0..links.len() {
        let link = links[links.len() - 1 - i];
        substitute(theory, &mut lines, link, lhs, rhs, more)?;
    }
    narrow(theory, &mut lines, lhs, rhs)?;
    Ok(lines)
}

// Goes back by a link: with the first, from what it says; then from the last line.
fn substitute(
    theory: &Theory,
    lines: &mut Vec<Inference>,
    link: Link,
    lhs: AttrSet,
    rhs: AttrSet,
    more: AttrSet,
) -> Result<(), OutOfMemory>
    requires written { AreWritten theory.now (lines_of lines.old.items) }
    ensures written { OnOk result (AreWritten theory.now (lines_of lines.new.items)) }
{
    match last_line(lines) {
        None => start(theory, lines, link, rhs, more),
        Some((last, left, right)) => {
            let shared = link.rhs.intersection(left);
            if shared.is_subset(lhs) {
                return Ok(());
            }
            let next = last + 1;
            try_line(
                theory,
                lines,
                link.said(),
                Reason::Leaf(LeafRule::Given(link.position)),
            )?;
            let mut from = next;
            let mut part = link.rhs;
            if !part.is_subset(left) {
                part = shared.difference(lhs);
                let stated = Dep::Fd {
                    lhs: link.lhs,
                    rhs: part,
                };
                try_line(theory, lines, stated, Reason::Decomposition(next))?;
                from = next + 1;
            }
            let stated = Dep::Fd {
                lhs: link.lhs.union(left.difference(part)),
                rhs: right,
            };
            let rule = FurtherRule::Pseudotransitivity;
            try_line(theory, lines, stated, Reason::Further(rule, from, last))
        }
    }
}

// Starts with what a link says, and what of the goal lies beyond it on both sides.
fn start(
    theory: &Theory,
    lines: &mut Vec<Inference>,
    link: Link,
    rhs: AttrSet,
    more: AttrSet,
) -> Result<(), OutOfMemory>
    requires written { AreWritten theory.now (lines_of lines.old.items) }
    ensures written { OnOk result (AreWritten theory.now (lines_of lines.new.items)) }
{
    try_line(
        theory,
        lines,
        link.said(),
        Reason::Leaf(LeafRule::Given(link.position)),
    )?;
    let by = rhs.difference(link.rhs).union(more);
    if by.is_empty() {
        return Ok(());
    }
    let stated = Dep::Fd {
        lhs: link.lhs.union(by),
        rhs: link.rhs.union(by),
    };
    try_line(
        theory,
        lines,
        stated,
        Reason::Step(StepRule::Augmentation { by }, 0),
    )
}

// Brings the last line to the goal: the left side is widened, and the right side cut.
fn narrow(
    theory: &Theory,
    lines: &mut Vec<Inference>,
    lhs: AttrSet,
    rhs: AttrSet,
) -> Result<(), OutOfMemory>
    requires written { AreWritten theory.now (lines_of lines.old.items) }
    ensures written { OnOk result (AreWritten theory.now (lines_of lines.new.items)) }
{
    if let Some((last, left, right)) = last_line(lines) {
        if left != lhs {
            let stated = Dep::Fd {
                lhs: left.union(lhs),
                rhs: right.union(lhs),
            };
            let rule = StepRule::Augmentation { by: lhs };
            try_line(theory, lines, stated, Reason::Step(rule, last))?;
        }
    }
    if let Some((last, _, right)) = last_line(lines) {
        if right != rhs {
            try_line(
                theory,
                lines,
                Dep::Fd { lhs, rhs },
                Reason::Decomposition(last),
            )?;
        }
    }
    Ok(())
}

// The number of the last line, and the sides of what it states.
pub fn last_line(lines: &[Inference]) -> Option<(u32, AttrSet, AttrSet)>
    ensures small { IfSome result (λ last. last.0 < MOST_NODES) }
{
    let count = lines.len();
    if count == 0 || count > MOST_NODES as usize {
        return None;
    }
    let (left, right) = sides(lines[count - 1].stated);
    Some((count as u32 - 1, left, right))
}
