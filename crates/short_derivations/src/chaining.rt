//! Chains: functional derivations that follow the closure of a left side.

ghost use Rattle.std.specs.Prelude.{◌≡◌, ◌≤◌, ◌<◌, ◌+◌, ◌*◌, ◌^◌, ◌++◌, [], ◌∷◌, OnOk, IfOk, length, All, Contains};
ghost use Rattle.attr_sets.specs.Attributes.{union, IsSubset};
ghost use Rattle.attr_sets.specs.Sets.{attributes};
ghost use Rattle.dep_model.specs.Dependencies.{fd};
ghost use Rattle.dep_model.specs.Implication.{Implies};
ghost use Rattle.dep_model.specs.Theories.{width_of, universe_of, theory_of};
ghost use Rattle.derivation.specs.declared.measures.TheConstants.{MOST_NODES};
ghost use Rattle.short_derivations.specs.Links.{IsLinkOf, LinksOut, IsChain, IsBegun, IsLinked, given_line, said_by};
ghost use Rattle.short_derivations.specs.Views.{lines_of};

use crate::lines::add_line;
use crate::links::{Link, next_out};
use crate::{Inference, Reason};
use attr_sets::AttrSet;
use dep_model::{Dep, OutOfMemory, Theory};
use derivation::{LeafRule, PairRule, StepRule};
use std::alloc::Global;

// A derivation of `lhs -> rhs` from links: each next link that leads out of what is reached leads on.
pub fn chain(
    alloc: Global,
    theory: &Theory,
    links: &[Link],
    lhs: AttrSet,
    rhs: AttrSet,
) -> Result<Vec<Inference>, OutOfMemory>
    requires lhs { IsSubset (attributes lhs) (universe_of theory.now) }
    requires rhs { IsSubset (attributes rhs) (universe_of theory.now) }
    requires missing { IsSubset (attributes rhs) (attributes lhs) → ⊥ }
    requires new { Contains (theory_of theory.now) (fd (attributes lhs) (attributes rhs)) → ⊥ }
    requires links { All (IsLinkOf theory.now) links.now }
    requires few { length links.now ≤ MOST_NODES }
    requires implied { Implies (width_of theory.now) (said_by links.now)
        (fd (attributes lhs) (attributes rhs)) }
    ensures linked { IfOk result (λ lines. IsLinked theory.now links.now
        (fd (attributes lhs) (attributes rhs)) (lines_of lines.items)) }
{
    let mut lines = Vec::new(alloc);
    let mut closed = lhs;
    while !rhs.is_subset(closed) {
        match next_out(links, closed) {
            None => unreachable!(),
            Some(link) => {
                follow(theory, links, &mut lines, lhs, rhs, closed, link)?;
                closed = link.rhs.union(closed);
            }
        }
    }
    end(theory, links, &mut lines, lhs, rhs, closed)?;
    Ok(lines)
}

// Goes on by a link: a chain that one link alone makes begins anew.
fn follow(
    theory: &Theory,
    links: &[Link],
    lines: &mut Vec<Inference>,
    lhs: AttrSet,
    rhs: AttrSet,
    closed: AttrSet,
    link: Link,
) -> Result<(), OutOfMemory>
    requires begun { IsBegun theory.now links.now (attributes lhs) (attributes rhs)
        (attributes closed) (lines_of lines.old.items) }
    requires few { length links.now ≤ MOST_NODES }
    requires closed { IsSubset (attributes closed) (universe_of theory.now) }
    requires one { Contains links.now link }
    requires link { IsLinkOf theory.now link }
    requires out { LinksOut (attributes closed) link }
    requires new { Contains (theory_of theory.now) (fd (attributes lhs) (attributes rhs)) → ⊥ }
    requires missing { IsSubset (attributes rhs) (attributes closed) → ⊥ }
    ensures chain { OnOk result (IsChain theory.now links.now (attributes lhs) (attributes rhs)
        (union (attributes link.rhs) (attributes closed)) (lines_of lines.new.items)) }
{
    if link.replaces(lhs, closed) {
        lines.clear();
        return begin(theory, links, lines, lhs, rhs, link);
    }
    extend(theory, links, lines, lhs, rhs, closed, link)
}

// Begins a chain of a left side by a link whose left side lies within it.
fn begin(
    theory: &Theory,
    links: &[Link],
    lines: &mut Vec<Inference>,
    lhs: AttrSet,
    rhs: AttrSet,
    link: Link,
) -> Result<(), OutOfMemory>
    requires empty { lines.old.items ≡ [] }
    requires lhs { IsSubset (attributes lhs) (universe_of theory.now) }
    requires one { Contains links.now link }
    requires link { IsLinkOf theory.now link }
    requires out { LinksOut (attributes lhs) link }
    requires new { Contains (theory_of theory.now) (fd (attributes lhs) (attributes rhs)) → ⊥ }
    ensures chain { OnOk result (IsChain theory.now links.now (attributes lhs) (attributes rhs)
        (union (attributes link.rhs) (attributes lhs)) (lines_of lines.new.items)) }
{
    add_given(lines, link)?;
    if link.holds(lhs) {
        return Ok(());
    }
    let lifted = Dep::Fd {
        lhs,
        rhs: link.rhs.union(lhs),
    };
    add_line(
        lines,
        lifted,
        Reason::Step(StepRule::Augmentation { by: lhs }, 0),
    )
}

// Adds a link to a chain.
fn extend(
    theory: &Theory,
    links: &[Link],
    lines: &mut Vec<Inference>,
    lhs: AttrSet,
    rhs: AttrSet,
    closed: AttrSet,
    link: Link,
) -> Result<(), OutOfMemory>
    requires chain { IsChain theory.now links.now (attributes lhs) (attributes rhs)
        (attributes closed) (lines_of lines.old.items) }
    requires few { length links.now ≤ MOST_NODES }
    requires closed { IsSubset (attributes closed) (universe_of theory.now) }
    requires one { Contains links.now link }
    requires link { IsLinkOf theory.now link }
    requires out { LinksOut (attributes closed) link }
    requires new { Contains (theory_of theory.now) (fd (attributes lhs) (attributes rhs)) → ⊥ }
    requires missing { IsSubset (attributes rhs) (attributes closed) → ⊥ }
    requires goes_on { IsSubset (attributes link.lhs) (attributes lhs)
        → IsSubset (attributes closed) (union (attributes link.rhs) (attributes lhs)) → ⊥ }
    ensures chain { OnOk result (IsChain theory.now links.now (attributes lhs) (attributes rhs)
        (union (attributes link.rhs) (attributes closed)) (lines_of lines.new.items)) }
{
    let next = lines.len() as u32;
    let last = next - 1;
    add_given(lines, link)?;
    if link.holds(closed) {
        let stated = Dep::Fd { lhs, rhs: link.rhs };
        return add_line(
            lines,
            stated,
            Reason::Pair(PairRule::Transitivity, last, next),
        );
    }
    let wide = link.rhs.union(closed);
    let lifted = Dep::Fd {
        lhs: closed,
        rhs: wide,
    };
    add_line(
        lines,
        lifted,
        Reason::Step(StepRule::Augmentation { by: closed }, next),
    )?;
    let stated = Dep::Fd { lhs, rhs: wide };
    add_line(
        lines,
        stated,
        Reason::Pair(PairRule::Transitivity, last, next + 1),
    )
}

// Ends a chain that has reached the goal: what it leads to beside the goal is cut off.
fn end(
    theory: &Theory,
    links: &[Link],
    lines: &mut Vec<Inference>,
    lhs: AttrSet,
    rhs: AttrSet,
    closed: AttrSet,
) -> Result<(), OutOfMemory>
    requires chain { IsChain theory.now links.now (attributes lhs) (attributes rhs)
        (attributes closed) (lines_of lines.old.items) }
    requires few { length links.now ≤ MOST_NODES }
    requires reached { IsSubset (attributes rhs) (attributes closed) }
    ensures linked { OnOk result (IsLinked theory.now links.now
        (fd (attributes lhs) (attributes rhs)) (lines_of lines.new.items)) }
{
    if closed.is_subset(rhs) {
        return Ok(());
    }
    let last = lines.len() as u32 - 1;
    add_line(lines, Dep::Fd { lhs, rhs }, Reason::Decomposition(last))
}

// Adds the line of a link, as it stands.
fn add_given(lines: &mut Vec<Inference>, link: Link) -> Result<(), OutOfMemory>
    ensures added { OnOk result (lines_of lines.new.items ≡ lines_of lines.old.items
        ++ given_line link.position (attributes link.lhs) (attributes link.rhs) ∷ []) }
{
    let stated = Dep::Fd {
        lhs: link.lhs,
        rhs: link.rhs,
    };
    add_line(lines, stated, Reason::Leaf(LeafRule::Given(link.position)))
}
