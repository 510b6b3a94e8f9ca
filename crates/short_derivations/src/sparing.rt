//! Derivations of multivalued dependencies that follow from the functional ones, in which none that stand as
//! given can be spared.

ghost use Rattle.std.specs.Prelude.{◌≡◌, ◌≤◌, ◌<◌, All, IsTrue, IfOk, IfSome, OnOk, length};
ghost use Rattle.attr_sets.specs.Attributes.{IsSubset};
ghost use Rattle.attr_sets.specs.Sets.{attributes};
ghost use Rattle.dep_model.specs.Dependencies.{mvd};
ghost use Rattle.dep_model.specs.Deps.{dependency_of, IsDepWithin};
ghost use Rattle.dep_model.specs.Theories.{universe_of};
ghost use Rattle.short_derivations.specs.Emitted.{AreWritten, IsEmission};
ghost use Rattle.short_derivations.specs.Inferences.{EachIsUsed};
ghost use Rattle.short_derivations.specs.Short.{Concludes};
ghost use Rattle.short_derivations.specs.Views.{lines_of};

use crate::certificates::given_at;
use crate::checking::ends_with;
use crate::determining::{by_functional, follows_from, functional_links};
use crate::{Inference, Reason};
use attr_sets::AttrSet;
use dep_basis::is_implied_by;
use dep_model::{Dep, OutOfMemory, Theory};
use derivation::LeafRule;
use std::alloc::Global;

// Lines of a multivalued goal, or others of it, no more than there may be, where these spare none of those
// that stand as given and the first do not.
pub fn sparing(
    alloc: Global,
    theory: &Theory,
    lhs: AttrSet,
    rhs: AttrSet,
    lines: Vec<Inference>,
    most: u32,
) -> Result<Vec<Inference>, OutOfMemory>
    requires lhs { IsSubset (attributes lhs) (universe_of theory.now) }
    requires rhs { IsSubset (attributes rhs) (universe_of theory.now) }
    requires emission { IsEmission theory.now (mvd (attributes lhs) (attributes rhs)) most (lines_of lines.items) }
    ensures emission { IfOk result (λ chosen. IsEmission theory.now
        (mvd (attributes lhs) (attributes rhs)) most (lines_of chosen.items)) }
{
    let goal = Dep::Mvd { lhs, rhs };
    let links = functional_links(alloc, theory)?;
    if !follows_from(alloc, theory, &links, goal)? || spares_none(alloc, theory, &lines, goal)? {
        return Ok(lines);
    }
    let other = by_functional(alloc, theory, &links, lhs, rhs)?;
    let spares = spares_none(alloc, theory, &other, goal)?;
    Ok(choose(theory, goal, most, lines, other, spares))
}

// Other lines where they are wanted and end with a goal, no more than there may be.
fn choose(
    theory: &Theory,
    goal: Dep,
    most: u32,
    lines: Vec<Inference>,
    other: Vec<Inference>,
    wanted: bool,
) -> Vec<Inference>
    requires emission { IsEmission theory.now (dependency_of goal) most (lines_of lines.items) }
    requires written { AreWritten theory.now (lines_of other.items) }
    ensures emission { IsEmission theory.now (dependency_of goal) most (lines_of result.items) }
{
    if wanted && is_end(&other, goal, most) {
        other
    } else {
        lines
    }
}

// Whether so many lines at most end with a goal, and use each but the last.
fn is_end(lines: &[Inference], goal: Dep, most: u32) -> bool
    ensures concludes { IsTrue result → Concludes (lines_of lines.now) (dependency_of goal) }
    ensures used { IsTrue result → EachIsUsed (lines_of lines.now) }
    ensures fits { IsTrue result → length lines.now ≤ most }
{
    if lines.len() > most as usize {
        return false;
    }
    ends_with(lines, goal)
}

// Whether none of those that stand as given can be spared: the goal follows from the others for none.
fn spares_none(
    alloc: Global,
    theory: &Theory,
    lines: &[Inference],
    goal: Dep,
) -> Result<bool, OutOfMemory>
    requires goal { IsDepWithin (universe_of theory.now) goal }
{
    for at in 0..lines.len() {
        if is_spared(alloc, theory, lines, at, goal)? {
            return Ok(false);
        }
    }
    Ok(true)
}

// Whether the line at a position stands as given, and the goal follows from the others that do.
fn is_spared(
    alloc: Global,
    theory: &Theory,
    lines: &[Inference],
    at: usize,
    goal: Dep,
) -> Result<bool, OutOfMemory>
    requires goal { IsDepWithin (universe_of theory.now) goal }
    requires at { at < length lines.now }
{
    if given_by(theory, lines[at].reason).is_none() {
        return Ok(false);
    }
    let others = others_given(alloc, theory, lines, at)?;
    Ok(is_implied_by(&others, theory.width(), goal))
}

// The dependencies that stand as given in other lines than the one at a position.
fn others_given(
    alloc: Global,
    theory: &Theory,
    lines: &[Inference],
    at: usize,
) -> Result<Vec<Dep>, OutOfMemory>
    ensures within { IfOk result (λ others. All (IsDepWithin (universe_of theory.now)) others.items) }
{
    let mut others = Vec::new(alloc);
    for (k, line) in lines.iter().enumerate() {
        add_other(theory, line.reason, k == at, &mut others)?;
    }
    Ok(others)
}

// The same, unless it is that line's.
fn add_other(
    theory: &Theory,
    reason: Reason,
    own: bool,
    others: &mut Vec<Dep>,
) -> Result<(), OutOfMemory>
    ensures within { All (IsDepWithin (universe_of theory.now)) others.old.items
        → OnOk result (All (IsDepWithin (universe_of theory.now)) others.new.items) }
{
    if own {
        return Ok(());
    }
    add_given_by(theory, reason, others)
}

// Adds the dependency that a reason names as given.
fn add_given_by(theory: &Theory, reason: Reason, others: &mut Vec<Dep>) -> Result<(), OutOfMemory>
    ensures within { All (IsDepWithin (universe_of theory.now)) others.old.items
        → OnOk result (All (IsDepWithin (universe_of theory.now)) others.new.items) }
{
    match given_by(theory, reason) {
        Some(dep) => {
            others.push(dep)?;
            Ok(())
        }
        None => Ok(()),
    }
}

// The dependency that a reason names as given.
fn given_by(theory: &Theory, reason: Reason) -> Option<Dep>
    ensures within { IfSome result (IsDepWithin (universe_of theory.now)) }
{
    match reason {
        Reason::Leaf(LeafRule::Given(k)) => given_at(theory, k),
        _ => None,
    }
}
