//! Lines that are tried before they are believed.

ghost use Rattle.std.specs.Prelude.{◌≡◌, ◌≤◌, ◌*◌, [], Ok, IsTrue, IfSome, OnOk, All, Contains, Some, slice_get, false, length};
ghost use Rattle.dep_model.specs.Dependencies.{Dependency};
ghost use Rattle.dep_model.specs.Deps.{dependency_of};
ghost use Rattle.derivation.specs.Derivs.{outcome_of};
ghost use Rattle.short_derivations.specs.Emitted.{AreWritten};
ghost use Rattle.short_derivations.specs.Inferences.{Gives, IsUsed, EachIsUsed, premises_of, is_given, givens_of, stated_by};
ghost use Rattle.short_derivations.specs.Links.{said_by};
ghost use Rattle.short_derivations.specs.Short.{Concludes};
ghost use Rattle.short_derivations.specs.Views.{why_of, lines_of};

use crate::lines::add_line;
use crate::links::Link;
use crate::{Inference, Reason};
use dep_model::{Dep, OutOfMemory, Theory};
use derivation::{
    FaultKind, LeafRule, leaf_conclusion, pair_conclusion, same_dep, step_conclusion,
};
use derivation_rules::{decomposition_conclusion, further_conclusion};

// Adds a line where its rule gives it and none before states the same.
pub fn try_line(
    theory: &Theory,
    lines: &mut Vec<Inference>,
    stated: Dep,
    reason: Reason,
) -> Result<(), OutOfMemory>
    requires written { AreWritten theory.now (lines_of lines.old.items) }
    ensures written { OnOk result (AreWritten theory.now (lines_of lines.new.items)) }
{
    if states(lines, stated) || !gives(theory, lines, stated, reason) {
        return Ok(());
    }
    add_line(lines, stated, reason)
}

// Whether a line states a dependency.
fn states(lines: &[Inference], dep: Dep) -> bool
    ensures new { result ≡ false → All (λ l. l.stated ≡ dependency_of dep → ⊥) (lines_of lines.now) }
{
    for line in lines {
        if same_dep(line.stated, dep) {
            return true;
        }
    }
    false
}

// Whether a rule gives what is stated, from lines.
fn gives(theory: &Theory, lines: &[Inference], stated: Dep, reason: Reason) -> bool
    ensures gives { IsTrue result → Gives theory.now (stated_by (lines_of lines.now)) (why_of reason)
        (dependency_of stated) }
{
    match reason {
        Reason::Leaf(rule) => concludes(leaf_conclusion(theory, rule), stated),
        Reason::Step(rule, p) => match stated_at(lines, p) {
            Some(x) => concludes(step_conclusion(theory, rule, x), stated),
            None => false,
        },
        Reason::Pair(rule, p, q) => match (stated_at(lines, p), stated_at(lines, q)) {
            (Some(x), Some(y)) => concludes(pair_conclusion(rule, x, y), stated),
            _ => false,
        },
        Reason::Decomposition(p) => match stated_at(lines, p) {
            Some(x) => concludes(decomposition_conclusion(stated, x), stated),
            None => false,
        },
        Reason::Further(rule, p, q) => match (stated_at(lines, p), stated_at(lines, q)) {
            (Some(x), Some(y)) => concludes(further_conclusion(rule, x, y), stated),
            _ => false,
        },
    }
}

// What a line states, if there is one of this number.
fn stated_at(lines: &[Inference], p: u32) -> Option<Dep>
    ensures stated { IfSome result (λ x. slice_get (stated_by (lines_of lines.now)) p ≡ Some (dependency_of x)) }
{
    let at = p as usize;
    if at >= lines.len() {
        return None;
    }
    Some(lines[at].stated)
}

// Whether an outcome is this conclusion.
fn concludes(outcome: Result<Dep, FaultKind>, stated: Dep) -> bool
    ensures concludes { IsTrue result → outcome_of outcome ≡ Ok (dependency_of stated) }
{
    match outcome {
        Ok(dep) => same_dep(dep, stated),
        Err(_) => false,
    }
}

// Whether lines end with a goal, and use each line but the last.
pub fn ends_with(lines: &[Inference], goal: Dep) -> bool
    ensures concludes { IsTrue result → Concludes (lines_of lines.now) (dependency_of goal) }
    ensures used { IsTrue result → EachIsUsed (lines_of lines.now) }
{
    let count = lines.len();
    if count == 0 {
        return false;
    }
    if !same_dep(lines[count - 1].stated, goal) {
        return false;
    }
    each_is_used(lines)
}

// Whether each line but the last is used.
fn each_is_used(lines: &[Inference]) -> bool
    ensures used { IsTrue result → EachIsUsed (lines_of lines.now) }
{
    for k in 1..lines.len() {
        if !is_used(lines, k - 1) {
            return false;
        }
    }
    true
}

// Whether a later line uses a line.
fn is_used(lines: &[Inference], k: usize) -> bool
    ensures used { IsTrue result → IsUsed (lines_of lines.now) k }
{
    for (at, line) in lines.iter().enumerate() {
        if k < at && uses(line.reason, k) {
            return true;
        }
    }
    false
}

// Whether a rule has a line as a premise.
fn uses(reason: Reason, k: usize) -> bool
    ensures premise { IsTrue result → Contains (premises_of (why_of reason)) k }
{
    match reason {
        Reason::Leaf(_) => false,
        Reason::Step(_, p) | Reason::Decomposition(p) => p as usize == k,
        Reason::Pair(_, p, q) => p as usize == k || q as usize == k,
        Reason::Further(_, p, q) => p as usize == k || q as usize == k,
    }
}

// How many lines stand as given, where links say each of them.
pub fn count_given(lines: &[Inference], links: &[Link]) -> Option<usize>
    ensures from { IfSome result (λ count. All (Contains (said_by links.now)) (givens_of (lines_of lines.now))) }
    ensures count { IfSome result (λ count. count ≡ length (givens_of (lines_of lines.now))) }
{
    let mut count = 0;
    for line in lines {
        if is_given(line.reason) {
            if !is_said(links, line.stated) {
                return None;
            }
            count += 1;
        }
    }
    Some(count)
}

// Whether a line with this reason stands as given.
fn is_given(reason: Reason) -> bool
    ensures given { result ≡ is_given (why_of reason) }
{
    match reason {
        Reason::Leaf(LeafRule::Given(_)) => true,
        _ => false,
    }
}

// Whether a link says a dependency.
fn is_said(links: &[Link], dep: Dep) -> bool
    ensures said { IsTrue result → Contains (said_by links.now) (dependency_of dep) }
{
    for link in links {
        let said = Dep::Fd {
            lhs: link.lhs,
            rhs: link.rhs,
        };
        if same_dep(said, dep) {
            return true;
        }
    }
    false
}
