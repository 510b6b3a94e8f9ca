ghost use Rattle.std.specs.Prelude.{◌≡◌, ℕ, ◌<◌, ◌≤◌, ◌^◌, ◌↔◌, IsTrue};
ghost use Rattle.dep_model.specs.Theories.{Theory};
ghost use Rattle.dep_model.specs.Dependencies.{Dependency};
ghost use Rattle.dep_model.specs.Deps.{dependency_of};
ghost use Rattle.derivation.specs.Trees.{Tree, nodes, depth, leaf, step, pair};
ghost use Rattle.derivation.specs.Derivs.{tree_of, leaf_of, step_of, pair_of};
ghost use Rattle.derivation.specs.Conclusions.{Proves};
ghost use Rattle.derivation.specs.Direct.{IsIn, NoneBelow, IsDirect};
ghost use Rattle.derivation.specs.Shortened.{ConcludesOnly, IsConcluded, IsSought, NodesFit};
ghost use Rattle.derivation.specs.Shortened.{IsLeastPart, IsShortened};

use crate::table::{leaf_conclusion, pair_conclusion, step_conclusion};
use crate::{Deriv, LeafRule, PairRule, StepRule, conclude, nodes};
use dep_model::{Dep, Theory};
use std::mem;

// A derivation and what it concludes, if anything.
#[derive(Debug, Drop)]
struct Concluded {
    deriv: Box<Deriv>,
    dep: Option<Dep>,
}

// What a search for a conclusion in a derivation comes to.
#[derive(Debug, Drop)]
enum Sought {
    // The smallest part that concludes it.
    Found(Box<Deriv>),
    // The derivation as it was, no node of which concludes it.
    Whole(Concluded),
}

/// A derivation of the same dependency in which no node concludes what a node below it concludes:
/// the smallest part that concludes it, in which, from the leaves on, each node gives way to the
/// smallest one below it that concludes the same. Where a derivation concludes nothing, neither does
/// what it gives. It takes no memory.
pub fn shorten(theory: &Theory, deriv: Box<Deriv>) -> Box<Deriv>
    requires fits_u32 { nodes (tree_of deriv.value) < 2 ^ 32 }
    ensures same { (d : Dependency) → Proves theory.now (tree_of deriv.value) d
        ↔ Proves theory.now (tree_of result.value) d }
    ensures node_bound { nodes (tree_of result.value) ≤ nodes (tree_of deriv.value) }
    ensures level_bound { depth (tree_of result.value) ≤ depth (tree_of deriv.value) }
    ensures direct { IsDirect theory.now (tree_of result.value) }
    ensures least { (t : Tree) (d : Dependency) → IsIn t (tree_of deriv.value)
        → Proves theory.now (tree_of deriv.value) d → Proves theory.now t d
        → nodes (tree_of result.value) ≤ nodes t }
{
    match conclude(theory, &deriv) {
        Ok(dep) => {
            let whole = Concluded {
                deriv,
                dep: Some(dep),
            };
            shorten_all(theory, least_of(theory, whole).deriv).deriv
        }
        Err(_) => shorten_all(theory, deriv).deriv,
    }
}

// A direct derivation of the same: each node is the smallest part of what was made of its premises.
fn shorten_all(theory: &Theory, deriv: Box<Deriv>) -> Concluded
    requires fits_u32 { nodes (tree_of deriv.value) < 2 ^ 32 }
    ensures shortened { IsShortened theory.now (tree_of deriv.value) result }
{
    let mut root = deriv;
    match mem::replace(&mut *root, Deriv::Leaf(LeafRule::Given(0))) {
        Deriv::Leaf(rule) => conclude_leaf(theory, root, rule),
        Deriv::Step(rule, premise) => {
            let from = shorten_all(theory, premise);
            least_of(theory, conclude_step(theory, root, rule, from))
        }
        Deriv::Pair(rule, first, second) => {
            let left = shorten_all(theory, first);
            let right = shorten_all(theory, second);
            least_of(theory, conclude_pair(root, rule, left, right))
        }
    }
}

// The smallest part that concludes the same.
fn least_of(theory: &Theory, whole: Concluded) -> Concluded
    requires fits_u32 { nodes (tree_of whole.deriv.value) < 2 ^ 32 }
    ensures least { (t : Tree) → IsConcluded theory.now t whole → IsLeastPart theory.now t result }
{
    match whole.dep {
        None => whole,
        Some(dep) => match seek(theory, whole.deriv, dep) {
            Sought::Found(deriv) => Concluded {
                deriv,
                dep: Some(dep),
            },
            Sought::Whole(same) => same,
        },
    }
}

// The smallest part that concludes a dependency.
fn seek(theory: &Theory, deriv: Box<Deriv>, sought: Dep) -> Sought
    requires fits_u32 { nodes (tree_of deriv.value) < 2 ^ 32 }
    ensures sought { IsSought theory.now (tree_of deriv.value) (dependency_of sought) result }
{
    let mut root = deriv;
    match mem::replace(&mut *root, Deriv::Leaf(LeafRule::Given(0))) {
        Deriv::Leaf(rule) => seek_root(conclude_leaf(theory, root, rule), sought),
        Deriv::Step(rule, premise) => {
            let from = seek(theory, premise, sought);
            seek_step(theory, root, rule, from, sought)
        }
        Deriv::Pair(rule, first, second) => {
            let left = seek(theory, first, sought);
            let right = seek(theory, second, sought);
            seek_pair(root, rule, left, right, sought)
        }
    }
}

// The same in a tree whose root has one premise, after the search in it.
fn seek_step(theory: &Theory, room: Box<Deriv>, rule: StepRule, from: Sought, sought: Dep) -> Sought
    ensures sought { (t : Tree) → IsSought theory.now t (dependency_of sought) from
        → IsSought theory.now (step (step_of rule) t) (dependency_of sought) result }
{
    match from {
        Sought::Found(part) => Sought::Found(part),
        Sought::Whole(premise) => seek_root(conclude_step(theory, room, rule, premise), sought),
    }
}

// The same in a tree whose root has two premises, after the search in both.
fn seek_pair(room: Box<Deriv>, rule: PairRule, left: Sought, right: Sought, sought: Dep) -> Sought
    requires left_fits_u32 { NodesFit left }
    requires right_fits_u32 { NodesFit right }
    ensures sought { (s : Theory) (t u : Tree) → IsSought s t (dependency_of sought) left
        → IsSought s u (dependency_of sought) right
        → IsSought s (pair (pair_of rule) t u) (dependency_of sought) result }
{
    match (left, right) {
        (Sought::Found(one), Sought::Found(other)) => {
            if nodes(&one) <= nodes(&other) {
                Sought::Found(one)
            } else {
                Sought::Found(other)
            }
        }
        (Sought::Found(one), Sought::Whole(_)) => Sought::Found(one),
        (Sought::Whole(_), Sought::Found(other)) => Sought::Found(other),
        (Sought::Whole(first), Sought::Whole(second)) => {
            seek_root(conclude_pair(room, rule, first, second), sought)
        }
    }
}

// Whether a derivation concludes what is sought, where no node below its root does.
fn seek_root(whole: Concluded, sought: Dep) -> Sought
    ensures sought { (s : Theory) (t : Tree) → IsConcluded s t whole → NoneBelow s t (dependency_of sought)
        → IsSought s t (dependency_of sought) result }
{
    match whole.dep {
        Some(dep) => {
            if same_dep(dep, sought) {
                Sought::Found(whole.deriv)
            } else {
                Sought::Whole(whole)
            }
        }
        None => Sought::Whole(whole),
    }
}

/// Whether two dependencies are the same.
pub fn same_dep(one: Dep, other: Dep) -> bool
    ensures same { IsTrue result ↔ (dependency_of one ≡ dependency_of other) }
{
    match (one, other) {
        (Dep::Fd { lhs: x, rhs: y }, Dep::Fd { lhs: v, rhs: w }) => x == v && y == w,
        (Dep::Mvd { lhs: x, rhs: y }, Dep::Mvd { lhs: v, rhs: w }) => x == v && y == w,
        _ => false,
    }
}

// What a rule alone concludes, if anything.
fn leaf_dep(theory: &Theory, rule: LeafRule) -> Option<Dep>
    ensures only { ConcludesOnly theory.now (leaf (leaf_of rule)) result }
{
    match leaf_conclusion(theory, rule) {
        Ok(dep) => Some(dep),
        Err(_) => None,
    }
}

fn step_dep(theory: &Theory, rule: StepRule, from: Option<Dep>) -> Option<Dep>
    ensures only { (t : Tree) → ConcludesOnly theory.now t from
        → ConcludesOnly theory.now (step (step_of rule) t) result }
{
    match from {
        Some(premise) => match step_conclusion(theory, rule, premise) {
            Ok(dep) => Some(dep),
            Err(_) => None,
        },
        None => None,
    }
}

fn pair_dep(rule: PairRule, first: Option<Dep>, second: Option<Dep>) -> Option<Dep>
    ensures only { (s : Theory) (t u : Tree) → ConcludesOnly s t first → ConcludesOnly s u second
        → ConcludesOnly s (pair (pair_of rule) t u) result }
{
    match (first, second) {
        (Some(one), Some(other)) => match pair_conclusion(rule, one, other) {
            Ok(dep) => Some(dep),
            Err(_) => None,
        },
        _ => None,
    }
}

// A rule alone, in the room of another node.
fn conclude_leaf(theory: &Theory, room: Box<Deriv>, rule: LeafRule) -> Concluded
    ensures concluded { IsConcluded theory.now (leaf (leaf_of rule)) result }
{
    let mut deriv = room;
    *deriv = Deriv::Leaf(rule);
    Concluded {
        deriv,
        dep: leaf_dep(theory, rule),
    }
}

// A rule over a premise.
fn conclude_step(theory: &Theory, room: Box<Deriv>, rule: StepRule, from: Concluded) -> Concluded
    ensures concluded { (t : Tree) → IsConcluded theory.now t from
        → IsConcluded theory.now (step (step_of rule) t) result }
{
    let mut deriv = room;
    let dep = step_dep(theory, rule, from.dep);
    *deriv = Deriv::Step(rule, from.deriv);
    Concluded { deriv, dep }
}

// A rule over two premises.
fn conclude_pair(room: Box<Deriv>, rule: PairRule, first: Concluded, second: Concluded) -> Concluded
    ensures concluded { (s : Theory) (t u : Tree) → IsConcluded s t first → IsConcluded s u second
        → IsConcluded s (pair (pair_of rule) t u) result }
{
    let mut deriv = room;
    let dep = pair_dep(rule, first.dep, second.dep);
    *deriv = Deriv::Pair(rule, first.deriv, second.deriv);
    Concluded { deriv, dep }
}
