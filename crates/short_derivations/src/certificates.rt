//! The links that a certificate stands on.

ghost use Rattle.std.specs.Prelude.{◌≡◌, ◌++◌, All, OnOk, IfOk, Some, slice_get, option_map};
ghost use Rattle.dep_model.specs.Deps.{dependency_of};
ghost use Rattle.dep_model.specs.Theories.{Theory, theory_of};
ghost use Rattle.derivation.specs.Trees.{leaf};
ghost use Rattle.derivation.specs.Derivs.{tree_of, leaf_of};
ghost use Rattle.short_derivations.specs.Links.{IsLinkOf, functional_leaves, functional_one, said_by};

use crate::links::Link;
use dep_model::{Dep, OutOfMemory, Theory};
use derivation::{Deriv, LeafRule};
use std::alloc::Global;

// The functional dependencies of a theory that stand at the leaves of a certificate.
pub fn certificate_links(
    alloc: Global,
    theory: &Theory,
    certificate: &Deriv,
) -> Result<Vec<Link>, OutOfMemory>
    ensures links { IfOk result (λ links. All (IsLinkOf theory.now) links.items) }
    ensures said { IfOk result (λ links. said_by links.items
        ≡ functional_leaves theory.now (tree_of certificate.now)) }
{
    let mut links = Vec::new(alloc);
    add_links(theory, certificate, &mut links)?;
    Ok(links)
}

// Adds those of a derivation.
fn add_links(theory: &Theory, deriv: &Deriv, links: &mut Vec<Link>) -> Result<(), OutOfMemory>
    ensures links { All (IsLinkOf theory.now) links.old.items
        → OnOk result (All (IsLinkOf theory.now) links.new.items) }
    ensures said { OnOk result (said_by links.new.items
        ≡ said_by links.old.items ++ functional_leaves theory.now (tree_of deriv.now)) }
{
    match deriv {
        Deriv::Leaf(rule) => add_leaf(theory, *rule, links),
        Deriv::Step(_, premise) => add_links(theory, premise, links),
        Deriv::Pair(_, first, second) => {
            add_links(theory, first, links)?;
            add_links(theory, second, links)
        }
    }
}

// Adds that of a leaf.
fn add_leaf(theory: &Theory, rule: LeafRule, links: &mut Vec<Link>) -> Result<(), OutOfMemory>
    ensures links { All (IsLinkOf theory.now) links.old.items
        → OnOk result (All (IsLinkOf theory.now) links.new.items) }
    ensures said { OnOk result (said_by links.new.items
        ≡ said_by links.old.items ++ functional_leaves theory.now (leaf (leaf_of rule))) }
{
    match rule {
        LeafRule::Given(position) => add_given(theory, position, links),
        LeafRule::Reflexivity { .. } | LeafRule::MReflexivity { .. } => Ok(()),
    }
}

// Adds the dependency at a position, if it is functional.
fn add_given(theory: &Theory, position: u16, links: &mut Vec<Link>) -> Result<(), OutOfMemory>
    ensures links { All (IsLinkOf theory.now) links.old.items
        → OnOk result (All (IsLinkOf theory.now) links.new.items) }
    ensures said { OnOk result (said_by links.new.items
        ≡ said_by links.old.items ++ functional_one (slice_get (theory_of theory.now) position)) }
{
    match given_at(theory, position) {
        Some(dep) => add_functional(links, position, dep),
        None => Ok(()),
    }
}

// The dependency at a position.
pub fn given_at(theory: &Theory, position: u16) -> Option<Dep>
    ensures at { option_map dependency_of result ≡ slice_get (theory_of theory.now) position }
{
    match theory.deps().get(position as usize) {
        Some(dep) => Some(*dep),
        None => None,
    }
}

// Adds a dependency that stands at a position, if it is functional.
pub fn add_functional(links: &mut Vec<Link>, position: u16, dep: Dep) -> Result<(), OutOfMemory>
    ensures links { (s : Theory) → slice_get (theory_of s) position ≡ Some (dependency_of dep)
        → All (IsLinkOf s) links.old.items → OnOk result (All (IsLinkOf s) links.new.items) }
    ensures said { OnOk result (said_by links.new.items
        ≡ said_by links.old.items ++ functional_one (Some (dependency_of dep))) }
{
    match dep {
        Dep::Fd { lhs, rhs } => {
            links.push(Link { position, lhs, rhs })?;
            Ok(())
        }
        Dep::Mvd { .. } => Ok(()),
    }
}
