//! The links that a goal needs.

ghost use Rattle.std.specs.Prelude.{◌≤◌, ◌++◌, ◌↔◌, List, All, IsTrue, IfOk, length};
ghost use Rattle.dep_model.specs.Deps.{dependency_of, IsDepWithin};
ghost use Rattle.dep_model.specs.Implication.{Implies};
ghost use Rattle.dep_model.specs.Theories.{width_of, universe_of};
ghost use Rattle.short_derivations.specs.Links.{IsLinkOf, IsNeeded, said_by};

use crate::links::{Link, add_link_deps};
use dep_basis::is_implied_by;
use dep_model::{Dep, OutOfMemory, Theory};
use std::alloc::Global;

// The links that a goal needs: of links that imply it, each is left out that those kept before it and all
// after it make needless.
pub fn needed_links(
    alloc: Global,
    theory: &Theory,
    links: &[Link],
    goal: Dep,
) -> Result<Vec<Link>, OutOfMemory>
    requires links { All (IsLinkOf theory.now) links.now }
    requires goal { IsDepWithin (universe_of theory.now) goal }
    requires implied { Implies (width_of theory.now) (said_by links.now) (dependency_of goal) }
    ensures implied { IfOk result (λ kept. Implies (width_of theory.now) (said_by kept.items)
        (dependency_of goal)) }
    ensures needed { IfOk result (λ kept. All (IsNeeded (width_of theory.now) (dependency_of goal)
        (said_by kept.items)) (said_by kept.items)) }
    ensures links { IfOk result (λ kept. All (IsLinkOf theory.now) kept.items) }
    ensures shorter { IfOk result (λ kept. length kept.items ≤ length links.now) }
{
    let mut kept = Vec::new(alloc);
    for k in 0..links.len() {
        let link = links[k];
        if !follows_without(alloc, theory, &kept, &links[k + 1..], goal)? {
            kept.push(link)?;
        }
    }
    Ok(kept)
}

// Whether a goal follows from two lists of links.
fn follows_without(
    alloc: Global,
    theory: &Theory,
    kept: &[Link],
    rest: &[Link],
    goal: Dep,
) -> Result<bool, OutOfMemory>
    requires kept { All (IsLinkOf theory.now) kept.now }
    requires rest { All (IsLinkOf theory.now) rest.now }
    requires goal { IsDepWithin (universe_of theory.now) goal }
    ensures implied { IfOk result (λ follows. IsTrue follows
        ↔ Implies (width_of theory.now) (said_by (kept.now ++ rest.now)) (dependency_of goal)) }
{
    let mut deps = Vec::new(alloc);
    add_link_deps(&mut deps, kept)?;
    add_link_deps(&mut deps, rest)?;
    Ok(is_implied_by(&deps, theory.width(), goal))
}
