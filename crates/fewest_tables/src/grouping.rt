ghost use Rattle.std.specs.Prelude.{◌≡◌, ◌++◌, ◌∷◌, [], if◌then◌else◌, All, IfOk, OnOk};
ghost use Rattle.std.specs.List.{list_any};
ghost use Rattle.attr_sets.specs.Attributes.{IsSubset};
ghost use Rattle.attr_sets.specs.Sets.{attributes};
ghost use Rattle.dep_model.specs.Dependencies.{functional_part};
ghost use Rattle.dep_model.specs.Plans.{schemes_of};
ghost use Rattle.dep_model.specs.Theories.{width_of, universe_of, theory_of};
ghost use Rattle.fd_closure.specs.Closures.{IsKnownClosure};
ghost use Rattle.fewest_tables.specs.Alike.{AreGroups, firsts_after};
ghost use Rattle.fewest_tables.specs.FewestSteps.{group_with, groups_in, same_closure, set_of, sets_of};

use attr_sets::AttrSet;
use dep_model::{OutOfMemory, Theory};
use fd_closure::{KnownClosure, functional_closure};
use std::alloc::Global;

/// Left sides in groups: all of them, each with what it determines, and the first of each group of
/// those that determine each other.
#[derive(Drop)]
pub struct Grouping {
    pub lefts: Vec<KnownClosure>,
    pub firsts: Vec<KnownClosure>,
}

// The groups of left sides that determine each other by the functional dependencies: those with the
// same closure.
pub fn group_left_sides(
    alloc: Global,
    theory: &Theory,
    lefts: &[AttrSet],
) -> Result<Grouping, OutOfMemory>
    requires within { All (λ left. IsSubset (attributes left) (universe_of theory.now)) lefts.now }
    ensures grouped { IfOk result (λ groups. AreGroups (width_of theory.now) (theory_of theory.now)
        (schemes_of lefts.now) (groups_in groups)) }
{
    let lefts = with_closures(alloc, theory, lefts)?;
    let firsts = first_of_each(alloc, &lefts)?;
    Ok(Grouping { lefts, firsts })
}

// Left sides, each with what it determines by the functional dependencies.
fn with_closures(
    alloc: Global,
    theory: &Theory,
    lefts: &[AttrSet],
) -> Result<Vec<KnownClosure>, OutOfMemory>
    requires within { All (λ left. IsSubset (attributes left) (universe_of theory.now)) lefts.now }
    ensures sets { IfOk result (λ known. sets_of known.items ≡ schemes_of lefts.now) }
    ensures known { IfOk result (λ known. All (IsKnownClosure (width_of theory.now)
        (functional_part (theory_of theory.now))) known.items) }
{
    let mut known = Vec::new(alloc);
    for left in lefts {
        known.push(with_closure(theory, *left))?;
    }
    Ok(known)
}

// A left side with what it determines.
fn with_closure(theory: &Theory, left: AttrSet) -> KnownClosure
    requires within { IsSubset (attributes left) (universe_of theory.now) }
    ensures set { set_of result ≡ attributes left }
    ensures known { IsKnownClosure (width_of theory.now) (functional_part (theory_of theory.now)) result }
{
    KnownClosure {
        of: left,
        closed: functional_closure(theory.deps(), left),
    }
}

// Those of a list whose closure none before them has.
fn first_of_each(alloc: Global, known: &[KnownClosure]) -> Result<Vec<KnownClosure>, OutOfMemory>
    ensures firsts { IfOk result (λ firsts. firsts.items ≡ firsts_after same_closure [] known.now) }
{
    let mut firsts = Vec::new(alloc);
    for one in known {
        add_first(&mut firsts, *one)?;
    }
    Ok(firsts)
}

// Adds a set to those of other closures.
fn add_first(firsts: &mut Vec<KnownClosure>, one: KnownClosure) -> Result<(), OutOfMemory>
    ensures added { OnOk result (firsts.new.items
        ≡ (if list_any (λ other. same_closure other one) firsts.old.items then firsts.old.items
        else (firsts.old.items ++ one ∷ []))) }
{
    if has_closure_of(firsts, one) {
        return Ok(());
    }
    firsts.push(one)?;
    Ok(())
}

// Whether one of these has the closure of a set.
fn has_closure_of(firsts: &[KnownClosure], one: KnownClosure) -> bool
    ensures same { result ≡ list_any (λ other. same_closure other one) firsts.now }
{
    firsts.iter().any(|other| other.closed == one.closed)
}

/// The sets of a list that have the closure of one, in order.
pub fn group_with(
    alloc: Global,
    known: &[KnownClosure],
    one: KnownClosure,
) -> Result<Vec<AttrSet>, OutOfMemory>
    ensures group { IfOk result (λ group. schemes_of group.items ≡ group_with known.now one) }
{
    let mut group = Vec::new(alloc);
    for other in known {
        add_alike(&mut group, one, *other)?;
    }
    Ok(group)
}

// Adds a set that has the closure of another to a group.
fn add_alike(
    group: &mut Vec<AttrSet>,
    one: KnownClosure,
    other: KnownClosure,
) -> Result<(), OutOfMemory>
    ensures added { OnOk result (schemes_of group.new.items
        ≡ schemes_of group.old.items ++ group_with (other ∷ []) one) }
{
    if one.closed == other.closed {
        group.push(other.of)?;
    }
    Ok(())
}
