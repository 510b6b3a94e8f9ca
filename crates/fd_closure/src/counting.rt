ghost use Rattle.std.specs.Prelude.{◌≡◌, ℕ, ◌<◌, ◌≤◌, ◌↔◌, true, IfOk, All};
ghost use Rattle.attr_sets.specs.Attributes.{below, IsSubset};
ghost use Rattle.attr_sets.specs.Sets.{attributes};
ghost use Rattle.dep_model.specs.Dependencies.{functional_part};
ghost use Rattle.dep_model.specs.Deps.{dependencies_of, IsDepWithin};
ghost use Rattle.dep_model.specs.Keys.{InClosure};
ghost use Rattle.fd_closure.specs.FunctionallyClosed.{IsFunctionallyClosed};
ghost use Rattle.fd_closure.specs.Growth.{Grows};

use crate::closing::{with_right_side, with_right_sides};
use attr_sets::{AttrSet, MOST_ATTRIBUTES};
use dep_model::{Dep, OutOfMemory, sides};
use std::alloc::Global;

/// Room for closures by a list of dependencies (Beeri and Bernstein 1979). Each member counts the
/// attributes of its left side that are still missing, and gives its right side once there are none.
///
/// The counts only find what follows fast; what a closure holds does not rest on them. So counters made
/// for one list of dependencies serve any list of that length.
#[derive(Debug, Drop)]
pub struct Counters {
    index: Index,
    counts: Vec<Count>,
}

/// For each attribute, the members whose left side holds it: those of attribute `a` stand in `members`
/// from `starts[a]` up to `starts[a + 1]`. It is a matter of speed alone: a closure ends with a pass over all
/// members, which adds what an index that lacks some has left out.
#[derive(Debug, Drop)]
struct Index {
    starts: Vec<usize>,
    members: Vec<usize>,
}

/// How many attributes the left side of a member has, and how many of them are still missing.
#[derive(Clone, Copy, Debug)]
struct Count {
    all: u8,
    missing: u8,
}

impl Counters {
    ghost use Rattle.fd_closure.specs.Counting.{FitsList};

    /// Counters for a list of dependencies over `width` attributes.
    pub fn new(alloc: Global, deps: &[Dep], width: u8) -> Result<Counters, OutOfMemory>
        requires width { width ≤ MOST_ATTRIBUTES }
        ensures fits { IfOk result (λ counters. FitsList counters deps.now) }
    {
        let index = Index::new(alloc, deps, width)?;
        let mut counts = Vec::with_capacity(alloc, deps.len())?;
        for dep in deps {
            let (lhs, _) = sides(*dep);
            let all = lhs.len();
            counts.push(Count { all, missing: all })?;
        }
        Ok(Counters { index, counts })
    }
}

ghost use Rattle.fd_closure.specs.Counting.{FitsList};

/// The attributes that `from` determines by the functional dependencies of a list.
pub fn functional_closure_with(counters: &mut Counters, deps: &[Dep], from: AttrSet) -> AttrSet
    requires fits { FitsList counters.old deps.now }
    ensures closure { (n : ℕ) → All (IsDepWithin (below n)) deps.now
        → IsSubset (attributes from) (below n)
        → (a : ℕ) → (attributes result a ≡ true)
        ↔ InClosure n (functional_part (dependencies_of deps.now)) (attributes from) a }
    ensures fits { FitsList counters.new deps.now }
{
    close_from(&counters.index, &mut counters.counts, deps, from)
}

// All that follows from a set.
fn close_from(index: &Index, counts: &mut [Count], deps: &[Dep], from: AttrSet) -> AttrSet
    ensures grows { Grows deps.now (attributes from) (attributes result) }
    ensures functionally_closed { IsFunctionallyClosed (functional_part (dependencies_of deps.now))
        (attributes result) }
{
    let mut closed = from;
    loop {
        let near = spread_by_counts(index, counts, deps, closed);
        // what no count said: members with an empty left side, and in the end none
        let more = with_right_sides(deps, near);
        if more == near {
            return near;
        }
        closed = more;
    }
}

// What follows from a set as far as the counts tell: each attribute that is found lowers the count of
// those that miss it.
fn spread_by_counts(index: &Index, counts: &mut [Count], deps: &[Dep], from: AttrSet) -> AttrSet
    ensures grows { Grows deps.now (attributes from) (attributes result) }
{
    miss_all(counts);
    let mut closed = from;
    let mut untried = from;
    for _ in 0..MOST_ATTRIBUTES {
        let Some(attribute) = untried.first() else {
            return closed;
        };
        let more = add_ready_members(index.members_with(attribute), counts, deps, closed);
        untried = untried.without(attribute).union(more.difference(closed));
        closed = more;
    }
    closed
}

// Counts from the start: every attribute is missing.
fn miss_all(counts: &mut [Count]) {
    for count in counts.iter_mut() {
        count.missing = count.all;
    }
}

// The set with the right sides of those of some members, each of which has found one more attribute,
// that miss none now.
fn add_ready_members(
    members: &[usize],
    counts: &mut [Count],
    deps: &[Dep],
    closed: AttrSet,
) -> AttrSet
    ensures grows { Grows deps.now (attributes closed) (attributes result) }
{
    let mut more = closed;
    for k in members {
        if misses_none(counts, *k) {
            more = with_right_side_at(deps, *k, more);
        }
    }
    more
}

// Whether member `k` misses no attribute, now that one more is found.
fn misses_none(counts: &mut [Count], k: usize) -> bool {
    if k >= counts.len() {
        return false;
    }
    let missing = counts[k].missing.saturating_sub(1);
    counts[k].missing = missing;
    missing == 0
}

// The set with the right side of member `k`, where the set holds its left side.
fn with_right_side_at(deps: &[Dep], k: usize, closed: AttrSet) -> AttrSet
    ensures grows { Grows deps.now (attributes closed) (attributes result) }
{
    if k < deps.len() {
        with_right_side(deps[k], closed)
    } else {
        closed
    }
}

impl Index {
    fn new(alloc: Global, deps: &[Dep], width: u8) -> Result<Index, OutOfMemory>
        requires width { width ≤ MOST_ATTRIBUTES }
    {
        let mut starts = Vec::with_capacity(alloc, width as usize + 1)?;
        let mut members = Vec::new(alloc);
        starts.push(0)?;
        for attribute in 0..width {
            add_members(&mut members, deps, attribute)?;
            starts.push(members.len())?;
        }
        Ok(Index { starts, members })
    }

    // The members whose left side holds an attribute.
    fn members_with(&self, attribute: u8) -> &[usize] {
        let a = attribute as usize;
        if a + 1 >= self.starts.len() {
            return &[];
        }
        match self.members.get(self.starts[a]..self.starts[a + 1]) {
            Some(members) => members,
            None => &[],
        }
    }
}

// Adds the functional dependencies whose left side holds an attribute.
fn add_members(members: &mut Vec<usize>, deps: &[Dep], attribute: u8) -> Result<(), OutOfMemory>
    requires attribute { attribute < MOST_ATTRIBUTES }
{
    for (k, dep) in deps.iter().enumerate() {
        match *dep {
            Dep::Fd { lhs, .. } if lhs.contains(attribute) => members.push(k)?,
            _ => {}
        }
    }
    Ok(())
}
