ghost use Rattle.std.specs.Prelude.{◌≡◌, ℕ, ◌↔◌, ◌⊎◌, true, All};
ghost use Rattle.attr_sets.specs.Attributes.{Attributes, below, IsSubset};
ghost use Rattle.attr_sets.specs.Sets.{attributes};
ghost use Rattle.dep_model.specs.Tuples.{Relation};
ghost use Rattle.dep_model.specs.Dependencies.{fd, ObeysFd, functional_part};
ghost use Rattle.dep_model.specs.Deps.{IfFd, dependencies_of, IsDepWithin};
ghost use Rattle.dep_model.specs.Implication.{Implies};
ghost use Rattle.dep_model.specs.Keys.{InClosure};
ghost use Rattle.fd_closure.specs.Following.{SaysWhetherFollows};
ghost use Rattle.fd_closure.specs.FunctionallyClosed.{IsFunctionallyClosed};
ghost use Rattle.fd_closure.specs.Growth.{Grows};

use attr_sets::AttrSet;
use dep_model::Dep;

/// The attributes that `from` determines by the functional dependencies of a list (Maier 1983).
/// Multivalued ones are passed over.
pub fn functional_closure(deps: &[Dep], from: AttrSet) -> AttrSet
    ensures closure { (n : ℕ) → All (IsDepWithin (below n)) deps.now
        → IsSubset (attributes from) (below n)
        → (a : ℕ) → (attributes result a ≡ true)
        ↔ InClosure n (functional_part (dependencies_of deps.now)) (attributes from) a }
{
    let mut closed = from;
    loop {
        let more = with_right_sides(deps, closed);
        if more == closed {
            return closed;
        }
        closed = more;
    }
}

/// Whether `lhs -> rhs` is implied by the functional dependencies of a list. The search ends as soon as
/// the right side is found.
pub fn follows(deps: &[Dep], lhs: AttrSet, rhs: AttrSet) -> bool
    ensures implied { SaysWhetherFollows deps.now (attributes lhs) (attributes rhs) result }
{
    rhs.is_subset(closed_until(deps, lhs, rhs))
}

// What follows from a set: all of it, unless what is wanted is found before.
fn closed_until(deps: &[Dep], from: AttrSet, wanted: AttrSet) -> AttrSet
    ensures grows { Grows deps.now (attributes from) (attributes result) }
    ensures found { IsSubset (attributes wanted) (attributes result)
        ⊎ IsFunctionallyClosed (functional_part (dependencies_of deps.now)) (attributes result) }
{
    let mut found = from;
    loop {
        if wanted.is_subset(found) {
            return found;
        }
        let more = with_right_sides(deps, found);
        if more == found {
            return found;
        }
        found = more;
    }
}

// The set with the right side of each functional dependency whose left side it comes to hold, where
// each is tried once.
pub fn with_right_sides(deps: &[Dep], closed: AttrSet) -> AttrSet
    ensures grows { IsSubset (attributes closed) (attributes result) }
    ensures within { (universe : Attributes) → All (IsDepWithin universe) deps.now
        → IsSubset (attributes closed) universe → IsSubset (attributes result) universe }
    ensures implied { (n : ℕ)
        → Implies n (functional_part (dependencies_of deps.now)) (fd (attributes closed)
        (attributes result)) }
    ensures functionally_closed { IsSubset (attributes result) (attributes closed)
        → IsFunctionallyClosed (functional_part (dependencies_of deps.now)) (attributes closed) }
{
    let mut more = closed;
    for dep in deps {
        more = with_right_side(*dep, more);
    }
    more
}

// The set with the right side of a functional dependency whose left side it holds.
pub fn with_right_side(dep: Dep, closed: AttrSet) -> AttrSet
    ensures grows { IsSubset (attributes closed) (attributes result) }
    ensures within { (universe : Attributes) → IsDepWithin universe dep
        → IsSubset (attributes closed) universe → IsSubset (attributes result) universe }
    ensures implied { (r : Relation) → IfFd (λ x y. ObeysFd x y r) dep
        → ObeysFd (attributes closed) (attributes result) r }
    ensures functionally_closed { IfFd (λ x y. IsSubset x (attributes closed)
        → IsSubset y (attributes result)) dep }
{
    match dep {
        Dep::Fd { lhs, rhs } => {
            if lhs.is_subset(closed) {
                closed.union(rhs)
            } else {
                closed
            }
        }
        Dep::Mvd { .. } => closed,
    }
}
