ghost use Rattle.std.specs.Prelude.{◌≡◌, ◌⊎◌, All, IfSome};
ghost use Rattle.attr_sets.specs.Attributes.{IsSubset};
ghost use Rattle.attr_sets.specs.Sets.{attributes};
ghost use Rattle.dep_model.specs.Dependencies.{ObeysFd};
ghost use Rattle.dep_model.specs.Theories.{width_of, deps_of, theory_of, universe_of};
ghost use Rattle.dep_model.specs.Tuples.{Relation};
ghost use Rattle.fd_closure.specs.Counting.{FitsList};
ghost use Rattle.preservation.specs.SchemeClosures.{IsSchemeClosure, schemes_of_closures, plan_of_closures};
ghost use Rattle.preservation.specs.Keeping.{FollowsInside, ObeysInside};
ghost use Rattle.preservation.specs.FunctionallyClosed.{TellsKeptClosure, IsFunctionallyClosedIn, IsKeptClosure};

use crate::scheme_closure::{SchemeClosure, closure_covering};
use attr_sets::AttrSet;
use dep_model::Theory;
use fd_closure::Counters;

/// A left side, and all that follows from it by the dependencies inside the schemes of a plan.
#[derive(Clone, Copy, Debug)]
pub struct Closed {
    pub from: AttrSet,
    pub closed: AttrSet,
}

/// The same as `kept_closure`, which is not asked again for the left side of which all was found last.
pub fn closure_after(
    theory: &Theory,
    counters: &mut Counters,
    closures: &mut [SchemeClosure],
    last: Option<Closed>,
    from: AttrSet,
    wanted: AttrSet,
) -> AttrSet
    requires fits { FitsList counters.old (deps_of theory.now) }
    requires known { All (IsSchemeClosure (width_of theory.now) (theory_of theory.now)) closures.old }
    requires last { IfSome last
        (TellsKeptClosure (width_of theory.now) (theory_of theory.now) (plan_of_closures closures.old)) }
    requires from { IsSubset (attributes from) (universe_of theory.now) }
    ensures follows { FollowsInside (width_of theory.now) (theory_of theory.now) (plan_of_closures closures.old)
        (attributes from) (attributes result) }
    ensures found { IsSubset (attributes wanted) (attributes result)
        ⊎ IsKeptClosure (width_of theory.now) (theory_of theory.now) (plan_of_closures closures.old)
        (attributes from) (attributes result) }
    ensures known { All (IsSchemeClosure (width_of theory.now) (theory_of theory.now)) closures.new }
    ensures schemes { schemes_of_closures closures.new ≡ schemes_of_closures closures.old }
    ensures fits { FitsList counters.new (deps_of theory.now) }
{
    if let Some(previous) = last {
        if previous.from == from {
            return previous.closed;
        }
    }
    kept_closure(theory, counters, closures, from, wanted)
}

/// The attributes that follow from a set by the functional dependencies inside the schemes of a plan,
/// of those that the functional dependencies of the schema imply (Ullman 1982): all of them, unless
/// what is wanted is found before.
///
/// Two tuples that agree exactly on all of them obey all these dependencies.
pub fn kept_closure(
    theory: &Theory,
    counters: &mut Counters,
    closures: &mut [SchemeClosure],
    from: AttrSet,
    wanted: AttrSet,
) -> AttrSet
    requires fits { FitsList counters.old (deps_of theory.now) }
    requires known { All (IsSchemeClosure (width_of theory.now) (theory_of theory.now)) closures.old }
    requires from { IsSubset (attributes from) (universe_of theory.now) }
    ensures follows { FollowsInside (width_of theory.now) (theory_of theory.now) (plan_of_closures closures.old)
        (attributes from) (attributes result) }
    ensures found { IsSubset (attributes wanted) (attributes result)
        ⊎ IsKeptClosure (width_of theory.now) (theory_of theory.now) (plan_of_closures closures.old)
        (attributes from) (attributes result) }
    ensures known { All (IsSchemeClosure (width_of theory.now) (theory_of theory.now)) closures.new }
    ensures schemes { schemes_of_closures closures.new ≡ schemes_of_closures closures.old }
    ensures fits { FitsList counters.new (deps_of theory.now) }
{
    let mut closed = from;
    loop {
        let more = with_schemes(theory, counters, closures, closed);
        if more == closed {
            return closed;
        }
        if wanted.is_subset(more) {
            return more;
        }
        closed = more;
    }
}

// The set with what each scheme adds to it, where each is tried once.
fn with_schemes(
    theory: &Theory,
    counters: &mut Counters,
    closures: &mut [SchemeClosure],
    closed: AttrSet,
) -> AttrSet
    requires fits { FitsList counters.old (deps_of theory.now) }
    requires known { All (IsSchemeClosure (width_of theory.now) (theory_of theory.now)) closures.old }
    requires closed { IsSubset (attributes closed) (universe_of theory.now) }
    ensures grows { IsSubset (attributes closed) (attributes result) }
    ensures within { IsSubset (attributes result) (universe_of theory.now) }
    ensures kept { (r : Relation)
        → ObeysInside (width_of theory.now) (theory_of theory.now) (plan_of_closures closures.old) r
        → ObeysFd (attributes closed) (attributes result) r }
    ensures functionally_closed { IsSubset (attributes result) (attributes closed)
        → All (λ scheme. IsFunctionallyClosedIn (width_of theory.now) (theory_of theory.now)
        (attributes scheme)
        (attributes closed) (attributes closed)) (schemes_of_closures closures.old) }
    ensures known { All (IsSchemeClosure (width_of theory.now) (theory_of theory.now)) closures.new }
    ensures schemes { schemes_of_closures closures.new ≡ schemes_of_closures closures.old }
    ensures fits { FitsList counters.new (deps_of theory.now) }
{
    let mut more = closed;
    for i in 0..closures.len() {
        let closure = closure_covering(theory, counters, closures[i], more);
        more = more.union(closure.closed);
        closures[i] = closure;
    }
    more
}
