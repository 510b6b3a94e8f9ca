ghost use Rattle.std.specs.Prelude.{◌≡◌, All, IfOk};
ghost use Rattle.attr_sets.specs.Attributes.{IsSubset, intersection};
ghost use Rattle.attr_sets.specs.Sets.{attributes};
ghost use Rattle.dep_model.specs.Theories.{width_of, deps_of, theory_of, universe_of};
ghost use Rattle.fd_closure.specs.Counting.{FitsList};
ghost use Rattle.preservation.specs.SchemeClosures.{IsSchemeClosure, schemes_of_closures};

use attr_sets::AttrSet;
use dep_model::{OutOfMemory, Theory};
use fd_closure::{Counters, functional_closure_with};
use std::alloc::Global;

/// What a part of a scheme determines inside it.
///
/// Any part between the two determines the same, so it is found anew only for others.
#[derive(Clone, Copy, Debug)]
pub struct SchemeClosure {
    pub scheme: AttrSet,
    pub part: AttrSet,
    pub closed: AttrSet,
}

/// What nothing determines inside each scheme of a plan.
pub fn scheme_closures(
    alloc: Global,
    theory: &Theory,
    counters: &mut Counters,
    schemes: &[AttrSet],
) -> Result<Vec<SchemeClosure>, OutOfMemory>
    requires fits { FitsList counters.old (deps_of theory.now) }
    requires schemes { All (λ scheme. IsSubset (attributes scheme)
        (universe_of theory.now)) schemes.now }
    ensures known { IfOk result (λ v. All (IsSchemeClosure (width_of theory.now) (theory_of theory.now)) v.items) }
    ensures schemes { IfOk result (λ v. schemes_of_closures v.items ≡ schemes.now) }
    ensures fits { FitsList counters.new (deps_of theory.now) }
{
    let mut closures = Vec::with_capacity(alloc, schemes.len())?;
    for scheme in schemes {
        closures.push(closure_within(theory, counters, *scheme, AttrSet::empty()))?;
    }
    Ok(closures)
}

// What a part determines inside a scheme.
fn closure_within(
    theory: &Theory,
    counters: &mut Counters,
    scheme: AttrSet,
    part: AttrSet,
) -> SchemeClosure
    requires fits { FitsList counters.old (deps_of theory.now) }
    requires scheme { IsSubset (attributes scheme) (universe_of theory.now) }
    requires part { IsSubset (attributes part) (attributes scheme) }
    ensures known { IsSchemeClosure (width_of theory.now) (theory_of theory.now) result }
    ensures scheme { result.scheme ≡ scheme }
    ensures part { result.part ≡ part }
    ensures fits { FitsList counters.new (deps_of theory.now) }
{
    let closed = functional_closure_with(counters, theory.deps(), part).intersection(scheme);
    SchemeClosure {
        scheme,
        part,
        closed,
    }
}

/// What some part of a set determines inside a scheme, where the set has no more of the scheme.
pub fn closure_covering(
    theory: &Theory,
    counters: &mut Counters,
    closure: SchemeClosure,
    closed: AttrSet,
) -> SchemeClosure
    requires fits { FitsList counters.old (deps_of theory.now) }
    requires known { IsSchemeClosure (width_of theory.now) (theory_of theory.now) closure }
    ensures known { IsSchemeClosure (width_of theory.now) (theory_of theory.now) result }
    ensures scheme { result.scheme ≡ closure.scheme }
    ensures part { IsSubset (attributes result.part) (attributes closed) }
    ensures covers { IsSubset (intersection (attributes closed) (attributes closure.scheme))
        (attributes result.closed) }
    ensures fits { FitsList counters.new (deps_of theory.now) }
{
    let part = closed.intersection(closure.scheme);
    if closure.part.is_subset(part) && part.is_subset(closure.closed) {
        closure
    } else {
        closure_within(theory, counters, closure.scheme, part)
    }
}
