ghost use Rattle.std.specs.Prelude.{IfOk, IfErr, All};
ghost use Rattle.attr_sets.specs.Attributes.{IsSubset};
ghost use Rattle.attr_sets.specs.Sets.{attributes};
ghost use Rattle.dep_model.specs.Deps.{dependencies_of, IsDepWithin};
ghost use Rattle.dep_model.specs.Failures.{RefusesAs};
ghost use Rattle.dep_model.specs.Theories.{width_of, universe_of, theory_of};
ghost use Rattle.fd_closure.specs.LeftSides.{IsWideScheme};
ghost use Rattle.fd_projection.specs.Projections.{IsProjection, IsCoverWithin};
ghost use Rattle.fd_projection.specs.Refusals.{IsRefusedProjection};

use crate::refusal::{MOST_LISTED, ProjectionRefusal};
use crate::searching::minimal_within;
use attr_sets::AttrSet;
use dep_model::{Dep, Failure, Theory};
use fd_closure::is_wide_scheme;
use min_cover::nonredundant_from;
use std::alloc::Global;

/// The functional dependencies inside a set that a schema implies: those with a least left side and one
/// attribute on the right, by the left side and then by the right one, without those that the others
/// imply, where from the first to the last each is left out that those kept before it and all after it
/// imply. It is refused where more attributes of the set stand in left sides than are searched, and
/// then where more than `MOST_LISTED` have a least left side.
///
/// Time and memory are exponential in the number n of attributes of the set in left sides: a table
/// holds the closures of all 2 to the power n sets of them.
pub fn project(
    alloc: Global,
    theory: &Theory,
    set: AttrSet,
) -> Result<Vec<Dep>, Failure<ProjectionRefusal>>
    requires set { IsSubset (attributes set) (universe_of theory.now) }
    ensures projection { IfOk result (λ rules. IsProjection (width_of theory.now) (theory_of theory.now)
        (attributes set) (dependencies_of rules.items)) }
    ensures cover { IfOk result (λ rules. IsCoverWithin (width_of theory.now) (theory_of theory.now)
        (attributes set) (dependencies_of rules.items)) }
    ensures within { IfOk result (λ rules. All (IsDepWithin (attributes set)) rules.items) }
    ensures narrow { IfOk result (λ _. IsWideScheme (theory_of theory.now) (attributes set) → ⊥) }
    ensures refused { IfErr result (RefusesAs (IsRefusedProjection (width_of theory.now)
        (theory_of theory.now) (attributes set))) }
{
    if is_wide_scheme(theory.deps(), set) {
        return Err(Failure::Refused(ProjectionRefusal::TooWide));
    }
    let found = minimal_within(alloc, theory, set)?;
    if found.len() > MOST_LISTED {
        return Err(Failure::Refused(ProjectionRefusal::TooMany));
    }
    Ok(nonredundant_from(alloc, theory.width(), found, 0)?)
}
