ghost use Rattle.std.specs.Prelude.{◌≡◌, ◌++◌, [], List, All, IfOk, map};
ghost use Rattle.dep_model.specs.Dependencies.{functional_part};
ghost use Rattle.dep_model.specs.Deps.{dependencies_of, IsDepWithin};
ghost use Rattle.dep_model.specs.Theories.{width_of, theory_of, universe_of};
ghost use Rattle.min_cover.specs.Covers.{IsFixedWholeCover, IsMinimalCover, IsWholeCover};
ghost use Rattle.cover_accounts.specs.Steps.{AreCoverSteps, IsThinnedInto, Placed, places_of, short_of, shortened_list};
ghost use Rattle.cover_accounts.specs.Gathering.{IsMemberWithin, IsPlacedWithin, short_dep};

use crate::shortening::{ShortMember, short_members};
use crate::thinning::{PlacedDep, add_multivalued, deps_alone, part_from, placed_deps};
use dep_model::{Dep, OutOfMemory, Theory};
use std::alloc::Global;

/// How a cover comes about: the members of the functional dependencies, each with what is left of its left
/// side, those members and multivalued dependencies that go since the others imply them, and the cover,
/// which is left.
#[derive(Debug, Drop)]
pub struct CoverSteps {
    pub members: Vec<ShortMember>,
    pub gone: Vec<PlacedDep>,
    pub whole: Vec<Dep>,
}

/// How the fixed whole cover of a schema comes about.
pub fn cover_steps(alloc: Global, theory: &Theory) -> Result<CoverSteps, OutOfMemory>
    ensures steps { IfOk result (λ steps. AreCoverSteps (width_of theory.now) (theory_of theory.now)
        (shortened_list steps.members.items) (places_of steps.gone.items)) }
    ensures fixed { IfOk result (λ steps. IsFixedWholeCover (width_of theory.now) (theory_of theory.now)
        (dependencies_of steps.whole.items)) }
    ensures minimal { IfOk result (λ steps. IsMinimalCover (width_of theory.now) (theory_of theory.now)
        (functional_part (dependencies_of steps.whole.items))) }
    ensures whole_cover { IfOk result (λ steps. IsWholeCover (width_of theory.now)
        (theory_of theory.now) (dependencies_of steps.whole.items)) }
    ensures within { IfOk result (λ steps. All (IsDepWithin (universe_of theory.now)) steps.whole.items) }
{
    let list = placed_deps(alloc, theory)?;
    let members = short_members(alloc, theory, &list)?;
    let mut gone = Vec::new(alloc);
    let mut rest = thinned_members(alloc, theory, &members, &mut gone)?;
    let from = rest.len();
    add_multivalued(&list, &mut rest)?;
    let kept = part_from(alloc, theory.width(), &rest, from, &mut gone)?;
    let whole = deps_alone(alloc, &kept)?;
    Ok(CoverSteps {
        members,
        gone,
        whole,
    })
}

// The shortened members without those that the others imply, which are added to others.
fn thinned_members(
    alloc: Global,
    theory: &Theory,
    members: &[ShortMember],
    gone: &mut Vec<PlacedDep>,
) -> Result<Vec<PlacedDep>, OutOfMemory>
    requires within { All (IsMemberWithin (universe_of theory.now)) members.now }
    ensures parted { IfOk result (λ kept. (out : List Placed)
        × (places_of gone.new.items ≡ places_of gone.old.items ++ out)
        × IsThinnedInto (width_of theory.now) [] (map short_of (shortened_list members.now))
        (places_of kept.items) out) }
    ensures within { IfOk result (λ kept. All (IsPlacedWithin (universe_of theory.now)) kept.items) }
{
    let list = short_deps(alloc, members)?;
    part_from(alloc, theory.width(), &list, 0, gone)
}

// Members as dependencies, with what is left of their left sides.
fn short_deps(alloc: Global, members: &[ShortMember]) -> Result<Vec<PlacedDep>, OutOfMemory>
    ensures list { IfOk result (λ list. list.items ≡ map short_dep members.now) }
{
    let mut list = Vec::new(alloc);
    for member in members {
        list.push(PlacedDep {
            position: member.position,
            dep: Dep::Fd {
                lhs: member.left,
                rhs: member.right,
            },
        })?;
    }
    Ok(list)
}
