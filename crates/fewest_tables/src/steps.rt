ghost use Rattle.std.specs.Prelude.{◌≡◌, ◌++◌, [], IfOk, All};
ghost use Rattle.attr_sets.specs.Attributes.{IsSubset};
ghost use Rattle.attr_sets.specs.Sets.{attributes};
ghost use Rattle.dep_model.specs.Deps.{dependencies_of, IsDepWithin};
ghost use Rattle.dep_model.specs.Plans.{schemes_of};
ghost use Rattle.dep_model.specs.Theories.{width_of, universe_of, theory_of};
ghost use Rattle.min_cover.specs.Covers.{IsMinimalCover, IsThinned};
ghost use Rattle.synthesis_3nf.specs.GroupedPlans.{AreSynthesisSteps};
ghost use Rattle.synthesis_3nf.specs.Groups.{left_sides_after};
ghost use Rattle.fewest_tables.specs.Alike.{all_exchanges};
ghost use Rattle.fewest_tables.specs.FewestSteps.{AreFewestSteps, groups_in};
ghost use Rattle.fewest_tables.specs.KeyedDesigns.{AreFewest};

use crate::exchanging::shared_exchanges;
use crate::grouping::{Grouping, group_left_sides};
use crate::merging::merged_schemes;
use crate::thinning::kept_beside;
use attr_sets::AttrSet;
use dep_model::{Dep, OutOfMemory, Theory};
use std::alloc::Global;
use synthesis_3nf::{SynthesisSteps, synthesis_steps, with_key};

/// How the plan comes about in which left sides that determine each other share a scheme: the steps
/// of `synthesize`, of which the cover is taken; its left sides in groups; the members of the cover
/// that are kept; and the schemes of the groups, with the primary key of the universe after them
/// where none of them holds a key.
#[derive(Drop)]
pub struct FewestSteps {
    pub plain: SynthesisSteps,
    pub groups: Grouping,
    pub kept: Vec<Dep>,
    pub schemes: Vec<AttrSet>,
}

/// How the plan comes about in which left sides that determine each other share a scheme (Bernstein
/// 1976; the key by Biskup, Dayal and Bernstein 1979). Members of the cover that follow from the
/// others and from what is alike are left out, from the first on; else a scheme might have an
/// attribute that a part of another of its keys determines.
pub fn fewest_steps(
    alloc: Global,
    theory: &Theory,
    nullable: AttrSet,
) -> Result<FewestSteps, OutOfMemory>
    ensures steps { IfOk result (AreFewestSteps (width_of theory.now) (theory_of theory.now)
        (attributes nullable)) }
    ensures fewest { IfOk result (λ steps. AreFewest (width_of theory.now) (theory_of theory.now)
        (groups_in steps.groups)) }
{
    let plain = synthesis_steps(alloc, theory, nullable)?;
    steps_from(alloc, theory, nullable, plain)
}

// The steps that follow on those of `synthesize`.
fn steps_from(
    alloc: Global,
    theory: &Theory,
    nullable: AttrSet,
    plain: SynthesisSteps,
) -> Result<FewestSteps, OutOfMemory>
    requires plain { AreSynthesisSteps (width_of theory.now) (theory_of theory.now) (attributes nullable)
        (dependencies_of plain.cover.items) (schemes_of plain.schemes.items) }
    requires lefts { schemes_of plain.lefts.items ≡ left_sides_after [] (dependencies_of plain.cover.items) }
    requires minimal { IsMinimalCover (width_of theory.now) (theory_of theory.now)
        (dependencies_of plain.cover.items) }
    requires within { All (IsDepWithin (universe_of theory.now)) plain.cover.items }
    ensures steps { IfOk result (AreFewestSteps (width_of theory.now) (theory_of theory.now)
        (attributes nullable)) }
    ensures fewest { IfOk result (λ steps. AreFewest (width_of theory.now) (theory_of theory.now)
        (groups_in steps.groups)) }
{
    let groups = group_left_sides(alloc, theory, &plain.lefts)?;
    let kept = kept_members(alloc, theory, &groups, &plain.cover)?;
    let merged = merged_schemes(alloc, &kept, &groups.lefts, &groups.firsts)?;
    let schemes = with_key(theory, nullable, merged)?;
    Ok(FewestSteps {
        plain,
        groups,
        kept,
        schemes,
    })
}

// The members of a cover that the others do not imply together with what is alike in groups of its
// left sides.
fn kept_members(
    alloc: Global,
    theory: &Theory,
    groups: &Grouping,
    cover: &[Dep],
) -> Result<Vec<Dep>, OutOfMemory>
    requires groups { All (λ group. All (λ x. IsSubset x (universe_of theory.now)) group)
        (groups_in groups.now) }
    requires cover { All (IsDepWithin (universe_of theory.now)) cover.now }
    ensures thinned { IfOk result (λ kept. IsThinned (width_of theory.now)
        (all_exchanges (groups_in groups.now)) (dependencies_of cover.now)
        (all_exchanges (groups_in groups.now) ++ dependencies_of kept.items)) }
{
    let rules = shared_exchanges(alloc, &groups.lefts, &groups.firsts)?;
    let kept = kept_beside(alloc, theory.width(), rules, cover)?;
    Ok(kept)
}
