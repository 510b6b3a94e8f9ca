ghost use Rattle.std.specs.Prelude.{◌≡◌, [], IfOk, All};
ghost use Rattle.attr_sets.specs.Attributes.{Attributes};
ghost use Rattle.attr_sets.specs.Sets.{attributes};
ghost use Rattle.dep_model.specs.Dependencies.{functional_part};
ghost use Rattle.dep_model.specs.Deps.{dependencies_of, IsDepWithin};
ghost use Rattle.dep_model.specs.Plans.{schemes_of};
ghost use Rattle.dep_model.specs.Theories.{width_of, theory_of, universe_of};
ghost use Rattle.min_cover.specs.Covers.{IsFixedCover, IsFixedWholeCover, IsMinimalCover};
ghost use Rattle.synthesis_3nf.specs.GroupedPlans.{AreSynthesisSteps};
ghost use Rattle.synthesis_3nf.specs.Groups.{left_sides_after};

use crate::completing::with_key;
use crate::grouping::{each_scheme, left_sides};
use attr_sets::AttrSet;
use dep_model::{Dep, OutOfMemory, Theory};
use min_cover::minimal_cover;
use std::alloc::Global;

/// How a synthesis comes about: the cover that is grouped, its left sides, and the schemes of these, with
/// the primary key of the universe after them where none of them holds a key.
#[derive(Debug, Drop)]
pub struct SynthesisSteps {
    pub cover: Vec<Dep>,
    pub lefts: Vec<AttrSet>,
    pub schemes: Vec<AttrSet>,
}

/// How the plan in third normal form of a schema comes about (Ullman 1982; the key by Biskup, Dayal and
/// Bernstein 1979). The fixed cover is grouped by left side, in the order of first occurrence; each group
/// gives the scheme of its left side and right sides. Groups are not merged, as Bernstein's (1976) synthesis
/// merges those whose left sides determine each other. Where no scheme is a superkey of the universe, its
/// primary key by the functional dependencies is added last.
pub fn synthesis_steps(
    alloc: Global,
    theory: &Theory,
    nullable: AttrSet,
) -> Result<SynthesisSteps, OutOfMemory>
    ensures steps { IfOk result (λ steps. AreSynthesisSteps (width_of theory.now) (theory_of theory.now)
        (attributes nullable) (dependencies_of steps.cover.items) (schemes_of steps.schemes.items)) }
    ensures lefts { IfOk result (λ steps. schemes_of steps.lefts.items
        ≡ left_sides_after [] (dependencies_of steps.cover.items)) }
    ensures minimal { IfOk result (λ steps. IsMinimalCover (width_of theory.now) (theory_of theory.now)
        (dependencies_of steps.cover.items)) }
    ensures within { IfOk result (λ steps. All (IsDepWithin (universe_of theory.now)) steps.cover.items) }
{
    let cover = minimal_cover(alloc, theory)?;
    steps_of_cover(alloc, theory, nullable, cover)
}

/// The same, of the whole cover of a schema, where that was found before.
pub fn steps_of_whole_cover(
    alloc: Global,
    theory: &Theory,
    nullable: AttrSet,
    whole: &[Dep],
) -> Result<SynthesisSteps, OutOfMemory>
    requires fixed { IsFixedWholeCover (width_of theory.now) (theory_of theory.now)
        (dependencies_of whole.now) }
    requires minimal { IsMinimalCover (width_of theory.now) (theory_of theory.now)
        (functional_part (dependencies_of whole.now)) }
    requires within { All (IsDepWithin (universe_of theory.now)) whole.now }
    ensures steps { IfOk result (λ steps. AreSynthesisSteps (width_of theory.now) (theory_of theory.now)
        (attributes nullable) (dependencies_of steps.cover.items) (schemes_of steps.schemes.items)) }
    ensures lefts { IfOk result (λ steps. schemes_of steps.lefts.items
        ≡ left_sides_after [] (dependencies_of steps.cover.items)) }
    ensures minimal { IfOk result (λ steps. IsMinimalCover (width_of theory.now) (theory_of theory.now)
        (dependencies_of steps.cover.items)) }
    ensures within { IfOk result (λ steps. All (IsDepWithin (universe_of theory.now)) steps.cover.items) }
{
    let cover = functional_deps(alloc, whole)?;
    steps_of_cover(alloc, theory, nullable, cover)
}

// The same, of a cover that was found.
fn steps_of_cover(
    alloc: Global,
    theory: &Theory,
    nullable: AttrSet,
    cover: Vec<Dep>,
) -> Result<SynthesisSteps, OutOfMemory>
    requires fixed { IsFixedCover (width_of theory.now) (theory_of theory.now) (dependencies_of cover.items) }
    requires minimal { IsMinimalCover (width_of theory.now) (theory_of theory.now)
        (dependencies_of cover.items) }
    requires within { All (IsDepWithin (universe_of theory.now)) cover.items }
    ensures steps { IfOk result (λ steps. AreSynthesisSteps (width_of theory.now) (theory_of theory.now)
        (attributes nullable) (dependencies_of steps.cover.items) (schemes_of steps.schemes.items)) }
    ensures lefts { IfOk result (λ steps. schemes_of steps.lefts.items
        ≡ left_sides_after [] (dependencies_of steps.cover.items)) }
    ensures minimal { IfOk result (λ steps. IsMinimalCover (width_of theory.now) (theory_of theory.now)
        (dependencies_of steps.cover.items)) }
    ensures within { IfOk result (λ steps. All (IsDepWithin (universe_of theory.now)) steps.cover.items) }
{
    let lefts = left_sides(alloc, &cover)?;
    let groups = each_scheme(alloc, &cover, &lefts)?;
    let schemes = with_key(theory, nullable, groups)?;
    Ok(SynthesisSteps {
        cover,
        lefts,
        schemes,
    })
}

// The functional dependencies of a list, in order.
fn functional_deps(alloc: Global, deps: &[Dep]) -> Result<Vec<Dep>, OutOfMemory>
    ensures part { IfOk result (λ part. dependencies_of part.items
        ≡ functional_part (dependencies_of deps.now)) }
    ensures within { (universe : Attributes) → All (IsDepWithin universe) deps.now
        → IfOk result (λ part. All (IsDepWithin universe) part.items) }
{
    let mut part = Vec::new(alloc);
    for dep in deps {
        if let Dep::Fd { .. } = *dep {
            part.push(*dep)?;
        }
    }
    Ok(part)
}
