ghost use Rattle.std.specs.Prelude.{◌≡◌, ℕ, ◌<◌, All, IfOk};
ghost use Rattle.candidate_search.specs.Sides.{IsTested, rights_of};
ghost use Rattle.dep_model.specs.Tuples.{Relation};

use attr_sets::AttrSet;
use candidate_sets::first_candidates;
use dep_model::OutOfMemory;
use std::alloc::Global;

/// An attribute with left sides for it: candidates while a search goes on, the minimal ones at its end.
#[derive(Debug, Drop)]
pub struct Side {
    /// The attribute.
    pub right: u8,
    /// The left sides, in the order of sets.
    pub lefts: Vec<AttrSet>,
}

/// Some evidence of the rows has more candidates for an attribute than are kept.
#[derive(Clone, Copy, Debug, PartialEq, Eq, Hash, Drop)]
pub struct TooManyLeftSides {
    /// The attribute.
    pub right: u8,
}

// The sides of these attributes without evidence.
pub fn first_sides(alloc: Global, rights: &[u8]) -> Result<Vec<Side>, OutOfMemory>
    ensures rights { IfOk result (λ sides. rights_of sides.items ≡ rights.now) }
    ensures tested { (n most : ℕ) (r : Relation) → All (λ right. right < n) rights.now
        → IfOk result (λ sides. All (IsTested n most r 0) sides.items) }
{
    let mut sides = Vec::new(alloc);
    for right in rights {
        let lefts = first_candidates(alloc)?;
        sides.push(Side {
            right: *right,
            lefts,
        })?;
    }
    Ok(sides)
}
