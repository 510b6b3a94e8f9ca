ghost use Rattle.std.specs.Prelude.{◌≡◌, ℕ, ◌↔◌, ◌⊎◌, true, [], ◌∷◌, IsTrue};
ghost use Rattle.attr_sets.specs.Sets.{attributes};
ghost use Rattle.dep_model.specs.Dependencies.{functional_part};
ghost use Rattle.dep_model.specs.Deps.{dependency_of, dependencies_of};
ghost use Rattle.fd_closure.specs.LeftSides.{left_sides, InLeftSide, InLeftSideWithin, IsWideScheme};

use attr_sets::AttrSet;
use dep_model::{Dep, sides};

/// The most attributes of a scheme in left sides over whose subsets is searched.
pub const WIDEST_SEARCHED: u8 = 20;

/// Whether more attributes of a scheme than are tried stand in the left sides of a list.
pub fn is_wide_scheme(deps: &[Dep], scheme: AttrSet) -> bool
    ensures wide { IsTrue result ↔ IsWideScheme (dependencies_of deps.now) (attributes scheme) }
{
    scheme.intersection(left_attributes(deps)).len() > WIDEST_SEARCHED
}

/// The attributes that stand in the left sides of a list, of functional and of multivalued
/// dependencies.
pub fn left_attributes(deps: &[Dep]) -> AttrSet
    ensures all_sides { attributes result ≡ left_sides (dependencies_of deps.now) }
    ensures members { (a : ℕ) → (attributes result a ≡ true)
        ↔ InLeftSide (dependencies_of deps.now) a }
{
    let mut found = AttrSet::empty();
    for dep in deps {
        let (lhs, _) = sides(*dep);
        found = found.union(lhs);
    }
    found
}

/// The attributes that stand in those left sides of the functional dependencies of a list which lie
/// within a set.
pub fn functional_left_attributes(deps: &[Dep], reach: AttrSet) -> AttrSet
    ensures members { (a : ℕ) → (attributes result a ≡ true)
        ↔ InLeftSideWithin (attributes reach) (functional_part (dependencies_of deps.now)) a }
{
    let mut found = AttrSet::empty();
    for dep in deps {
        found = with_left_side(*dep, reach, found);
    }
    found
}

// A set with the left side of a functional dependency, where that lies within another set.
fn with_left_side(dep: Dep, reach: AttrSet, found: AttrSet) -> AttrSet
    ensures members { (a : ℕ) → (attributes result a ≡ true)
        ↔ ((attributes found a ≡ true)
        ⊎ InLeftSideWithin (attributes reach) (functional_part (dependency_of dep ∷ [])) a) }
{
    match dep {
        Dep::Fd { lhs, .. } => {
            if lhs.is_subset(reach) {
                found.union(lhs)
            } else {
                found
            }
        }
        Dep::Mvd { .. } => found,
    }
}
