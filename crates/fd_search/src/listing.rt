ghost use Rattle.std.specs.Prelude.{◌≡◌, ◌++◌, ◌<◌, ◌≤◌, All, flat_map, map, IfOk};
ghost use Rattle.std.specs.List.{range_with_len};
ghost use Rattle.attr_sets.specs.declared.set.TheConstants.{MOST_ATTRIBUTES};
ghost use Rattle.candidate_search.specs.Sides.{HasMinimal, rights_of};
ghost use Rattle.dep_model.specs.Deps.{dependencies_of};
ghost use Rattle.dep_model.specs.Tuples.{Relation};
ghost use Rattle.fd_search.specs.Listing.{HasNumber, fd_of, pairs_of};
ghost use Rattle.fd_search.specs.Small.{AreAllSmall};

use attr_sets::AttrSet;
use candidate_search::Side;
use dep_model::{Dep, OutOfMemory};
use std::alloc::Global;

// The dependencies of these sides, by left side ascending, and for one left side by attribute ascending.
pub fn in_order(alloc: Global, width: u8, most: u8, sides: &[Side]) -> Result<Vec<Dep>, OutOfMemory>
    requires width { width ≤ MOST_ATTRIBUTES }
    requires sides { (r : Relation) × All (HasMinimal width most r) sides.now }
    ensures small { (r : Relation) → All (HasMinimal width most r) sides.now
        → rights_of sides.now ≡ range_with_len 0 width
        → IfOk result (λ found. AreAllSmall width most r (dependencies_of found.items)) }
{
    let mut pairs = left_sides(alloc, sides)?;
    pairs.sort()?;
    dependencies(alloc, &pairs)
}

// Each left side with its attribute, one attribute after the other.
fn left_sides(alloc: Global, sides: &[Side]) -> Result<Vec<(AttrSet, u8)>, OutOfMemory>
    ensures pairs { IfOk result (λ pairs. pairs.items ≡ flat_map pairs_of sides.now) }
    ensures numbers { IfOk result (λ pairs. All HasNumber pairs.items) }
{
    let mut pairs = Vec::new(alloc);
    for side in sides {
        add_left_sides(side, &mut pairs)?;
    }
    Ok(pairs)
}

// Adds the left sides of one attribute.
fn add_left_sides(side: &Side, pairs: &mut Vec<(AttrSet, u8)>) -> Result<(), OutOfMemory>
    ensures pairs { IfOk result (λ _. pairs.new.items ≡ pairs.old.items ++ pairs_of side.now) }
    ensures numbers { All HasNumber pairs.old.items → IfOk result (λ _. All HasNumber pairs.new.items) }
{
    for left in &side.lefts {
        pairs.push(pair(*left, side.right))?;
    }
    Ok(())
}

// A left side and its attribute. What is read from a slice is not known to have a number that fits; a
// parameter is.
fn pair(left: AttrSet, right: u8) -> (AttrSet, u8)
    ensures same { result ≡ (left, right) }
    ensures number { HasNumber result }
{
    (left, right)
}

// The dependency of each left side on its attribute.
fn dependencies(alloc: Global, pairs: &[(AttrSet, u8)]) -> Result<Vec<Dep>, OutOfMemory>
    requires attributes { All (λ p. p.1 < MOST_ATTRIBUTES) pairs.now }
    ensures dependencies { IfOk result (λ found. dependencies_of found.items ≡ map fd_of pairs.now) }
{
    let mut found = Vec::with_capacity(alloc, pairs.len())?;
    for pair in pairs {
        found.push(Dep::Fd {
            lhs: pair.0,
            rhs: AttrSet::single(pair.1),
        })?;
    }
    Ok(found)
}
