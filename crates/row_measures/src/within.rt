ghost use Rattle.std.specs.Prelude.{◌<◌, ℕ, IfOk};
ghost use Rattle.attr_sets.specs.Attributes.{Attributes, only};
ghost use Rattle.attr_sets.specs.declared.set.TheConstants.{MOST_ATTRIBUTES};
ghost use Rattle.row_groups.specs.Interning.{IsInterned, firsts_of, groups_of, width_of_rows};
ghost use Rattle.row_groups.specs.Numberings.{AreFirsts, AreGroups};
ghost use Rattle.dep_model.specs.Dependencies.{fd};
ghost use Rattle.dep_model.specs.Tuples.{Relation};
ghost use Rattle.removal_laws.specs.Errors.{IsError};

use crate::by_class::{choose_largest, count_outside};
use crate::counting::{numbers_of, row_counts};
use attr_sets::AttrSet;
use dep_model::OutOfMemory;
use row_groups::{Groups, Interned};
use std::alloc::Global;

/// How many rows must go at least so that the others have one value at `right` in each of the groups: the
/// error of the dependency of the set by which they are grouped on that attribute.
pub fn error_within(
    alloc: Global,
    codes: &Interned,
    groups: &Groups,
    right: u8,
) -> Result<u64, OutOfMemory>
    requires right { right < width_of_rows codes.now }
    requires attribute { right < MOST_ATTRIBUTES }
    requires rows { (n : ℕ) × (r : Relation) × (x : Attributes) × IsInterned n r codes.now
        × AreGroups r x (groups_of groups.now) × AreFirsts (groups_of groups.now) (firsts_of groups.now) }
    ensures error { (n : ℕ) (r : Relation) (x : Attributes) → IsInterned n r codes.now
        → AreGroups r x (groups_of groups.now) → AreFirsts (groups_of groups.now) (firsts_of groups.now)
        → IfOk result (IsError n r (fd x (only right))) }
{
    let classes = groups.refined(alloc, codes, AttrSet::single(right))?;
    let sizes = row_counts(alloc, classes.numbers(), classes.firsts().len())?;
    let owners = numbers_of(alloc, groups.numbers(), classes.firsts())?;
    let mut chosen = numbers_of(alloc, classes.numbers(), groups.firsts())?;
    choose_largest(&owners, &sizes, &mut chosen);
    Ok(count_outside(groups.numbers(), classes.numbers(), &chosen))
}
