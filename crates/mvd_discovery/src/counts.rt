ghost use Rattle.std.specs.Prelude.{◌≡◌, ◌<◌, ◌≤◌, ◌^◌, ℕ, length, IfOk};
ghost use Rattle.row_groups.specs.Interning.{firsts_of, groups_of};
ghost use Rattle.row_groups.specs.Numberings.{AreFirsts};
ghost use Rattle.dep_model.specs.Tuples.{IsOver};
ghost use Rattle.mvd_discovery.specs.Counting.{ArePartSizes};
ghost use Rattle.row_store.specs.declared.limits.TheConstants.{WIDEST_WITH_ALL};

use attr_sets::AttrSet;
use dep_model::OutOfMemory;
use legality::part_counts;
use row_groups::{Groups, Interned};
use row_store::{Hashing, Rows};
use std::alloc::Global;
use std::marker::Model;

// For one set of columns, how many of the different rows agree with each of them on it.
#[derive(Debug, Drop)]
struct Sizes {
    each: Vec<u32>,
}

impl Model for Sizes {
    ghost use Rattle.std.specs.Prelude.{ℕ, List};

    ghost Value = { List ℕ };

    ghost view = { λ s. s.each.items };
}

// The same for each set, in the order of their numbers.
#[derive(Debug, Drop)]
pub struct Counts {
    pub width: u8,
    by_set: Vec<Sizes>,
}

impl Counts {
    ghost use Rattle.mvd_discovery.specs.Counting.{AreCounts, has_place, sizes_at};

    // The counts of rows of this width.
    pub fn count(
        alloc: Global,
        hashing: Hashing,
        width: u8,
        rows: &Rows,
    ) -> Result<Counts, OutOfMemory>
        requires width { width ≤ WIDEST_WITH_ALL }
        requires over { IsOver width rows.now }
        requires fits_u32 { length rows.now < 2 ^ 32 }
        ensures width { IfOk result (λ counts. counts.width ≡ width) }
        ensures counts { IfOk result (AreCounts rows.now) }
    {
        let codes = Interned::intern(alloc, hashing, width, rows)?;
        let different = Groups::by_agreement(alloc, &codes, AttrSet::full(width))?;
        let mut by_set = Vec::new(alloc);
        for number in 0..1usize << width {
            let groups = Groups::by_agreement(alloc, &codes, AttrSet(number as u128))?;
            let each = sizes_by(alloc, &groups, &different)?;
            by_set.push(Sizes { each })?;
        }
        Ok(Counts { width, by_set })
    }

    // Those of a set.
    pub fn sizes(&self, set: AttrSet) -> &[u32]
        requires place { has_place self.now set }
        ensures sizes { result.now ≡ sizes_at self.now set.0 }
    {
        &self.by_set[set.0 as usize].each
    }
}

// How many of the different rows are in the group of each of them.
fn sizes_by(alloc: Global, groups: &Groups, different: &Groups) -> Result<Vec<u32>, OutOfMemory>
    requires same_length { length (groups_of groups.now) ≡ length (groups_of different.now) }
    requires groups { AreFirsts (groups_of groups.now) (firsts_of groups.now) }
    requires different { AreFirsts (groups_of different.now) (firsts_of different.now) }
    requires fits_u32 { length (firsts_of different.now) < 2 ^ 32 }
    ensures sizes { IfOk result (λ v. ArePartSizes (groups_of groups.now) (firsts_of different.now) v.items) }
{
    let counts = part_counts(alloc, groups, different)?;
    let numbers = groups.numbers();
    let mut sizes = Vec::with_capacity(alloc, different.firsts().len())?;
    for row in different.firsts() {
        let group = numbers[*row as usize] as usize;
        sizes.push(counts[group])?;
    }
    Ok(sizes)
}
