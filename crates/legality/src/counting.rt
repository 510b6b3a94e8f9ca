ghost use Rattle.std.specs.Prelude.{◌≡◌, ◌<◌, ◌^◌, length, replicate, IfOk};
ghost use Rattle.row_groups.specs.Interning.{firsts_of, groups_of};
ghost use Rattle.row_groups.specs.Numberings.{AreFirsts};
ghost use Rattle.legality.specs.Parts.{ArePartCounts};

use dep_model::OutOfMemory;
use row_groups::Groups;
use std::alloc::Global;

/// How many of the parts each group has. A part stands in the group of its first row.
pub fn part_counts(alloc: Global, groups: &Groups, parts: &Groups) -> Result<Vec<u32>, OutOfMemory>
    requires same_length { length (groups_of groups.now) ≡ length (groups_of parts.now) }
    requires fits_u32 { length (firsts_of parts.now) < 2 ^ 32 }
    requires groups { AreFirsts (groups_of groups.now) (firsts_of groups.now) }
    requires parts { AreFirsts (groups_of parts.now) (firsts_of parts.now) }
    ensures counts { IfOk result (λ v. ArePartCounts (groups_of groups.now) (firsts_of groups.now)
        (firsts_of parts.now) v.items) }
{
    let numbers = groups.numbers();
    let mut counts = zero_counts(alloc, groups.firsts().len())?;
    for row in parts.firsts() {
        let group = numbers[*row as usize] as usize;
        counts[group] += 1;
    }
    Ok(counts)
}

/// This many counts of nothing.
pub fn zero_counts(alloc: Global, count: usize) -> Result<Vec<u32>, OutOfMemory>
    ensures zeros { IfOk result (λ v. v.items ≡ replicate count 0) }
{
    let mut counts = Vec::new(alloc);
    counts.resize(count, 0)?;
    Ok(counts)
}
