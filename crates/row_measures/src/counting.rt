ghost use Rattle.std.specs.Prelude.{◌≡◌, ◌+◌, ◌<◌, ◌^◌, All, length, map, IfOk};
ghost use Rattle.row_groups.specs.Numberings.{number_at};
ghost use Rattle.legality.specs.Parts.{AreBelow};
ghost use Rattle.row_measures.specs.Broken.{AreOrdinals, AreRowCounts, flagged_groups, flagged_rows};

use dep_model::OutOfMemory;
use legality::zero_counts;
use std::alloc::Global;

// How many rows have each of this many numbers.
pub fn row_counts(alloc: Global, numbers: &[u32], count: usize) -> Result<Vec<u32>, OutOfMemory>
    requires numbers { AreBelow numbers.now count }
    requires fits_u32 { length numbers.now < 2 ^ 32 }
    ensures counts { IfOk result (λ v. AreRowCounts numbers.now count v.items) }
{
    let mut counts = zero_counts(alloc, count)?;
    for number in numbers {
        counts[*number as usize] += 1;
    }
    Ok(counts)
}

// The numbers of these rows.
pub fn numbers_of(alloc: Global, numbers: &[u32], rows: &[u32]) -> Result<Vec<u32>, OutOfMemory>
    requires rows { All (λ row. row < length numbers.now) rows.now }
    ensures numbers { IfOk result (λ v. v.items ≡ map (number_at numbers.now) rows.now) }
{
    let mut those = Vec::with_capacity(alloc, rows.len())?;
    for row in rows {
        those.push(numbers[*row as usize])?;
    }
    Ok(those)
}

// How many groups have a flag.
pub fn count_groups(flags: &[bool]) -> u32
    requires fits_u32 { length flags.now < 2 ^ 32 }
    ensures count { result ≡ flagged_groups flags.now }
{
    let mut count = 0;
    for flag in flags {
        if *flag {
            count += 1;
        }
    }
    count
}

// How many rows are in groups that have a flag.
pub fn count_rows(groups: &[u32], flags: &[bool]) -> u32
    requires groups { AreBelow groups.now (length flags.now) }
    requires fits_u32 { length groups.now < 2 ^ 32 }
    ensures count { result ≡ flagged_rows groups.now flags.now }
{
    let mut count = 0;
    for group in groups {
        if flags[*group as usize] {
            count += 1;
        }
    }
    count
}

// How many groups up to each have a flag.
pub fn ordinals(alloc: Global, flags: &[bool]) -> Result<Vec<u32>, OutOfMemory>
    requires fits_u32 { length flags.now < 2 ^ 32 }
    ensures ordinals { IfOk result (λ v. AreOrdinals flags.now v.items) }
{
    let mut count = 0;
    let mut numbers = Vec::with_capacity(alloc, flags.len())?;
    for flag in flags {
        if *flag {
            count += 1;
        }
        numbers.push(count)?;
    }
    Ok(numbers)
}
