ghost use Rattle.std.specs.Prelude.{◌≡◌, ◌+◌, ◌<◌, ◌≤◌, ◌^◌, ◌↔◌, [], length, IfOk};
ghost use Rattle.attr_sets.specs.Attributes.{below};
ghost use Rattle.row_groups.specs.Interning.{IsInterned};
ghost use Rattle.dep_model.specs.Deps.{IsDepWithin, dependency_of};
ghost use Rattle.dep_model.specs.Theories.{LegalFor, theory_of, width_of};
ghost use Rattle.dep_model.specs.Tuples.{IsOver, Relation};
ghost use Rattle.legality.specs.Offences.{OffencesOf};
ghost use Rattle.legality.specs.Answers.{AreCodesOfRows, IsLeastOffence};

use crate::functional::least_functional_pair;
use crate::multivalued::least_multivalued_pair;
use crate::offence::Offence;
use crate::pair::Pair;
use attr_sets::MOST_ATTRIBUTES;
use dep_model::{Dep, OutOfMemory, Theory};
use row_groups::Interned;
use row_store::{Hashing, Rows};
use std::alloc::Global;

/// For each dependency that the rows do not obey, in the order of the file, the least pair of rows
/// that breaks it: by its first row, then by its second, over all pairs in both orders. Two rows
/// break `X -> Y` where they agree on X and not on Y; they break `X ->> Y` where they agree on X and
/// no row agrees with the first on X and Y and with the second on the rest.
/// There is none exactly where the rows are legal.
pub fn offences(
    alloc: Global,
    hashing: Hashing,
    theory: &Theory,
    rows: &Rows,
) -> Result<Vec<Offence>, OutOfMemory>
    requires over { IsOver (width_of theory.now) rows.now }
    requires fits_u32 { length rows.now < 2 ^ 32 }
    ensures offences { IfOk result
        (λ v. OffencesOf (width_of theory.now) (theory_of theory.now) rows.now v.items) }
    ensures legal { IfOk result (λ v. (v.items ≡ []) ↔ LegalFor theory.now rows.now) }
{
    let codes = Interned::intern(alloc, hashing, theory.width(), rows)?;
    let found = offences_by_codes(alloc, theory, &codes)?;
    Ok(found)
}

/// The same of rows that are given away. Their values are let go as soon as they have numbers.
pub fn offences_of_own_rows(
    alloc: Global,
    hashing: Hashing,
    theory: &Theory,
    rows: Rows,
) -> Result<Vec<Offence>, OutOfMemory>
    requires over { IsOver (width_of theory.now) rows }
    requires fits_u32 { length rows < 2 ^ 32 }
    ensures offences { IfOk result
        (λ v. OffencesOf (width_of theory.now) (theory_of theory.now) rows v.items) }
    ensures legal { IfOk result (λ v. (v.items ≡ []) ↔ LegalFor theory.now rows) }
{
    let codes = codes_of_own_rows(alloc, hashing, theory.width(), rows)?;
    let found = offences_by_codes(alloc, theory, &codes)?;
    Ok(found)
}

// Rows by numbers. The rows are let go.
fn codes_of_own_rows(
    alloc: Global,
    hashing: Hashing,
    width: u8,
    rows: Rows,
) -> Result<Interned, OutOfMemory>
    requires over { IsOver width rows }
    requires fits_u32 { length rows < 2 ^ 32 }
    ensures codes { IfOk result (λ codes. IsInterned width rows codes) }
{
    Interned::intern(alloc, hashing, width, &rows)
}

// The offences of the rows that numbers stand for.
fn offences_by_codes(
    alloc: Global,
    theory: &Theory,
    codes: &Interned,
) -> Result<Vec<Offence>, OutOfMemory>
    requires codes { AreCodesOfRows (width_of theory.now) codes.now }
    ensures offences { (rows : Relation) → IsInterned (width_of theory.now) rows codes.now → IfOk result
        (λ v. OffencesOf (width_of theory.now) (theory_of theory.now) rows v.items) }
{
    let mut offences = Vec::new(alloc);
    for k in 0..theory.deps().len() {
        let least = least_pair(alloc, theory.width(), codes, theory.deps()[k])?;
        match least {
            Some(pair) => offences.push(offence_of(k as u16, pair))?,
            None => {}
        }
    }
    Ok(offences)
}

// The offence of a dependency, with rows from 1.
fn offence_of(dep: u16, pair: Pair) -> Offence
    requires first { pair.first + 1 < 2 ^ 32 }
    requires second { pair.second + 1 < 2 ^ 32 }
    ensures dep { result.dep ≡ dep }
    ensures first { result.first ≡ pair.first + 1 }
    ensures second { result.second ≡ pair.second + 1 }
{
    Offence {
        dep,
        first: pair.first as u32 + 1,
        second: pair.second as u32 + 1,
    }
}

// The least pair of rows that breaks a dependency, if one does.
fn least_pair(
    alloc: Global,
    width: u8,
    codes: &Interned,
    dep: Dep,
) -> Result<Option<Pair>, OutOfMemory>
    requires width { width ≤ MOST_ATTRIBUTES }
    requires codes { AreCodesOfRows width codes.now }
    requires dep { IsDepWithin (below width) dep }
    ensures pair { (rows : Relation) → IsInterned width rows codes.now → IfOk result
        (λ least. IsLeastOffence width rows (dependency_of dep) least) }
{
    match dep {
        Dep::Fd { lhs, rhs } => least_functional_pair(alloc, width, codes, lhs, rhs),
        Dep::Mvd { lhs, rhs } => least_multivalued_pair(alloc, width, codes, lhs, rhs),
    }
}
