ghost use Rattle.std.specs.Prelude.{◌≡◌, ◌<◌, ◌≤◌, ◌^◌, ℕ, [], All, length, replicate, IfOk, IfErr};
ghost use Rattle.attr_sets.specs.Attributes.{below};
ghost use Rattle.attr_sets.specs.declared.set.TheConstants.{MOST_ATTRIBUTES};
ghost use Rattle.dep_model.specs.Deps.{IsDepWithin, dependencies_of};
ghost use Rattle.dep_model.specs.Failures.{RefusesAs};
ghost use Rattle.dep_model.specs.Tuples.{IsOver, Relation};
ghost use Rattle.near_rules.specs.NearRules.{AreNearRules, ExceedsTried, IsFirstExceeded, IsTriedWhole};
ghost use Rattle.near_rules.specs.Searching.{AreNearFoundUpTo, AreSought, IsTooManyTried};

use crate::found::{Found, NearRules, Sought, TooManyTried};
use crate::front::front_rows;
use crate::searching::{search_above, try_set};
use attr_sets::AttrSet;
use dep_model::{Failure, OutOfMemory};
use row_groups::{Groups, Interned};
use row_store::{Hashing, Rows};
use std::alloc::Global;

/// The functional dependencies that rows of `width` columns obey but for at most `limit` rows, from left sides of at
/// most `most` columns, no proper part of which has that, each with the least number of rows that must go. They stand
/// by left side ascending, and for one left side by attribute ascending. Or, where more than `MOST_TRIED` sets have
/// to be tried for an attribute, a refusal that names the first such one.
///
/// Sets are tried from the empty one on; those that hold a near one are passed over. Each is tried on the first rows
/// first: what must go of these must go of all.
pub fn near_rules(
    alloc: Global,
    hashing: Hashing,
    width: u8,
    rows: &Rows,
    limit: u32,
    most: u8,
) -> Result<NearRules, Failure<TooManyTried>>
    requires width { width ≤ MOST_ATTRIBUTES }
    requires over { IsOver width rows.now }
    requires fits_u32 { length rows.now < 2 ^ 32 }
    ensures rules { IfOk result (λ found.
        AreNearRules width most limit rows.now (dependencies_of found.deps.items) found.errors.items) }
    ensures one_each { IfOk result (λ found. length found.errors.items ≡ length found.deps.items) }
    ensures within { IfOk result (λ found. All (IsDepWithin (below width)) found.deps.items) }
    ensures answered { IfOk result (λ _. IsTriedWhole width most limit rows.now) }
    ensures refusal { IfErr result (RefusesAs (IsFirstExceeded width most limit rows.now)) }
{
    let codes = Interned::intern(alloc, hashing, width, rows)?;
    let first = front_rows(alloc, rows)?;
    let front = Interned::intern(alloc, hashing, width, &first)?;
    let sought = Sought {
        codes,
        front,
        width,
        rights: width,
        most,
        limit,
    };
    match search(alloc, &sought) {
        Ok(found) => Ok(NearRules {
            deps: found.deps,
            errors: found.errors,
        }),
        Err(Failure::Refused(refusal)) => Err(first_exceeded(alloc, sought, refusal.right)),
        Err(Failure::OutOfMemory) => Err(Failure::OutOfMemory),
    }
}

// The refusal of the first right side that has too many sets to try, where `right` has: the search is done again
// for those before it alone.
fn first_exceeded(alloc: Global, sought: Sought, right: u8) -> Failure<TooManyTried>
    requires rows { (r : Relation) × AreSought r sought }
    requires right { right < sought.rights }
    ensures first { (r : Relation) → AreSought r sought
        → ExceedsTried sought.width sought.most sought.limit r right
        → RefusesAs (IsFirstExceeded sought.width sought.most sought.limit r) result }
{
    let before = Sought {
        codes: sought.codes,
        front: sought.front,
        width: sought.width,
        rights: right,
        most: sought.most,
        limit: sought.limit,
    };
    match search(alloc, &before) {
        Ok(_) => Failure::Refused(TooManyTried { right }),
        Err(Failure::Refused(refusal)) => first_exceeded(alloc, before, refusal.right),
        Err(Failure::OutOfMemory) => Failure::OutOfMemory,
    }
}

// All that is found, from the empty set on.
fn search(alloc: Global, sought: &Sought) -> Result<Found, Failure<TooManyTried>>
    requires rows { (r : Relation) × AreSought r sought.now }
    ensures found { (r : Relation) → AreSought r sought.now
        → IfOk result (AreNearFoundUpTo sought.now r (below sought.now.width)) }
    ensures refusal { (r : Relation) → AreSought r sought.now
        → IfErr result (RefusesAs (IsTooManyTried sought.now r)) }
{
    let none = AttrSet::empty();
    let groups = Groups::by_agreement(alloc, &sought.codes, none)?;
    let mut found = nothing_found(alloc, sought.rights)?;
    try_set(
        alloc,
        sought,
        &groups,
        none,
        AttrSet::full(sought.rights),
        &mut found,
    )?;
    search_above(alloc, sought, &groups, none, sought.width, &mut found)?;
    Ok(found)
}

// Nothing is found, and no set was tried.
fn nothing_found(alloc: Global, rights: u8) -> Result<Found, OutOfMemory>
    ensures deps { IfOk result (λ found. found.deps.items ≡ []) }
    ensures errors { IfOk result (λ found. found.errors.items ≡ []) }
    ensures tried { IfOk result (λ found. found.tried.items ≡ replicate rights 0) }
{
    let mut tried = Vec::new(alloc);
    tried.resize(rights as usize, 0)?;
    Ok(Found {
        deps: Vec::new(alloc),
        errors: Vec::new(alloc),
        tried,
    })
}
