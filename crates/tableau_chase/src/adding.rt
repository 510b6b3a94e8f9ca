//! Pools of the rows of a plan and of a tableau.

ghost use Rattle.std.specs.Prelude.{◌≡◌, ◌≤◌, ◌<◌, ◌^◌, length, Err, IfOk};
ghost use Rattle.attr_sets.specs.declared.set.TheConstants.{MOST_ATTRIBUTES};
ghost use Rattle.chase_laws.specs.Tableaux.{SameTableau, plan_tableau};
ghost use Rattle.chase_laws.specs.Rounds.{HasMoreThan};
ghost use Rattle.tableau_chase.specs.Pools.{IsPool};
ghost use Rattle.dep_model.specs.Plans.{schemes_of};

use crate::outcome::ChaseRefusal;
use crate::pool::Pool;
use crate::symbol_row::SymbolRow;
use attr_sets::AttrSet;
use dep_model::Failure;
use std::alloc::Global;

/// The rows of a plan's tableau, equal ones once.
pub fn plan_pool(
    alloc: Global,
    schemes: &[AttrSet],
    width: u8,
    limit: u32,
) -> Result<Pool, Failure<ChaseRefusal>>
    requires width { width ≤ MOST_ATTRIBUTES }
    requires fits_u32 { length schemes.now < 2 ^ 32 }
    ensures pool { IfOk result (IsPool limit) }
    ensures same { IfOk result
        (λ pool. SameTableau (plan_tableau width (schemes_of schemes.now)) pool.rows.items) }
    ensures too_many { result ≡ Err (Failure.Refused ChaseRefusal.TooManyRows)
        → HasMoreThan limit (plan_tableau width (schemes_of schemes.now)) }
{
    let mut pool = Pool::new(alloc, limit);
    for i in 0..schemes.len() {
        let row = SymbolRow::of_scheme(alloc, width, schemes[i], i as u32 + 1)?;
        match pool.add(alloc, row, limit) {
            Ok(()) => {}
            Err(failure) => return Err(failure),
        }
    }
    Ok(pool)
}

/// The rows of a tableau, equal ones once.
pub fn pool_of(alloc: Global, rows: &[SymbolRow], limit: u32) -> Result<Pool, Failure<ChaseRefusal>>
    requires within_limit { length rows.now ≤ limit }
    ensures pool { IfOk result (IsPool limit) }
    ensures same { IfOk result (λ pool. SameTableau rows.now pool.rows.items) }
    ensures never_too_many { result ≡ Err (Failure.Refused ChaseRefusal.TooManyRows) → ⊥ }
{
    let mut pool = Pool::new(alloc, limit);
    for i in 0..rows.len() {
        let row = rows[i].copy(alloc)?;
        match pool.add(alloc, row, limit) {
            Ok(()) => {}
            Err(failure) => return Err(failure),
        }
    }
    Ok(pool)
}
