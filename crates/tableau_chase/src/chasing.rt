ghost use Rattle.std.specs.Prelude.{◌≡◌, ◌≤◌, ◌<◌, ◌^◌, ◌↔◌, length, Contains, Err, IsTrue, IfOk, OnOk};
ghost use Rattle.dep_model.specs.Dependencies.{functional_part};
ghost use Rattle.dep_model.specs.Projections.{Covers, IsLossless};
ghost use Rattle.dep_model.specs.Theories.{width_of, theory_of};
ghost use Rattle.chase_laws.specs.Tableaux.{IsTableauOver, distinguished_row};
ghost use Rattle.chase_laws.specs.Rounds.{RoundsExceed};
ghost use Rattle.chase_laws.specs.Answers.{IsClosedTableau, IsGaining};
ghost use Rattle.dep_model.specs.Plans.{schemes_of};
ghost use Rattle.tableau_chase.specs.Chases.{IfLossy};

use crate::adding::{plan_pool, pool_of};
use crate::functional_closing::close_functionally;
use crate::making::add_next;
use crate::outcome::{ChaseRefusal, Chased};
use crate::symbol_row::SymbolRow;
use crate::texts::ascending_texts;
use attr_sets::AttrSet;
use dep_model::{Failure, Theory};
use std::alloc::Global;

/// Whether a plan is lossless, by the chase of its tableau; no tableau of the rounds may have more than
/// `limit` rows.
pub fn chase(
    alloc: Global,
    theory: &Theory,
    schemes: &[AttrSet],
    limit: u32,
) -> Result<Chased, Failure<ChaseRefusal>>
    requires fits_u32 { length schemes.now < 2 ^ 32 }
    requires cover { Covers (width_of theory.now) (schemes_of schemes.now) }
    ensures too_many_rows { result ≡ Err (Failure.Refused ChaseRefusal.TooManyRows)
        → RoundsExceed (width_of theory.now) (theory_of theory.now) (schemes_of schemes.now) limit }
    ensures within_limit { OnOk result
        (RoundsExceed (width_of theory.now) (theory_of theory.now) (schemes_of schemes.now) limit → ⊥) }
    ensures lossless { IfOk result
        (λ chased. (chased ≡ Chased.Lossless)
        ↔ IsLossless (width_of theory.now) (theory_of theory.now) (schemes_of schemes.now)) }
    ensures closed_tableau { IfOk result
        (IfLossy (IsClosedTableau (width_of theory.now) (theory_of theory.now)
        (schemes_of schemes.now) limit)) }
    ensures gaining { IfOk result
        (IfLossy (IsGaining (width_of theory.now) (theory_of theory.now) (schemes_of schemes.now))) }
    ensures never_too_many { functional_part (theory_of theory.now) ≡ theory_of theory.now
        → length schemes.now ≤ limit → result ≡ Err (Failure.Refused ChaseRefusal.TooManyRows) → ⊥ }
{
    let width = theory.width();
    let deps = theory.deps();
    let mut rows = match plan_pool(alloc, schemes, width, limit) {
        Ok(pool) => pool.rows,
        Err(failure) => return Err(failure),
    };
    loop {
        close_functionally(alloc, &mut rows, deps, width)?;
        let mut pool = match pool_of(alloc, &rows, limit) {
            Ok(pool) => pool,
            Err(failure) => return Err(failure),
        };
        if has_distinguished(&pool.rows, width) {
            return Ok(Chased::Lossless);
        }
        let count = pool.rows.len();
        if let Err(failure) = add_next(alloc, &mut pool, deps, width, limit) {
            return Err(failure);
        }
        if pool.rows.len() == count {
            return Ok(Chased::Lossy(ascending_texts(alloc, pool.rows)?));
        }
        rows = pool.rows;
    }
}

// Whether some row has distinguished symbols alone.
fn has_distinguished(rows: &[SymbolRow], width: u8) -> bool
    requires over { IsTableauOver width rows.now }
    ensures found { IsTrue result ↔ Contains rows.now (distinguished_row width) }
{
    for i in 0..rows.len() {
        if rows[i].is_distinguished() {
            return true;
        }
    }
    false
}
