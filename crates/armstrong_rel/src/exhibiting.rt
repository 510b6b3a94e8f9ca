ghost use Rattle.std.specs.Prelude.{◌≡◌, ◌≤◌, length, IfOk, IfErr};
ghost use Rattle.dep_model.specs.Failures.{RefusesAs};
ghost use Rattle.dep_model.specs.Theories.{width_of, theory_of, LegalFor};
ghost use Rattle.armstrong_rel.specs.declared.refusal.TheConstants.{MOST_EXHIBITED_ROWS};
ghost use Rattle.armstrong_rel.specs.Exhibits.{IsExhibit, IsArmstrong};
ghost use Rattle.armstrong_rel.specs.Refusals.{IsFunctional, IsTooWideToExhibit, IsRefusedExhibit};

use crate::irreducible::irreducible_sets;
use crate::kinds::first_mvd;
use crate::refusal::{ExhibitRefusal, MOST_EXHIBITED_ROWS, WIDEST_EXHIBITED};
use crate::rows::rows_for;
use dep_model::{Failure, Row, Theory};
use fd_closure::left_attributes;
use std::alloc::Global;

/// A relation that obeys exactly the functional dependencies that a schema implies (Armstrong 1974): a
/// row of all `0`, and for each irreducible closed set, ascending, a row with `0` on it and its number,
/// from 1, elsewhere (Beeri, Dowd, Fagin and Statman 1984). A schema with a
/// multivalued dependency is refused, then one with more than `WIDEST_EXHIBITED` attributes in
/// left sides, and then one whose relation has more than `MOST_EXHIBITED_ROWS` rows.
///
/// Time and memory are exponential in the number n of attributes in left sides: a table holds the
/// closures of all 2 to the power n sets of them.
pub fn exhibit(alloc: Global, theory: &Theory) -> Result<Vec<Row>, Failure<ExhibitRefusal>>
    ensures rows { IfOk result (λ rows.
        IsExhibit (width_of theory.now) (theory_of theory.now) rows.items) }
    ensures exact { IfOk result (λ rows.
        IsArmstrong (width_of theory.now) (theory_of theory.now) rows.items) }
    ensures legal { IfOk result (λ rows. LegalFor theory.now rows.items) }
    ensures functional { IfOk result (λ _. IsFunctional theory.now) }
    ensures not_too_wide { IfOk result (λ _. IsTooWideToExhibit theory.now → ⊥) }
    ensures within_limit { IfOk result (λ rows. length rows.items ≤ MOST_EXHIBITED_ROWS) }
    ensures refused { IfErr result (RefusesAs (IsRefusedExhibit theory.now)) }
{
    if let Some(k) = first_mvd(theory.deps()) {
        return Err(Failure::Refused(ExhibitRefusal::NotFunctional { dep: k as u16 }));
    }
    let used = left_attributes(theory.deps());
    if used.len() > WIDEST_EXHIBITED {
        return Err(Failure::Refused(ExhibitRefusal::TooWide));
    }
    let sets = irreducible_sets(alloc, theory, used)?;
    if sets.len() >= MOST_EXHIBITED_ROWS {
        return Err(Failure::Refused(ExhibitRefusal::TooManyRows));
    }
    Ok(rows_for(alloc, theory.width(), &sets)?)
}
