//! Two rows of a tableau that are made to agree.

ghost use Rattle.std.specs.Prelude.{◌≡◌, ◌<◌, length, All};
ghost use Rattle.attr_sets.specs.Sets.{attributes};
ghost use Rattle.dep_model.specs.Projections.{members_below};
ghost use Rattle.chase_laws.specs.Tableaux.{IsTableauOver};
ghost use Rattle.chase_laws.specs.Steps.{replace_symbol};
ghost use Rattle.tableau_chase.specs.Equating.{AreEquated, IsEquatedAt};

use crate::likely_rows::LikelyRows;
use crate::symbol_row::SymbolRow;
use attr_sets::AttrSet;

/// Makes two rows agree on a set, whose attributes these are.
pub fn equate(
    rows: &mut [SymbolRow],
    first: usize,
    second: usize,
    on: AttrSet,
    listed: &[u8],
    width: u8,
    likely: &mut LikelyRows,
) -> bool
    requires over { IsTableauOver width rows.old }
    requires first { first < length rows.old }
    requires second { second < length rows.old }
    requires attributes { listed.now ≡ members_below width (attributes on) }
    ensures equated { AreEquated (attributes on) first second rows.old rows.new result }
{
    let mut changed = false;
    for k in 0..listed.len() {
        if equate_at(rows, first, second, listed[k], likely) {
            changed = true;
        }
    }
    changed
}

// Makes two rows agree at an attribute: the greater symbol becomes the smaller throughout.
fn equate_at(
    rows: &mut [SymbolRow],
    first: usize,
    second: usize,
    a: u8,
    likely: &mut LikelyRows,
) -> bool
    requires within { All (λ row. a < length row) rows.old }
    requires first { first < length rows.old }
    requires second { second < length rows.old }
    ensures equated { IsEquatedAt a first second rows.old rows.new result }
{
    let one = rows[first].symbol(a as usize);
    let other = rows[second].symbol(a as usize);
    if one == other {
        return false;
    }
    if one < other {
        replace(rows, a, other, one, likely);
    } else {
        replace(rows, a, one, other, likely);
    }
    true
}

// Makes a symbol another throughout an attribute.
fn replace(rows: &mut [SymbolRow], a: u8, former: u32, later: u32, likely: &mut LikelyRows)
    requires within { All (λ row. a < length row) rows.old }
    ensures replaced { rows.new ≡ replace_symbol a former later rows.old }
{
    likely.rename(rows, a, former, later);
    for i in 0..rows.len() {
        rows[i].replace(a as usize, former, later);
    }
}
