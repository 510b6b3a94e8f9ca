ghost use Rattle.std.specs.Prelude.{◌≡◌, ◌<◌, length, OnOk};
ghost use Rattle.attr_sets.specs.Sets.{attributes};
ghost use Rattle.dep_model.specs.Projections.{project_tuple};
ghost use Rattle.row_store.specs.Rows.{row_at};

use crate::{FlatValues, Rows};
use attr_sets::{AttrSet, MOST_ATTRIBUTES};
use dep_model::OutOfMemory;

/// The values become those of a row at the attributes of a scheme, ascending.
#[tactic(auto, using(crate::proofs::ProjectionLemmas::value_steps))]
pub fn project_row(
    values: &mut FlatValues,
    scheme: AttrSet,
    rows: &Rows,
    row: usize,
) -> Result<(), OutOfMemory>
    requires row { row < length rows.now }
    ensures values { OnOk result (values.new ≡ project_tuple (attributes scheme) (row_at rows.now row)) }
{
    values.clear();
    for attribute in 0..rows.width(row) {
        if is_member(scheme, attribute) {
            values.push(rows.value(row, attribute))?;
        }
    }
    Ok(())
}

// Whether an attribute is in a scheme, which has none from the most attributes on.
#[tactic(auto, using(crate::proofs::ProjectionLemmas::no_member_past))]
fn is_member(scheme: AttrSet, attribute: usize) -> bool
    ensures member { result ≡ attributes scheme attribute }
{
    attribute < MOST_ATTRIBUTES as usize && scheme.contains(attribute as u8)
}
