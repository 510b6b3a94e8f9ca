//! Lines that are added to a derivation.

ghost use Rattle.std.specs.Prelude.{◌≡◌, ◌++◌, [], ◌∷◌, OnOk};
ghost use Rattle.dep_model.specs.Deps.{dependency_of};
ghost use Rattle.short_derivations.specs.Views.{lines_of, why_of};

use crate::{Inference, Reason};
use dep_model::{Dep, OutOfMemory};

// Adds a line.
pub fn add_line(lines: &mut Vec<Inference>, stated: Dep, reason: Reason) -> Result<(), OutOfMemory>
    ensures added { OnOk result (lines_of lines.new.items ≡ lines_of lines.old.items
        ++ record { stated = dependency_of stated; why = why_of reason } ∷ []) }
{
    lines.push(Inference { stated, reason })?;
    Ok(())
}
