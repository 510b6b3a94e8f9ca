ghost use Rattle.std.specs.Prelude.{All, IfOk};
ghost use Rattle.attr_sets.specs.Attributes.{IsSubset};
ghost use Rattle.attr_sets.specs.Sets.{attributes};
ghost use Rattle.dep_model.specs.Theories.{width_of, universe_of, theory_of};
ghost use Rattle.closure_steps.specs.Without.{AreClosuresWithout};

use attr_sets::AttrSet;
use dep_basis::closure;
use dep_model::{OutOfMemory, Theory};
use std::alloc::Global;

/// An attribute of a set, and what the others of the set determine.
#[derive(Clone, Copy, Debug)]
pub struct Without {
    pub attribute: u8,
    pub closed: AttrSet,
}

/// For each attribute of a set, ascending, what the others determine by all dependencies. The set is a
/// key exactly where it determines the universe and none of these is the universe.
pub fn closures_without(
    alloc: Global,
    theory: &Theory,
    set: AttrSet,
) -> Result<Vec<Without>, OutOfMemory>
    requires within { IsSubset (attributes set) (universe_of theory.now) }
    ensures closures { IfOk result (λ found.
        AreClosuresWithout (width_of theory.now) (theory_of theory.now) (attributes set) found.items) }
    ensures within { IfOk result (λ found.
        All (λ one. IsSubset (attributes one.closed) (universe_of theory.now)) found.items) }
{
    let mut found = Vec::new(alloc);
    for attribute in 0..theory.width() {
        if set.contains(attribute) {
            let closed = closure(theory, set.without(attribute));
            found.push(Without { attribute, closed })?;
        }
    }
    Ok(found)
}
