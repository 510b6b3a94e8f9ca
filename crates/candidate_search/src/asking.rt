ghost use Rattle.std.specs.Prelude.{◌≡◌, ◌++◌, ℕ, List, All, IfOk};
ghost use Rattle.candidate_search.specs.Asking.{AsksAll, IsAskedWithin};
ghost use Rattle.candidate_search.specs.Sides.{HasCandidates};
ghost use Rattle.candidate_search.specs.declared.asking.Asked.{Asked};

use crate::side::Side;
use attr_sets::AttrSet;
use dep_model::OutOfMemory;
use std::alloc::Global;

/// Whether the rows obey a dependency of a set on an attribute.
#[derive(Clone, Copy, Debug, PartialEq, Eq, Hash, Drop)]
pub struct Asked {
    pub left: AttrSet,
    pub right: u8,
}

// All candidates of so many members, in the order of sets.
pub fn asked_of_size(alloc: Global, sides: &[Side], size: u8) -> Result<Vec<Asked>, OutOfMemory>
    ensures all { IfOk result (λ asked. All (AsksAll asked.items size) sides.now) }
    ensures within { (n most : ℕ) → All (HasCandidates n most) sides.now
        → IfOk result (λ asked. All (IsAskedWithin n) asked.items) }
{
    let mut asked = Vec::new(alloc);
    for side in sides {
        ask(side, size, &mut asked)?;
    }
    asked.sort_by_key(|one| one.left)?;
    Ok(asked)
}

// Adds the candidates of one side that have so many members.
fn ask(side: &Side, size: u8, asked: &mut Vec<Asked>) -> Result<(), OutOfMemory>
    ensures all { IfOk result (λ _. AsksAll asked.new.items size side.now) }
    ensures kept { IfOk result (λ _. (more : List Asked) × (asked.new.items ≡ asked.old.items ++ more)) }
    ensures within { (n most : ℕ) → HasCandidates n most side.now → All (IsAskedWithin n) asked.old.items
        → IfOk result (λ _. All (IsAskedWithin n) asked.new.items) }
{
    for left in &side.lefts {
        if left.len() == size {
            asked.push(Asked {
                left: *left,
                right: side.right,
            })?;
        }
    }
    Ok(())
}
