ghost use Rattle.std.specs.Prelude.{◌≡◌, ◌<◌, ℕ, true, [], IsTrue};
ghost use Rattle.attr_sets.specs.Attributes.{only};
ghost use Rattle.attr_sets.specs.Sets.{attributes};
ghost use Rattle.attr_sets.specs.declared.set.TheConstants.{MOST_ATTRIBUTES};
ghost use Rattle.candidate_search.specs.Asking.{IsAskedWithin};
ghost use Rattle.candidate_search.specs.Findings.{AreObeyed};
ghost use Rattle.dep_model.specs.Dependencies.{ObeysFd, fd};
ghost use Rattle.dep_model.specs.Deps.{dependency_of};
ghost use Rattle.dep_model.specs.Tuples.{Relation, IsOver};

use crate::asking::Asked;
use crate::levels::Level;
use attr_sets::{AttrSet, MOST_ATTRIBUTES};
use dep_model::Dep;
use fd_closure::follows;
use std::alloc::Global;

/// What is found of rows while dependencies are tested.
#[derive(Debug, Drop)]
pub struct Findings {
    /// The rows in groups, by sets of which each holds the one before it.
    pub levels: Vec<Level>,
    /// Functional dependencies that the rows obey.
    pub obeyed: Vec<Dep>,
}

impl Findings {
    // Before anything is tested.
    pub fn new(alloc: Global) -> Findings
        ensures levels { result.levels.items ≡ [] }
        ensures obeyed { result.obeyed.items ≡ [] }
    {
        Findings {
            levels: Vec::new(alloc),
            obeyed: Vec::new(alloc),
        }
    }
}

// What is asked, as a dependency.
pub fn dependency_asked(asked: Asked) -> Dep
    requires right { asked.right < MOST_ATTRIBUTES }
    ensures functional { dependency_of result ≡ fd (attributes asked.left) (only asked.right) }
{
    Dep::Fd {
        lhs: asked.left,
        rhs: AttrSet::single(asked.right),
    }
}

// Whether dependencies that the rows obey imply what is asked. It is a matter of speed alone: where the answer is no,
// the rows are asked.
pub fn is_implied(obeyed: &[Dep], asked: Asked) -> bool
    requires right { asked.right < MOST_ATTRIBUTES }
    ensures obeys { (n : ℕ) (r : Relation) → IsOver n r → AreObeyed n r obeyed.now → IsAskedWithin n asked
        → IsTrue result → ObeysFd (attributes asked.left) (only asked.right) r }
{
    follows(obeyed, asked.left, AttrSet::single(asked.right))
}
