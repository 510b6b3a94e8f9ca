ghost use Rattle.std.specs.Prelude.{◌≡◌, IsNone, IfSome, Some, slice_get, Contains};
ghost use Rattle.dep_model.specs.Deps.{dependency_of};
ghost use Rattle.dep_model.specs.Theories.{theory_of};

use dep_model::{Dep, Theory};
use derivation::same_dep;

// The first position at which a dependency is given.
pub fn number_given(theory: &Theory, goal: Dep) -> Option<u16>
    ensures none { IsNone result → Contains (theory_of theory.now) (dependency_of goal) → ⊥ }
    ensures given { IfSome result (λ k. slice_get (theory_of theory.now) k ≡ Some (dependency_of goal)) }
{
    for (k, dep) in theory.deps().iter().enumerate() {
        if same_dep(*dep, goal) {
            return Some(k as u16);
        }
    }
    None
}
