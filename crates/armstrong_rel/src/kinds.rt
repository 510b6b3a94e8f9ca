ghost use Rattle.std.specs.Prelude.{◌≡◌, ◌<◌, length, IsNone, IfSome};
ghost use Rattle.dep_model.specs.Dependencies.{functional_part};
ghost use Rattle.dep_model.specs.Deps.{dependencies_of};
ghost use Rattle.armstrong_rel.specs.Refusals.{IsFirstMvd};

use dep_model::Dep;

/// The first multivalued dependency, from 0.
pub fn first_mvd(deps: &[Dep]) -> Option<usize>
    ensures none { IsNone result
        → functional_part (dependencies_of deps.now) ≡ dependencies_of deps.now }
    ensures position { IfSome result (λ k. k < length deps.now) }
    ensures first { IfSome result (IsFirstMvd (dependencies_of deps.now)) }
{
    for (k, dep) in deps.iter().enumerate() {
        if let Dep::Mvd { .. } = dep {
            return Some(k);
        }
    }
    None
}
