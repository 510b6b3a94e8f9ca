ghost use Rattle.std.specs.Prelude.{◌≡◌, ◌↔◌, IsTrue};
ghost use Rattle.dep_model.specs.Dependencies.{functional_part};
ghost use Rattle.dep_model.specs.Deps.{dependencies_of};

use dep_model::Dep;

/// Whether all dependencies of a list are functional.
pub fn is_functional(deps: &[Dep]) -> bool
    ensures functional { IsTrue result
        ↔ functional_part (dependencies_of deps.now) ≡ dependencies_of deps.now }
{
    for dep in deps {
        if let Dep::Mvd { .. } = dep {
            return false;
        }
    }
    true
}
