ghost use Rattle.std.specs.Prelude.{◌≡◌, ℕ, ◌<◌, ◌≤◌, ◌↔◌, true, length, All};
ghost use Rattle.attr_sets.specs.Sets.{attributes};
ghost use Rattle.attr_sets.specs.declared.set.TheConstants.{MOST_ATTRIBUTES};
ghost use Rattle.schema_model.specs.Schemas.{Schema};
ghost use Rattle.dep_model.specs.Deps.{dependency_of, IsDepWithin};
ghost use Rattle.schema_model.specs.Schemas.{universe_of};
ghost use Rattle.schema_match.specs.Carried.{carry_dependency};
ghost use Rattle.schema_match.specs.Namesakes.{AreNamesakes, IsNamesakeFrom};

use attr_sets::AttrSet;
use dep_model::Dep;

// A dependency of a schema, carried over to another by names.
pub fn carry_dependency(namesakes: &[u8], dep: Dep) -> Dep
    requires within_limit { length namesakes.now ≤ MOST_ATTRIBUTES }
    requires attributes { All (λ b. b < MOST_ATTRIBUTES) namesakes.now }
    ensures carried { (schema other : Schema) → AreNamesakes schema other namesakes.now
        → IsDepWithin (universe_of schema) dep
        → dependency_of result ≡ carry_dependency schema other (dependency_of dep) }
{
    match dep {
        Dep::Fd { lhs, rhs } => Dep::Fd {
            lhs: carry_set(namesakes, lhs),
            rhs: carry_set(namesakes, rhs),
        },
        Dep::Mvd { lhs, rhs } => Dep::Mvd {
            lhs: carry_set(namesakes, lhs),
            rhs: carry_set(namesakes, rhs),
        },
    }
}

// The namesakes of a set's attributes.
fn carry_set(namesakes: &[u8], set: AttrSet) -> AttrSet
    requires within_limit { length namesakes.now ≤ MOST_ATTRIBUTES }
    requires attributes { All (λ b. b < MOST_ATTRIBUTES) namesakes.now }
    ensures members { (b : ℕ) → (attributes result b ≡ true)
        ↔ IsNamesakeFrom namesakes.now (attributes set) b }
{
    let mut carried = AttrSet::empty();
    for a in 0..namesakes.len() as u8 {
        if set.contains(a) {
            carried = carried.with(namesakes[a as usize]);
        }
    }
    carried
}
