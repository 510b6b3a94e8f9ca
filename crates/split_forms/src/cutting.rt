ghost use Rattle.std.specs.Prelude.{◌≡◌, ◌<◌, List, ◌∷◌, ◌++◌, length, OnOk};
ghost use Rattle.attr_sets.specs.Attributes.{Attributes, union, difference};
ghost use Rattle.attr_sets.specs.Sets.{attributes};
ghost use Rattle.dep_model.specs.Plans.{schemes_of};

use attr_sets::AttrSet;
use dep_model::OutOfMemory;
use normal_forms::Breach;

// Cuts the scheme at a position of a list: where it stood now stand both sides of a violation together,
// and after them the scheme without the right side.
pub fn cut_at(schemes: &mut Vec<AttrSet>, at: usize, breach: Breach) -> Result<(), OutOfMemory>
    requires position { at < length schemes.old.items }
    ensures cut { OnOk result ((earlier later : List Attributes) (scheme : Attributes)
        → length earlier ≡ at
        → schemes_of schemes.old.items ≡ earlier ++ scheme ∷ later
        → schemes_of schemes.new.items ≡ earlier
        ++ union (attributes breach.lhs) (attributes breach.rhs)
        ∷ difference scheme (attributes breach.rhs) ∷ later) }
{
    let scheme = schemes[at];
    schemes[at] = breach.lhs.union(breach.rhs);
    schemes.insert(at + 1, scheme.difference(breach.rhs))?;
    Ok(())
}
