//! Closures, by the functional dependencies alone or by all, that begin with those of parts.

ghost use Rattle.std.specs.Prelude.{◌≡◌, ℕ, ◌↔◌, Bool, true};
ghost use Rattle.attr_sets.specs.Attributes.{IsSubset};
ghost use Rattle.attr_sets.specs.Sets.{attributes};
ghost use Rattle.dep_model.specs.Keys.{InClosure};
ghost use Rattle.dep_model.specs.Theories.{width_of, universe_of};
ghost use Rattle.dep_model.specs.Theories.{Theory as Declared};
ghost use Rattle.normal_forms.specs.Beginning.{IsKnownPart, IsBegun};
ghost use Rattle.normal_forms.specs.Passing.{theory_by};

use crate::passing::closed_set;
use attr_sets::AttrSet;
use dep_model::Theory;

// A set, and what is known to be determined by it. The closure of a set that holds it begins with that.
#[derive(Clone, Copy, Debug)]
pub struct KnownPart {
    pub set: AttrSet,
    pub closed: AttrSet,
}

// The empty set, of which nothing is known.
pub fn no_part() -> KnownPart
    ensures known { (functional : Bool) (s : Declared) → IsKnownPart functional s result }
{
    let none = AttrSet::empty();
    KnownPart {
        set: none,
        closed: none,
    }
}

// The part with which the closure of a set begins: all but a few attributes, which a search changes
// while the others stay, so that the part is most often the one before.
pub fn next_part(
    theory: &Theory,
    functional: bool,
    part: KnownPart,
    few: AttrSet,
    set: AttrSet,
) -> KnownPart
    requires part { IsKnownPart functional theory.now part }
    requires set { IsSubset (attributes set) (universe_of theory.now) }
    ensures known { IsKnownPart functional theory.now result }
{
    let fixed = set.difference(few);
    if fixed == part.set {
        return part;
    }
    let closed = closed_set(theory, functional, fixed);
    KnownPart { set: fixed, closed }
}

// The first attributes of a set, as few as change most often where its subsets are gone through.
pub fn first_few(whole: AttrSet) -> AttrSet {
    let mut rest = whole;
    for _ in 0..MOST_CHANGED {
        if let Some(first) = rest.first() {
            rest = rest.without(first);
        }
    }
    whole.difference(rest)
}

// How many attributes change most often: more would leave less to begin with, and fewer would have the
// part closed more often.
const MOST_CHANGED: u8 = 4;

// A set with what is known to be determined by a part of it.
pub fn begun(part: KnownPart, set: AttrSet) -> AttrSet
    ensures begun { (functional : Bool) (s : Declared) → IsKnownPart functional s part
        → IsSubset (attributes set) (universe_of s)
        → IsBegun functional s (attributes set) (attributes result) }
{
    if part.set.is_subset(set) {
        set.union(part.closed)
    } else {
        set
    }
}

// The closure of a set, begun with that of a part.
pub fn closure_begun(theory: &Theory, functional: bool, part: KnownPart, set: AttrSet) -> AttrSet
    requires part { IsKnownPart functional theory.now part }
    requires set { IsSubset (attributes set) (universe_of theory.now) }
    ensures closure { (a : ℕ) → (attributes result a ≡ true)
        ↔ InClosure (width_of theory.now) (theory_by functional theory.now) (attributes set) a }
{
    closed_set(theory, functional, begun(part, set))
}
