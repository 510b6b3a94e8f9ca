ghost use Rattle.std.specs.Prelude.{◌≡◌, ℕ, ◌<◌, ◌≤◌, ◌↔◌, IsTrue, IsNone, IfSome};
ghost use Rattle.attr_sets.specs.Attributes.{only, IsSubset};
ghost use Rattle.attr_sets.specs.Sets.{attributes};
ghost use Rattle.dep_model.specs.Dependencies.{fd};
ghost use Rattle.dep_model.specs.Implication.{Implies};
ghost use Rattle.dep_model.specs.Theories.{width_of, universe_of, theory_of};
ghost use Rattle.wide_bcnf.specs.Pairs.{IsPair, HasPair, IsFirstPair, NoneBefore};

use attr_sets::AttrSet;
use dep_basis::block;
use dep_model::Theory;

// Two attributes, in the order of pairs: the first attribute decides, then the second.
#[derive(Clone, Copy)]
pub struct Pair {
    pub first: u8,
    pub second: u8,
}

// The first pair of a scheme of which no pair comes before `from`; so those before are not tried.
pub fn first_pair(theory: &Theory, scheme: AttrSet, from: Pair) -> Option<Pair>
    requires scheme { IsSubset (attributes scheme) (universe_of theory.now) }
    requires from { NoneBefore (width_of theory.now) (theory_of theory.now) (attributes scheme)
        from.first from.second }
    ensures none { IsNone result
        → HasPair (width_of theory.now) (theory_of theory.now) (attributes scheme) → ⊥ }
    ensures first { IfSome result (λ pair. IsFirstPair (width_of theory.now) (theory_of theory.now)
        (attributes scheme) pair.first pair.second) }
{
    let mut least = from.second;
    for first in from.first..theory.width() {
        if let Some(second) = second_beside(theory, scheme, first, least) {
            return Some(Pair { first, second });
        }
        least = 0;
    }
    None
}

// The least attribute that is the second of a pair of a scheme with this first one, where none below
// `first` is.
fn second_beside(theory: &Theory, scheme: AttrSet, first: u8, least: u8) -> Option<u8>
    requires scheme { IsSubset (attributes scheme) (universe_of theory.now) }
    requires first { first < width_of theory.now }
    requires least { (d : ℕ)
        → IsPair (width_of theory.now) (theory_of theory.now) (attributes scheme) first d → least ≤ d }
    ensures none { IsNone result → (d : ℕ)
        → IsPair (width_of theory.now) (theory_of theory.now) (attributes scheme) first d → ⊥ }
    ensures pair { IfSome result (λ second.
        IsPair (width_of theory.now) (theory_of theory.now) (attributes scheme) first second) }
    ensures least { IfSome result (λ second. (d : ℕ)
        → IsPair (width_of theory.now) (theory_of theory.now) (attributes scheme) first d
        → second ≤ d) }
{
    if !can_begin(theory, scheme, first) {
        return None;
    }
    for second in least..theory.width() {
        if is_pair(theory, scheme, first, second) {
            return Some(second);
        }
    }
    None
}

// Whether an attribute of a scheme is determined by the others; no pair begins with one that is not.
fn can_begin(theory: &Theory, scheme: AttrSet, first: u8) -> bool
    requires scheme { IsSubset (attributes scheme) (universe_of theory.now) }
    requires first { first < width_of theory.now }
    ensures begins { (d : ℕ)
        → IsPair (width_of theory.now) (theory_of theory.now) (attributes scheme) first d
        → IsTrue result }
{
    if !scheme.contains(first) {
        return false;
    }
    determines(theory, scheme.without(first), first)
}

// Whether two attributes are a pair of a scheme.
fn is_pair(theory: &Theory, scheme: AttrSet, first: u8, second: u8) -> bool
    requires scheme { IsSubset (attributes scheme) (universe_of theory.now) }
    requires first { first < width_of theory.now }
    requires second { second < width_of theory.now }
    ensures pair { IsTrue result
        ↔ IsPair (width_of theory.now) (theory_of theory.now) (attributes scheme) first second }
{
    if !scheme.contains(first) {
        return false;
    }
    let others = scheme.without(first);
    if !others.contains(second) {
        return false;
    }
    determines(theory, others.without(second), first)
}

// Whether a set determines an attribute, by all dependencies.
fn determines(theory: &Theory, set: AttrSet, attribute: u8) -> bool
    requires set { IsSubset (attributes set) (universe_of theory.now) }
    requires attribute { attribute < width_of theory.now }
    ensures implied { IsTrue result
        ↔ Implies (width_of theory.now) (theory_of theory.now) (fd (attributes set) (only attribute)) }
{
    block(theory, set, attribute).is_none()
}
