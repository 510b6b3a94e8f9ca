ghost use Rattle.std.specs.Prelude.{◌≡◌, ℕ, ◌+◌, ◌<◌, ◌≤◌, ◌↔◌, ◌==◌, false, not, IsTrue, IsNone, IfSome, refl};
ghost use Rattle.attr_sets.specs.Attributes.{below, only, none, union, intersection, difference, IsSubset, IsEmpty, Intersects, IsBefore, IsFirstFrom, IsNextSubset, count_below};
ghost use Rattle.attr_sets.specs.Sets.{attributes, is_subset, is_same, is_disjoint};

use std::cmp::Ordering;

/// The most attributes of a universe, and so of a set.
pub const MOST_ATTRIBUTES: u8 = 128;

/// A set of attributes, each a number below `MOST_ATTRIBUTES`. Bit `i` of the field stands for
/// attribute `i`, and sets are ordered by the field, so the greatest attribute in which two sets
/// differ decides.
#[derive(Clone, Copy, Debug, Eq, PartialOrd, Hash)]
pub struct AttrSet(pub u128);

impl AttrSet {
    /// The empty set.
    pub fn empty() -> AttrSet
        ensures members { attributes result ≡ none }
    {
        AttrSet(0)
    }

    /// The attributes below `n`.
    pub fn full(n: u8) -> AttrSet
        requires { n ≤ MOST_ATTRIBUTES }
        ensures members { attributes result ≡ below n }
    {
        if n == 0 {
            AttrSet(0)
        } else {
            AttrSet(u128::MAX >> (MOST_ATTRIBUTES - n))
        }
    }

    /// The set of attribute `i` alone.
    pub fn single(i: u8) -> AttrSet
        requires { i < MOST_ATTRIBUTES }
        ensures members { attributes result ≡ only i }
    {
        AttrSet(1 << i)
    }

    /// Whether attribute `i` is a member.
    pub fn contains(self, i: u8) -> bool
        requires { i < MOST_ATTRIBUTES }
        ensures member { result ≡ attributes self i }
    {
        self.0 >> i & 1 == 1
    }

    /// The set with attribute `i` added.
    pub fn with(self, i: u8) -> AttrSet
        requires { i < MOST_ATTRIBUTES }
        ensures members { attributes result ≡ union (attributes self) (only i) }
    {
        AttrSet(self.0 | 1 << i)
    }

    /// The set with attribute `i` left out.
    pub fn without(self, i: u8) -> AttrSet
        requires { i < MOST_ATTRIBUTES }
        ensures members { attributes result ≡ difference (attributes self) (only i) }
    {
        AttrSet(self.0 & !(1 << i))
    }

    /// The members of either set.
    pub fn union(self, other: AttrSet) -> AttrSet
        ensures members { attributes result ≡ union (attributes self) (attributes other) }
    {
        AttrSet(self.0 | other.0)
    }

    /// The members of both sets.
    pub fn intersection(self, other: AttrSet) -> AttrSet
        ensures members { attributes result ≡ intersection (attributes self) (attributes other) }
    {
        AttrSet(self.0 & other.0)
    }

    /// The members of this set that are not in the other.
    pub fn difference(self, other: AttrSet) -> AttrSet
        ensures members { attributes result ≡ difference (attributes self) (attributes other) }
    {
        AttrSet(self.0 & !other.0)
    }

    /// Whether every member is in the other set.
    pub fn is_subset(self, other: AttrSet) -> bool
        ensures subset { IsTrue result ↔ IsSubset (attributes self) (attributes other) }
        ensures test { result ≡ is_subset (attributes self) (attributes other) }
    {
        self.0 & !other.0 == 0
    }

    /// Whether the two sets have a common member.
    pub fn intersects(self, other: AttrSet) -> bool
        ensures intersects { IsTrue result ↔ Intersects (attributes self) (attributes other) }
        ensures test { result ≡ not (is_disjoint (attributes self) (attributes other)) }
    {
        !self.intersection(other).is_empty()
    }

    /// Whether the set has no member.
    pub fn is_empty(self) -> bool
        ensures empty { IsTrue result ↔ IsEmpty (attributes self) }
    {
        self.0 == 0
    }

    /// How many members the set has.
    pub fn len(self) -> u8
        ensures members { result ≡ count_below (attributes self) MOST_ATTRIBUTES }
        ensures within_limit { result ≤ MOST_ATTRIBUTES }
    {
        self.0.count_ones() as u8
    }

    /// The first member.
    pub fn first(self) -> Option<u8>
        ensures none { IsNone result ↔ IsEmpty (attributes self) }
        ensures first { IfSome result (IsFirstFrom (attributes self) 0) }
        ensures attribute { IfSome result (λ i. i < MOST_ATTRIBUTES) }
    {
        if self.0 == 0 {
            None
        } else {
            Some(self.0.trailing_zeros() as u8)
        }
    }

    /// The first member above attribute `i`.
    pub fn after(self, i: u8) -> Option<u8>
        requires { i < MOST_ATTRIBUTES }
        ensures none { IsNone result ↔ ((k : ℕ) → i < k → attributes self k ≡ false) }
        ensures first { IfSome result (IsFirstFrom (attributes self) (i + 1)) }
        ensures attribute { IfSome result (λ j. j < MOST_ATTRIBUTES) }
    {
        self.difference(AttrSet::full(i + 1)).first()
    }

    /// The least subset of `whole` after this one, in the order of sets; none after `whole` itself. So
    /// the subsets of a set are gone through from the empty one on, each once.
    pub fn next_subset(self, whole: AttrSet) -> Option<AttrSet>
        requires within { IsSubset (attributes self) (attributes whole) }
        ensures none { IsNone result ↔ attributes self ≡ attributes whole }
        ensures next { IfSome result (λ next. IsNextSubset (attributes whole) (attributes self)
            (attributes next)) }
        ensures number { IfSome result (λ next. self.0 < next.0) }
    {
        match whole.difference(self).first() {
            Some(i) => Some(self.difference(AttrSet::full(i)).with(i)),
            None => None,
        }
    }
}

impl PartialEq for AttrSet {
    ghost use Rattle.std.specs.Cmp.{on_per, partial_equiv_from_equiv, nat_eq_equiv};
    ghost use Rattle.std.specs.Ordering.{on};

    ghost eq = { on (λ s. s.0) ◌==◌ };

    ghost laws = { on_per (λ s. s.0) (partial_equiv_from_equiv nat_eq_equiv) };

    /// Whether the sets have the same members.
    fn eq(&self, other: &AttrSet) -> bool
        ensures number { result ≡ (self.now.0 == other.now.0) }
        ensures same { IsTrue result ↔ attributes self.now ≡ attributes other.now }
        ensures test { result ≡ is_same (attributes self.now) (attributes other.now) }
    {
        self.0 == other.0
    }
}

impl Ord for AttrSet {
    ghost use Rattle.std.specs.Cmp.{on_total, nat_cmp_total, unsigned_ties};
    ghost use Rattle.std.specs.Ordering.{on, MatchOrdering, nat_cmp};

    ghost cmp = { on (λ s. s.0) nat_cmp };

    ghost total = { on_total (λ s. s.0) nat_cmp_total };

    ghost matches_partial_cmp = { λ a b. refl };

    ghost matches_eq = { λ a b. unsigned_ties a.0 b.0 };

    /// Which set comes first.
    fn cmp(&self, other: &AttrSet) -> Ordering
        ensures number { result ≡ nat_cmp self.now.0 other.now.0 }
        ensures order { MatchOrdering result
            (IsBefore (attributes self.now) (attributes other.now))
            (attributes self.now ≡ attributes other.now)
            (IsBefore (attributes other.now) (attributes self.now)) }
    {
        let (x, y) = (self.0, other.0);
        x.cmp(&y)
    }
}
