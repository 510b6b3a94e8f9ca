//! The rules of derivations. In the comments `X -> Y` is a functional dependency, `X ->> Y` a multivalued
//! one, `XZ` the union of `X` and `Z`, and `U` the universe.

use attr_sets::AttrSet;

/// A rule without premises.
#[derive(Clone, Copy, Debug, PartialEq, Eq, Hash)]
pub enum LeafRule {
    /// The schema's dependency of this number, from 0.
    Given(u16),
    /// `lhs -> rhs`, where `rhs` is within `lhs`.
    Reflexivity { lhs: AttrSet, rhs: AttrSet },
    /// `lhs ->> rhs`, where `rhs` is within `lhs`.
    MReflexivity { lhs: AttrSet, rhs: AttrSet },
}

/// A rule with one premise.
#[derive(Clone, Copy, Debug, PartialEq, Eq, Hash)]
pub enum StepRule {
    /// From `X -> Y`: `XZ -> YZ`, where `by` is `Z`.
    Augmentation { by: AttrSet },
    /// From `X ->> Y`: `X ->> U - XY`.
    Complementation,
    /// From `X ->> Y`: `XW ->> YZ`, where `wide` is `W` and `narrow` is `Z`, which is within `W`.
    MAugmentation { wide: AttrSet, narrow: AttrSet },
    /// From `X -> Y`: `X ->> Y`.
    Replication,
}

/// A rule with two premises.
#[derive(Clone, Copy, Debug, PartialEq, Eq, Hash)]
pub enum PairRule {
    /// From `X -> Y` and `Y -> Z`: `X -> Z`.
    Transitivity,
    /// From `X ->> Y` and `Y ->> Z`: `X ->> Z - Y`.
    MTransitivity,
    /// From `X ->> Y` and `Z -> W`: `X -> W`, where `W` is within `Y`, and `Z` has no member in `Y`.
    Coalescence,
}
