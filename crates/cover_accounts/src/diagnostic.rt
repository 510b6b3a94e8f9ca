/// Which cover a list of dependencies is asked to be.
#[derive(Clone, Copy, Debug, PartialEq, Eq)]
pub enum CoverForm {
    /// A minimal cover: one attribute on the right of each functional dependency.
    Minimal,
    /// A canonical cover: each left side once.
    Canonical,
}

/// What keeps a list of dependencies from being a cover of a form. `dep` is the position of a dependency,
/// from 0.
#[derive(Clone, Copy, Debug, PartialEq, Eq)]
pub enum CoverDiagnostic {
    /// A functional dependency has more than one attribute on the right.
    SeveralOnRight { dep: u16 },
    /// A functional dependency has the left side of an earlier one; `first` is the first of these.
    SameLeft { dep: u16, first: u16 },
    /// An attribute of the left side of a functional dependency is not needed: the others determine
    /// the right side by all functional dependencies, this one too.
    NotNeededOnLeft { dep: u16, attribute: u8 },
    /// An attribute of the right side of a functional dependency is not needed: the left side determines
    /// it by the functional dependencies, of which this one stands without it.
    NotNeededOnRight { dep: u16, attribute: u8 },
    /// A functional dependency follows from the other functional ones, a multivalued one from all others.
    Follows { dep: u16 },
}
