use attr_sets::AttrSet;

/// A violation of a form: a left side that is no superkey of a scheme, and what shows it. For
/// third and Boyce-Codd form the left side determines the right side, for fourth form it
/// multidetermines it.
#[derive(Clone, Copy, Debug, PartialEq, Eq)]
pub struct Breach {
    pub lhs: AttrSet,
    pub rhs: AttrSet,
}

/// More attributes of a scheme than are searched stand in left sides.
#[derive(Clone, Copy, Debug, PartialEq, Eq)]
pub struct TooWide {
    pub scheme: AttrSet,
}
