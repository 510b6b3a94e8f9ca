/// Which arrow a dependency has.
#[derive(Clone, Copy, Debug, PartialEq, Eq)]
pub enum Sign {
    /// `->`
    Functional,
    /// `->>`
    Multivalued,
}

/// What a token of a dependency line stands for.
#[derive(Clone, Copy, Debug, PartialEq, Eq)]
pub enum Symbol {
    Attribute(u8),
    Arrow(Sign),
    /// `()`
    Empty,
    /// What no dependency has.
    Other,
}
