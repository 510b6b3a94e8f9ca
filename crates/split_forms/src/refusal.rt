use attr_sets::AttrSet;

/// Why a universe is not split. It has no `Display`: a scheme is printed by the names of a schema.
#[derive(Clone, Copy, Debug, PartialEq, Eq)]
pub enum SplitRefusal {
    /// More attributes of a scheme than are searched stand in left sides, and no given left side violates
    /// the form on it.
    TooWide { scheme: AttrSet },
    /// There are more schemes than the limit.
    TooManySchemes,
}
