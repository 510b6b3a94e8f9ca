use attr_sets::AttrSet;

/// The most keys that are listed.
pub const MOST_KEYS: usize = 1_024;

/// Why the keys of a schema are not listed. It has no `Display`: a universe that is too wide is printed by
/// the names of the schema.
#[derive(Debug, Drop)]
pub enum KeyRefusal {
    /// There are more than `MOST_KEYS`. One more than that are given, ascending.
    TooManyKeys { found: Vec<AttrSet> },
    /// A multivalued dependency is given, and more than `fd_closure::WIDEST_SEARCHED` attributes stand
    /// in left sides.
    TooWide,
}

/// Why the keys of a scheme are not listed. It has no `Display`, for the same reason.
#[derive(Debug, Drop)]
pub enum SchemeKeyRefusal {
    /// There are more than `MOST_KEYS`. One more than that are given, ascending.
    TooManyKeys { found: Vec<AttrSet> },
    /// More than `fd_closure::WIDEST_SEARCHED` attributes of the scheme stand in left sides.
    TooWide,
}
