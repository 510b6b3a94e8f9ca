/// The most attributes in left sides of a schema that is exhibited: the closure of each set of these is
/// kept.
pub const WIDEST_EXHIBITED: u8 = 16;

/// The most rows of an exhibit.
pub const MOST_EXHIBITED_ROWS: usize = 100_000;

/// Why a schema has no exhibit. It has no `Display`: what is printed has the lines and the names of the
/// schema.
#[derive(Debug, Drop)]
pub enum ExhibitRefusal {
    /// A dependency is multivalued: `dep` is the first that is, from 0.
    NotFunctional { dep: u16 },
    /// All dependencies are functional, and more than `WIDEST_EXHIBITED` attributes stand in left sides.
    TooWide,
    /// Neither is so, and the relation would have more than `MOST_EXHIBITED_ROWS` rows.
    TooManyRows,
}
