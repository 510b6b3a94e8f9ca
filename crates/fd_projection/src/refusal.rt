/// The most minimal dependencies inside a set that are listed.
pub const MOST_LISTED: usize = 10_000;

/// Why the functional dependencies inside a set are not listed. It has no `Display`: what is printed
/// has the names of the schema.
#[derive(Debug, Drop)]
pub enum ProjectionRefusal {
    /// More attributes of the set stand in left sides than are searched.
    TooWide,
    /// That is not so, and more than `MOST_LISTED` minimal dependencies lie inside the set.
    TooMany,
}
