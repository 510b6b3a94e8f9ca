/// How far rows are from obeying a dependency.
#[derive(Clone, Copy, Debug, PartialEq, Eq, Hash)]
pub struct Measure {
    /// How many groups are broken.
    pub groups: u32,
    /// How many rows are in them.
    pub rows: u32,
    /// For a functional dependency how many rows must change or go, for a multivalued one how many are
    /// missing.
    pub amount: u64,
}

/// Whether a row, or all rows of a class, are among those that a functional dependency keeps.
#[derive(Clone, Copy, Debug, PartialEq, Eq, Hash)]
pub enum RowMark {
    /// In the chosen class of a broken group.
    Kept,
    /// In another class of a broken group: the rows that are so marked are a least removal.
    Removed,
    /// In a group that a multivalued dependency breaks.
    Unmarked,
}

/// A class of a group that breaks a functional dependency, or a group that breaks a multivalued one.
#[derive(Clone, Copy, Debug, PartialEq, Eq, Hash)]
pub struct BrokenPart {
    /// The number of its group among the broken ones, from 1.
    pub group: u32,
    /// How many rows it has.
    pub rows: u32,
    /// Its first row, from 0.
    pub first: u32,
    /// Whether it is the chosen class of its group.
    pub mark: RowMark,
}

/// A row of a broken group.
#[derive(Clone, Copy, Debug, PartialEq, Eq, Hash)]
pub struct BrokenRow {
    /// The number of its group among the broken ones, from 1.
    pub group: u32,
    /// The row, from 0.
    pub row: u32,
    /// Whether it is in the chosen class of its group.
    pub mark: RowMark,
}
