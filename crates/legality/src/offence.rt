/// Two rows that break a dependency.
#[derive(Clone, Copy, Debug, PartialEq, Eq, Hash)]
pub struct Offence {
    /// The dependency, from 0, in the order of the file.
    pub dep: u16,
    /// The first row, from 1. For a multivalued dependency it may come after the second.
    pub first: u32,
    /// The second row, from 1.
    pub second: u32,
}
