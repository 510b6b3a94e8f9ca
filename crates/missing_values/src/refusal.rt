/// Where an attribute stands of which a value may be missing, so that tables cannot be read back. Tables are named by
/// their positions in the design, from 0.
#[derive(Clone, Copy, Debug, PartialEq, Eq)]
pub enum MissingRefusal {
    /// In the key of a table that cannot be looked up.
    InKey {
        attribute: u8,
        table: usize,
    },
    /// In an earlier table and in a later one, outside their keys.
    InTwo {
        attribute: u8,
        earlier: usize,
        table: usize,
    },
}
