use dep_model::Dep;
use row_groups::Interned;

/// The most sets that are tried for an attribute.
pub const MOST_TRIED: usize = 1_000_000;

/// More sets would have to be tried for an attribute than are.
#[derive(Clone, Copy, Debug, PartialEq, Eq, Hash, Drop)]
pub struct TooManyTried {
    /// The attribute.
    pub right: u8,
}

/// Dependencies that nearly hold, and for each of them how many rows must go.
#[derive(Debug, Drop)]
pub struct NearRules {
    pub deps: Vec<Dep>,
    pub errors: Vec<u32>,
}

// In which rows is searched, with the first of them for themselves, for which attributes, from left sides of how many
// columns, and up to which error.
#[derive(Debug, Drop)]
pub struct Sought {
    pub codes: Interned,
    pub front: Interned,
    pub width: u8,
    pub rights: u8,
    pub most: u8,
    pub limit: u32,
}

// What was found so far, and how many sets were tried for each right side.
#[derive(Debug, Drop)]
pub struct Found {
    pub deps: Vec<Dep>,
    pub errors: Vec<u32>,
    pub tried: Vec<u32>,
}
