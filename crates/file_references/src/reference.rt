/// The most columns of a key that is referred to.
pub const MOST_KEY_COLUMNS: usize = 3;

/// A reference from columns of one of several files to as many of one of them. Files and columns are
/// counted from 0.
#[derive(Debug, PartialEq, Eq, PartialOrd, Ord, Drop)]
pub struct FoundReference {
    pub file: usize,
    pub columns: Vec<usize>,
    pub target: usize,
    pub key: Vec<usize>,
}
