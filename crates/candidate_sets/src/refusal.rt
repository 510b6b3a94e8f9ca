/// The most candidates that are kept for an attribute.
pub const MOST_CANDIDATES: usize = 1_000_000;

/// Some evidence has more candidates for an attribute than are kept.
#[derive(Clone, Copy, Debug, PartialEq, Eq, Hash, Drop)]
pub struct TooManyCandidates;
