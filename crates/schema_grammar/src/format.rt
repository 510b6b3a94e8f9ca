/// How a schema text is read: as one without a version line, or by its version. Goals are read as lines of
/// a text without one.
#[derive(Clone, Copy, Debug, PartialEq, Eq)]
pub enum Format {
    /// No version line: text columns.
    Plain,
    /// `TYPED_VERSION`: integer columns too.
    Typed,
    /// `FULL_VERSION`: columns of every type, missing values, and names between quotes.
    Full,
}

/// The most dependency lines of a schema text.
pub const MOST_DEPENDENCY_LINES: usize = 4096;

/// The version of typed texts.
pub const TYPED_VERSION: u32 = 2;

/// The version of full texts.
pub const FULL_VERSION: u32 = 3;
