/// What a line of a certificate's text is.
#[derive(Clone, Copy, Debug, PartialEq, Eq)]
pub enum LineKind {
    /// Without tokens.
    Blank,
    /// The one word `yes`, before any certificate line.
    Opening,
    Certificate,
}
