//! Where its files have their meaning and nothing fails, a call ends with yes or no, or runs out of
//! memory (`complete` says it of every call): the laws of references between files.

ghost use Rattle.desk_laws.specs.AnsweredReferences.{CheckReferencesIsAnswered, DiscoverReferencesIsAnswered};

/// `discover references` is answered by yes where from one to 64 CSV files each have a header that names its columns,
/// and rows under it; `check references` where two have, and the two words state as many of these columns.
pub fn references_are_answered()
    ensures discover { DiscoverReferencesIsAnswered }
    ensures check { CheckReferencesIsAnswered }
{}
