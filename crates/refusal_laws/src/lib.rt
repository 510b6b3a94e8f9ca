//! The law of refusals. No code.
//!
//! Promises: each text of status 2 begins with `refused: ` and is one line, but for line ends in the name
//! of a file or a folder.
#![tactic(auto)]

ghost use Rattle.refusal_laws.specs.Refusals.{EveryRefusalIsOneLine};

/// Whatever the words, the files and the answers to looks at names are, a text that refuses is a line that
/// begins with `refused: `. At most one name of a file or a folder stands in it, one that the words give;
/// there is no line end before it, and none after it but the last byte.
pub fn every_refusal_is_one_line()
    ensures law { EveryRefusalIsOneLine }
{}
