//! The grammar of derivations, tied to their reading, and what derivations come to. Each is a function
//! that does nothing, whose clauses are the law; so the gate asks for its proof.

ghost use Rattle.derivation_grammar.specs.Laws.{LineMeaning, LineRefusal, DerivationReading, DerivationRefusal};
ghost use Rattle.derivation_grammar.specs.Laws.{ReadOrRefused, OneOutcome, DerivesByLines, EachLineIsImplied};
ghost use Rattle.derivation_grammar.specs.Laws.{DerivedIsImplied, CertificateIsDerivation};

/// A line of a derivation is read as a value exactly where it means that value, by its grammar, and
/// refused so exactly where its first diagnostic is that.
pub fn lines_are_read_or_refused()
    ensures meaning { LineMeaning }
    ensures refusal { LineRefusal }
{}

/// A text is read exactly as the lines of which it is a derivation, whatever their rules give. It is
/// refused exactly at the first line that goes wrong, and there for the first diagnostic; where no line
/// does, at its end, since it has no line. What a rule gives is no ground. Each text is a derivation or is
/// refused: a derivation of one list of lines at most, or refused in one way at most, and never both.
pub fn derivations_are_read_or_refused()
    ensures reading { DerivationReading }
    ensures refusal { DerivationRefusal }
    ensures some_outcome { ReadOrRefused }
    ensures one_outcome { OneOutcome }
{}

/// A text derives something exactly where each of its lines is derived and the last states that.
/// Soundness: each line of derived ones states what the schema implies, and so does what a text derives. A
/// certificate is a derivation of what it proves.
pub fn derived_lines_are_implied()
    ensures by_lines { DerivesByLines }
    ensures each_line { EachLineIsImplied }
    ensures derived { DerivedIsImplied }
    ensures certificate { CertificateIsDerivation }
{}
