//! The grammar of certificates, tied to their reading, and what printed certificates spell. Each is a
//! function that does nothing, whose clauses are the law; so the gate asks for its proof.

ghost use Rattle.std.specs.Prelude.{[], codes};
ghost use Rattle.proof_grammar.specs.Laws.{LineMeaning, LineRefusal, PrintedLineMeans, PrintedNodes, SpelledIsRead};
ghost use Rattle.proof_grammar.specs.Laws.{OneTree, LinesAreNodes, CertificateRefusal, PrintedSpells, PrintedIsRead};

/// A line of a certificate is read as a value exactly where it means that value, by its grammar. It is
/// refused so exactly where its first diagnostic is that: the one of the first position, and there of the
/// least number. So it has one refusal at most, and none where it means a line.
pub fn lines_are_read_or_refused()
    ensures meaning { LineMeaning }
    ensures refusal { LineRefusal }
{}

/// A text is read as a tree exactly where it spells the tree within the limits on lines and levels. It
/// spells one tree at most, whatever the limits, and its lines are as many as the nodes of the tree. A
/// certificate is refused exactly at the first line that goes wrong, and there for the first diagnostic;
/// where no line does, at its end, since it has no line, or for the first line but the last that no line
/// uses.
pub fn certificates_are_read_or_refused()
    ensures spelled { SpelledIsRead }
    ensures one_tree { OneTree }
    ensures as_many_lines { LinesAreNodes }
    ensures refusal { CertificateRefusal }
{}

/// What is printed of a line, but for its line feed, means the line. Its sets are of declared attributes,
/// and its numbers have at most 9 digits. The lines in which a derivation is printed are the nodes of its
/// tree, each but the last used once. What is printed of a derivation spells its tree, however its schema
/// names attributes, and is read again as its tree where it is within the limits; also where the answer
/// `yes` stands before it. Where names are bare, none of them may be reserved.
pub fn printed_certificates_are_read()
    ensures line { PrintedLineMeans }
    ensures nodes { PrintedNodes }
    ensures spelled { PrintedSpells [] }
    ensures spelled_after_yes { PrintedSpells (codes "yes\n") }
    ensures read { PrintedIsRead [] }
    ensures read_after_yes { PrintedIsRead (codes "yes\n") }
{}
