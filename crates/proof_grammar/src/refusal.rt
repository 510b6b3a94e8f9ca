ghost use Rattle.std.specs.Prelude.{◌≡◌};
ghost use Rattle.proof_grammar.specs.Diagnostics.{diagnostic_of};
ghost use Rattle.proof_grammar.specs.RefusalTexts.{diagnostic_number};

use dep_model::Dep;
use derivation::Fault;
use schema_grammar::SchemaRefusal;

/// Why a certificate is refused. It has no `Display`: the dependencies that a line states and concludes
/// are printed by the names of a schema.
#[derive(Clone, Copy, Debug, PartialEq, Eq, Hash)]
pub enum ProofRefusalKind {
    /// 1: the line breaks the grammar.
    BadLine(SchemaRefusal),
    /// 2: the line's number is not one more than the count of lines before it.
    WrongNumber,
    /// 3: a premise is not the number of an earlier line.
    NoSuchLine,
    /// 4: a premise was used by an earlier line, or both premises are one line.
    UsedTwice,
    /// 5: no other line uses this one, and it is not the last.
    NeverUsed,
    /// 6: one line more than a certificate may have.
    TooManyLines,
    /// 7: the line's derivation has one level more than it may have.
    TooDeep,
    /// 8: the rule gives no conclusion. The fault's node is the line's number.
    Unsound(Fault),
    /// 9: the line states another dependency than the rule concludes.
    StatesOther { stated: Dep, concluded: Dep },
    /// 10: there is no line.
    EmptyProof,
}

/// A refusal of a certificate, at a line of its text, from 1.
#[derive(Clone, Copy, Debug, PartialEq, Eq, Hash)]
pub struct ProofRefusal {
    pub line: u32,
    pub kind: ProofRefusalKind,
}

impl ProofRefusalKind {
    /// The number by which the documents and the program name it.
    pub fn number(self) -> u32
        ensures number { result ≡ diagnostic_number (diagnostic_of self) }
    {
        match self {
            ProofRefusalKind::BadLine(_) => 1,
            ProofRefusalKind::WrongNumber => 2,
            ProofRefusalKind::NoSuchLine => 3,
            ProofRefusalKind::UsedTwice => 4,
            ProofRefusalKind::NeverUsed => 5,
            ProofRefusalKind::TooManyLines => 6,
            ProofRefusalKind::TooDeep => 7,
            ProofRefusalKind::Unsound(_) => 8,
            ProofRefusalKind::StatesOther { .. } => 9,
            ProofRefusalKind::EmptyProof => 10,
        }
    }
}
