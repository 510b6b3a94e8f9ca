use crate::Misuse;
use dep_model::Dep;
use derivation_text::DerivationLine;

/// What is wrong with a line.
#[derive(Clone, Copy, Debug)]
pub enum Mistake {
    /// Its rule does not apply to the lines that it names.
    DoesNotApply(Misuse),
    /// Its rule gives another dependency than the line states.
    Gives(Dep),
}

/// A line with which something is wrong.
#[derive(Clone, Copy, Debug)]
pub struct MistakenLine {
    pub line: DerivationLine,
    pub mistake: Mistake,
    /// Whether what the line states follows from the schema all the same.
    pub follows: bool,
}
