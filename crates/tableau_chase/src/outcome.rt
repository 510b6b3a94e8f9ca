ghost use Rattle.std.specs.Prelude.{Some};
ghost use Rattle.tableau_chase.specs.RefusalTexts.{chase_refusal_text};

use dep_model::Row;
use std::error::Error;
use std::fmt;

/// What the chase of a plan says.
#[derive(Debug, Drop)]
pub enum Chased {
    /// The plan is lossless.
    Lossless,
    /// It is not: a legal relation whose projections have the row of all `0` in their join, which is not
    /// among its rows.
    Lossy(Vec<Row>),
}

/// Why the chase of a plan gives no answer.
#[derive(Clone, Copy, Debug, PartialEq, Eq, Drop)]
pub enum ChaseRefusal {
    /// A tableau of the rounds has more rows than it may.
    TooManyRows,
}

impl fmt::Display for ChaseRefusal {
    ghost output = { λ refusal. Some (chase_refusal_text refusal) };

    fn fmt<W: fmt::Write>(&self, f: &mut fmt::Formatter<W>) -> fmt::Result {
        match self {
            ChaseRefusal::TooManyRows => f.write_str("too many tableau rows"),
        }
    }
}

impl Error for ChaseRefusal {}
