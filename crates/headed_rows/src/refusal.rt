ghost use Rattle.std.specs.Prelude.{◌≡◌, Some};
ghost use Rattle.headed_rows.specs.RefusalTexts.{headed_refusal_number, headed_reason_text};

use std::error::Error;
use std::fmt;

/// Why a CSV text is refused whose columns are named by its header alone.
#[derive(Clone, Copy, Debug, PartialEq, Eq, Hash)]
pub enum HeaderRefusal {
    /// 1: the text has no record.
    NoHeader,
    /// 2: the header has more columns than are looked at.
    TooManyColumns,
    /// 3: the header's field in this column, from 1, is no name.
    BadColumn { column: u32 },
    /// 4: the name of this column, from 1, stands further left.
    DoubleColumn { column: u32 },
    /// 5: the row, from 1, has another number of fields than the header.
    UnevenRow { row: u32 },
    /// 6: one row more than a file may have.
    TooManyRows,
    /// 8: a quote of the header is never closed.
    OpenHeader,
    /// 8: a quote of the row, from 1, is never closed. It is the last row.
    OpenRow { row: u32 },
}

impl HeaderRefusal {
    /// The number by which the documents and the program name it.
    pub fn number(self) -> u32
        ensures number { result ≡ headed_refusal_number self }
    {
        match self {
            HeaderRefusal::NoHeader => 1,
            HeaderRefusal::TooManyColumns => 2,
            HeaderRefusal::BadColumn { .. } => 3,
            HeaderRefusal::DoubleColumn { .. } => 4,
            HeaderRefusal::UnevenRow { .. } => 5,
            HeaderRefusal::TooManyRows => 6,
            HeaderRefusal::OpenHeader => 8,
            HeaderRefusal::OpenRow { .. } => 8,
        }
    }
}

impl fmt::Display for HeaderRefusal {
    ghost output = { λ refusal. Some (headed_reason_text refusal) };

    fn fmt<W: fmt::Write>(&self, f: &mut fmt::Formatter<W>) -> fmt::Result {
        match self {
            HeaderRefusal::NoHeader => f.write_str("no header"),
            HeaderRefusal::TooManyColumns => f.write_str("too many columns"),
            HeaderRefusal::BadColumn { column } => write!(f, "bad column {column}"),
            HeaderRefusal::DoubleColumn { column } => write!(f, "column {column} repeated"),
            HeaderRefusal::UnevenRow { row } => write!(f, "row {row} has the wrong length"),
            HeaderRefusal::TooManyRows => f.write_str("too many rows"),
            HeaderRefusal::OpenHeader => f.write_str("the header has an open quote"),
            HeaderRefusal::OpenRow { row } => write!(f, "row {row} has an open quote"),
        }
    }
}

impl Error for HeaderRefusal {}
