ghost use Rattle.std.specs.Prelude.{◌≡◌};
ghost use Rattle.csv_rows.specs.RefusalTexts.{row_refusal_number};

/// Why a CSV text is refused. It has no `Display`: an attribute is printed by its name in a schema.
#[derive(Clone, Copy, Debug, PartialEq, Eq, Hash)]
pub enum RowRefusal {
    /// 1: the text has no record.
    NoHeader,
    /// 2: the header's field in this column, from 1, is the name of no attribute.
    UnknownColumn { column: u32 },
    /// 3: the attribute of this column, from 1, has a column further left.
    DoubleColumn { column: u32 },
    /// 4: the attribute has no column, and each one before it has one.
    MissingColumn { attribute: u8 },
    /// 5: the row, from 1, has another number of fields than the header.
    UnevenRow { row: u32 },
    /// 6: one row more than a file may have.
    TooManyRows,
    /// 7: in the row, from 1, the value of the attribute does not fit its column. The attribute is the
    /// least such one.
    NotOfType { row: u32, attribute: u8 },
    /// 8: a quote of the header is never closed.
    OpenHeader,
    /// 8: a quote of the row, from 1, is never closed. It is the last row.
    OpenRow { row: u32 },
}

impl RowRefusal {
    /// The number by which the documents and the program name it.
    pub fn number(self) -> u32
        ensures number { result ≡ row_refusal_number self }
    {
        match self {
            RowRefusal::NoHeader => 1,
            RowRefusal::UnknownColumn { .. } => 2,
            RowRefusal::DoubleColumn { .. } => 3,
            RowRefusal::MissingColumn { .. } => 4,
            RowRefusal::UnevenRow { .. } => 5,
            RowRefusal::TooManyRows => 6,
            RowRefusal::NotOfType { .. } => 7,
            RowRefusal::OpenHeader => 8,
            RowRefusal::OpenRow { .. } => 8,
        }
    }
}
