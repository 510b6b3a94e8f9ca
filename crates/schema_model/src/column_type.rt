use crate::TypeName;

/// The type of a column.
#[derive(Clone, Copy, Debug, PartialEq, Eq, Hash)]
pub enum ColumnType {
    /// Any bytes.
    Text,
    /// Integer texts alone, from -2^63 to 2^63 - 1.
    Integer,
    /// Days of the Gregorian calendar.
    Date,
    /// Days with a time of day.
    Timestamp,
    /// Decimal numbers with this many digits after the point, at most `MOST_SCALE`.
    Decimal(u8),
    /// Universally unique identifiers.
    Uuid,
    /// Any bytes, in a column of this type of SQL.
    Other(TypeName),
}

/// The most digits after the point of a decimal number.
pub const MOST_SCALE: u8 = 9;
