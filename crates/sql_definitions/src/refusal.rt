/// Why the SQL of a table is refused.
#[derive(Clone, Copy, Debug, PartialEq, Eq)]
pub enum Reason {
    /// A byte that begins no lexeme.
    StrangeByte,
    /// A quote that is never closed.
    OpenQuote,
    /// A comment that is never closed.
    OpenComment,
    /// No statement creates the table.
    NoSuchTable,
    /// Two statements create it.
    TableDefinedTwice,
    /// A column's name is no name of a schema.
    BadName,
    /// A column has the name of an earlier one.
    NameDeclaredTwice,
    /// No name stands where one has to.
    ExpectedName,
    /// No bracket opens where one has to.
    ExpectedBracket,
    /// A list is not closed.
    ExpectedCommaOrBracket,
    /// PRIMARY stands without KEY.
    ExpectedKey,
    /// More columns than a schema has attributes.
    TooManyAttributes,
    /// More keys than a schema has dependencies.
    TooManyDependencies,
    /// A key has a column that the table lacks.
    UnknownName,
    /// A statement adds something else than a constraint to the table, drops something of it or renames it.
    TableAltered,
}

/// A refusal: why, and how many bytes of the text stand before its place.
#[derive(Clone, Copy, Debug, PartialEq, Eq)]
pub struct Refusal {
    pub reason: Reason,
    pub place: usize,
}
