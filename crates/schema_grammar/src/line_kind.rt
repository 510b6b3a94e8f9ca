use schema_model::ColumnType;

/// What the names of a line are for.
#[derive(Clone, Copy, Debug, PartialEq, Eq)]
pub enum Purpose {
    /// They declare columns of this type.
    Columns(ColumnType),
    /// A value of these attributes may be missing.
    Nullable,
}

/// What a line of a schema text is, by its first token.
#[derive(Clone, Copy, Debug, PartialEq, Eq)]
pub enum LineKind {
    /// Names follow.
    Names(Purpose),
    /// A scale follows, and then the names of decimal columns.
    Decimal,
    /// The text of a type follows, and then the names of columns of this type.
    Other,
    /// A dependency, of which the token is the first one.
    Dependency,
}
