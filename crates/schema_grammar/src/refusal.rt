ghost use Rattle.std.specs.Prelude.{◌≡◌};
ghost use Rattle.schema_grammar.specs.DiagnosticKinds.{diagnostic_kind, number_of};
ghost use Rattle.schema_grammar.specs.Refusals.{refusal, refused_by};

use lexer::{Flaw, LexError};

/// A place in a text: its line and column, from 1, and how many bytes it has. Columns count bytes.
#[derive(Clone, Copy, Debug, PartialEq, Eq, Hash)]
pub struct Span {
    pub line: u32,
    pub column: u32,
    pub length: u32,
}

/// What the grammar wants where it can't go on.
#[derive(Clone, Copy, Debug, PartialEq, Eq, Hash)]
pub enum What {
    Name,
    /// Names or `()`.
    Side,
    /// `->` or `->>`.
    Arrow,
    LineEnd,
    Number,
    Colon,
    Rule,
    With,
    Scheme,
    /// The text of a type, between quotes.
    Type,
}

/// Why a text is refused.
#[derive(Clone, Copy, Debug, PartialEq, Eq, Hash)]
pub enum SchemaRefusalKind {
    /// 1: a byte that begins no token.
    StrangeByte,
    /// 2: a run of letters, digits and `_` that is no name.
    BadName,
    /// 3: a reserved word.
    ReservedName,
    /// 4: a name that was declared before, ASCII case aside.
    DoubleName,
    /// 5: a name that no earlier line declares.
    UnknownName,
    /// 6: the grammar can't go on here.
    Expected(What),
    /// 7: one attribute more than a schema holds.
    TooManyAttributes,
    /// 8: one dependency more than a schema holds.
    TooManyDependencies,
    /// 9: no attribute is declared.
    NoAttributes,
    /// 13: a version that isn't read.
    UnknownVersion,
    /// 14: a number that is no scale.
    NoScale,
    /// 14: a quoted text that is no type.
    NoType,
}

/// A refusal of a text, at its place.
#[derive(Clone, Copy, Debug, PartialEq, Eq, Hash)]
pub struct SchemaRefusal {
    pub span: Span,
    pub kind: SchemaRefusalKind,
}

impl SchemaRefusalKind {
    /// The number by which the documents and the program name it.
    pub fn number(self) -> u32
        ensures number { result ≡ number_of (diagnostic_kind self) }
    {
        match self {
            SchemaRefusalKind::StrangeByte => 1,
            SchemaRefusalKind::BadName => 2,
            SchemaRefusalKind::ReservedName => 3,
            SchemaRefusalKind::DoubleName => 4,
            SchemaRefusalKind::UnknownName => 5,
            SchemaRefusalKind::Expected(_) => 6,
            SchemaRefusalKind::TooManyAttributes => 7,
            SchemaRefusalKind::TooManyDependencies => 8,
            SchemaRefusalKind::NoAttributes => 9,
            SchemaRefusalKind::UnknownVersion => 13,
            SchemaRefusalKind::NoScale => 14,
            SchemaRefusalKind::NoType => 14,
        }
    }
}

impl SchemaRefusal {
    /// The refusal at a place.
    pub fn at(line: u32, column: u32, length: u32, kind: SchemaRefusalKind) -> SchemaRefusal
        ensures refusal { result ≡ refusal line column length kind }
    {
        SchemaRefusal {
            span: Span {
                line,
                column,
                length,
            },
            kind,
        }
    }

    /// The refusal of bytes that are no token.
    pub fn by(line: u32, stop: LexError) -> SchemaRefusal
        ensures refusal { result ≡ refused_by line stop }
    {
        let kind = match stop.flaw {
            Flaw::StrangeByte => SchemaRefusalKind::StrangeByte,
            Flaw::BadName => SchemaRefusalKind::BadName,
        };
        SchemaRefusal::at(line, stop.column, stop.length, kind)
    }
}
