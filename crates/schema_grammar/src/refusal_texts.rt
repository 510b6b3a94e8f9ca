ghost use Rattle.std.specs.Prelude.{Some};
ghost use Rattle.schema_grammar.specs.RefusalTexts.{what_text, kind_text, span_text, place_and_reason};

use crate::refusal::{SchemaRefusal, SchemaRefusalKind, Span, What};
use std::error::Error;
use std::fmt;

impl fmt::Display for What {
    ghost output = { λ what. Some (what_text what) };

    fn fmt<W: fmt::Write>(&self, f: &mut fmt::Formatter<W>) -> fmt::Result {
        match self {
            What::Name => f.write_str("a name"),
            What::Side => f.write_str("names or ()"),
            What::Arrow => f.write_str("-> or ->>"),
            What::LineEnd => f.write_str("the line's end"),
            What::Number => f.write_str("a number"),
            What::Colon => f.write_str(":"),
            What::Rule => f.write_str("a rule"),
            What::With => f.write_str("with"),
            What::Scheme => f.write_str("scheme"),
            What::Type => f.write_str("a type"),
        }
    }
}

impl fmt::Display for SchemaRefusalKind {
    ghost output = { λ kind. Some (kind_text kind) };

    fn fmt<W: fmt::Write>(&self, f: &mut fmt::Formatter<W>) -> fmt::Result {
        match self {
            SchemaRefusalKind::StrangeByte => f.write_str("strange byte"),
            SchemaRefusalKind::BadName => f.write_str("bad name"),
            SchemaRefusalKind::ReservedName => f.write_str("reserved name"),
            SchemaRefusalKind::DoubleName => f.write_str("name declared twice"),
            SchemaRefusalKind::UnknownName => f.write_str("unknown name"),
            SchemaRefusalKind::Expected(what) => write!(f, "expected {what}"),
            SchemaRefusalKind::TooManyAttributes => f.write_str("too many attributes"),
            SchemaRefusalKind::TooManyDependencies => f.write_str("too many dependencies"),
            SchemaRefusalKind::NoAttributes => f.write_str("no attributes"),
            SchemaRefusalKind::UnknownVersion => f.write_str("unknown version"),
            SchemaRefusalKind::NoScale => f.write_str("no scale from 0 to 9"),
            SchemaRefusalKind::NoType => f.write_str("no type"),
        }
    }
}

impl Error for SchemaRefusalKind {}

impl fmt::Display for Span {
    ghost output = { λ span. Some (span_text span) };

    fn fmt<W: fmt::Write>(&self, f: &mut fmt::Formatter<W>) -> fmt::Result {
        let line = self.line;
        let column = self.column;
        write!(f, "{line}:{column}")
    }
}

impl fmt::Display for SchemaRefusal {
    ghost output = { λ refusal. Some (place_and_reason refusal) };

    fn fmt<W: fmt::Write>(&self, f: &mut fmt::Formatter<W>) -> fmt::Result {
        let span = self.span;
        let kind = self.kind;
        write!(f, "{span} {kind}")
    }
}

impl Error for SchemaRefusal {}
