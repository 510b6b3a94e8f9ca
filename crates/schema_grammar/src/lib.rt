//! What schema texts, goals and sets mean, and how they are refused: the grammar, which readers
//! promise, and the texts of refusals.
//!
//! A text means what it declares, or it has diagnostics, and is refused by the first of them: that
//! of the first line, there of the first position, and there of the least number. Beside these
//! definitions stands a reading of a text from left to right. There is no code here but the enums
//! that refusals carry.
//!
//! Promises: a text means one value, or has one refusal, its first diagnostic, and the reading from
//! left to right gives which; a printed schema means what was printed.
#![tactic(auto)]

mod format;
mod laws;
mod line_kind;
mod refusal;
mod refusal_texts;
mod symbol;

pub use format::{FULL_VERSION, Format, MOST_DEPENDENCY_LINES, TYPED_VERSION};
pub use laws::{
    declared_names, first_diagnostics_refuse, goals_are_read_or_refused, printed_schema_means,
    schemas_are_read_or_refused, sets_are_read_or_refused,
};
pub use line_kind::{LineKind, Purpose};
pub use refusal::{SchemaRefusal, SchemaRefusalKind, Span, What};
pub use symbol::{Sign, Symbol};
