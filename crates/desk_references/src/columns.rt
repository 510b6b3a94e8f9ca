//! Columns of a file, as a word of a command states them.

ghost use Rattle.std.specs.Prelude.{◌≡◌, ◌≤◌, List, length, IfErr, IfOk};
ghost use Rattle.std.specs.List.{AllZip};
ghost use Rattle.attr_sets.specs.declared.set.TheConstants.{MOST_ATTRIBUTES};
ghost use Rattle.dep_model.specs.Failures.{RefusesAs};
ghost use Rattle.desk_references.specs.ColumnLists.{AreColumns, ColumnsStop, MeansColumns, NamesColumnAt};
ghost use Rattle.desk_references.specs.ColumnLists.{RefusesColumns};
ghost use Rattle.desk_references.specs.ColumnSteps.{IsRefusedNext, NamesNext};
ghost use Rattle.desk_responses.specs.Responses.{ExitsAs};
ghost use Rattle.lexer.specs.Tokens.{Mark, bytes_of};
ghost use Rattle.schema_grammar.specs.Diagnostics.{NamesWant};

use arguments::Argument;
use dep_model::Failure;
use desk_refusals::refusal_exit;
use desk_responses::{EarlyExit, Status};
use desk_texts::line_of;
use lexer::{Mode, TokenKind, Word};
use schema_grammar::{Format, SchemaRefusal, SchemaRefusalKind, What};
use schema_model::{Name, Naming};
use std::alloc::Global;
use tokens::{Cursor, Names, NextToken, look_up};

/// The most columns in a list.
pub const MOST_LISTED_COLUMNS: usize = 8;

/// The most bytes of a text that lists columns.
pub const MOST_LIST_BYTES: usize = 65_536;

/// The columns of a file that a text names, which a refusal calls so.
pub fn columns_of(
    alloc: Global,
    called: &[u8],
    names: &[Name],
    text: &Argument,
) -> Result<Vec<usize>, EarlyExit>
    requires within_limit { length names.now ≤ MOST_ATTRIBUTES }
    ensures ok { IfOk result (λ columns. AreColumns names.now text.now columns.items) }
    ensures exit { IfErr result (ExitsAs (ColumnsStop called.now names.now text.now)) }
{
    let bytes = text.bytes();
    if bytes.len() > MOST_LIST_BYTES {
        return Err(EarlyExit::with_text(
            Status::Refused,
            line_of(alloc, b"refused: ", called, b" is too long"),
        ));
    }
    match read_columns(alloc, names, bytes) {
        Ok(columns) => Ok(columns),
        Err(Failure::Refused(refusal)) => Err(refusal_exit(alloc, b"references", called, refusal)),
        Err(Failure::OutOfMemory) => Err(EarlyExit::OutOfMemory),
    }
}

// The columns that a text names, or its first diagnostic.
fn read_columns(
    alloc: Global,
    names: &[Name],
    text: &[u8],
) -> Result<Vec<usize>, Failure<SchemaRefusal>>
    requires within_limit { length names.now ≤ MOST_ATTRIBUTES }
    requires short { length text.now ≤ MOST_LIST_BYTES }
    ensures ok { IfOk result (λ columns. MeansColumns names.now text.now columns.items) }
    ensures err { IfErr result (RefusesAs (RefusesColumns names.now text.now)) }
{
    let mut columns = Vec::new(alloc);
    let mut rest = Cursor::start(1, Mode::goal(Naming::Any), text);
    'columns: loop {
        match rest.next() {
            NextToken::End if columns.is_empty() => {
                return Err(Failure::Refused(rest.refusal_of_end(What::Name)));
            }
            NextToken::End => return Ok(columns),
            NextToken::Refusal(refusal) => return Err(Failure::Refused(refusal)),
            NextToken::Token(token, word, after) => {
                match column_of(names, &columns, token.kind, &word) {
                    Err(kind) => return Err(Failure::Refused(rest.refusal_of(token, kind))),
                    Ok(column) => {
                        columns.push(column)?;
                        rest = after;
                    }
                }
            }
        }
    }
}

// The column that a token names after these columns, or why it names none.
fn column_of(
    names: &[Name],
    before: &[usize],
    kind: TokenKind,
    word: &Word<'_>,
) -> Result<usize, SchemaRefusalKind>
    requires within_limit { length names.now ≤ MOST_ATTRIBUTES }
    ensures column { (earlier : List Mark) (m : Mark) → AllZip (NamesColumnAt names.now) earlier before.now
        → m.kind ≡ kind → m.word ≡ bytes_of word.now
        → IfOk result (NamesNext names.now earlier before.now m) }
    ensures err { (earlier : List Mark) (m : Mark) → AllZip (NamesColumnAt names.now) earlier before.now
        → m.kind ≡ kind → m.word ≡ bytes_of word.now
        → IfErr result (IsRefusedNext names.now earlier m) }
{
    match kind {
        TokenKind::Identifier | TokenKind::Quoted => {
            let column = match look_up(&Names::Listed(names), Format::Plain, kind, word) {
                Ok(column) => column as usize,
                Err(why) => return Err(why),
            };
            if before.contains(&column) {
                return Err(SchemaRefusalKind::DoubleName);
            }
            if before.len() >= MOST_LISTED_COLUMNS {
                return Err(SchemaRefusalKind::Expected(What::LineEnd));
            }
            Ok(column)
        }
        _ => Err(SchemaRefusalKind::Expected(wanted_after(before))),
    }
}

// What is wanted after columns: a name first, and then the line's end.
fn wanted_after(columns: &[usize]) -> What
    ensures wanted { NamesWant (length columns.now) result }
{
    if columns.is_empty() {
        What::Name
    } else {
        What::LineEnd
    }
}
