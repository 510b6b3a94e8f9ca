ghost use Rattle.std.specs.Prelude.{◌≡◌, ◌+◌, ◌<◌, ◌≤◌, ◌^◌, length, IfOk, IfErr, Ok, Err};
ghost use Rattle.attr_sets.specs.Attributes.{below};
ghost use Rattle.dep_model.specs.Deps.{dependency_of, IsDepWithin};
ghost use Rattle.schema_model.specs.Schemas.{naming_of, names_of, universe_of};
ghost use Rattle.lexer.specs.Tokens.{bytes_of};
ghost use Rattle.schema_grammar.specs.Grammar.{finish_dependency, IsInRange};
ghost use Rattle.schema_reader.specs.Views.{reached_of};
ghost use Rattle.tokens.specs.Views.{names_in, rest_of};
ghost use Rattle.schema_grammar.specs.Diagnostics.{RefusesGoal};
ghost use Rattle.schema_grammar.specs.Meanings.{MeansGoal};
ghost use Rattle.schema_grammar.specs.Reading.{symbol_of, step, follow_rest};
ghost use Rattle.schema_grammar.specs.Refusals.{at, expect};

use crate::stage::{Stage, advance, finish};
use attr_sets::MOST_ATTRIBUTES;
use dep_model::Dep;
use lexer::{Mode, TokenKind, Word};
use schema_grammar::{Format, SchemaRefusal, SchemaRefusalKind, Sign, Symbol};
use schema_model::Schema;
use tokens::{Cursor, Names, NextToken, look_up};

/// The most bytes of a goal.
pub const MOST_GOAL_BYTES: usize = 16_384;

/// The dependency over the schema's names that a goal means, or its first diagnostic. The goal is one
/// line; `#`, line ends and a byte-order mark are strange bytes in it. It takes no memory.
pub fn read_goal(schema: &Schema, text: &[u8]) -> Result<Dep, SchemaRefusal>
    requires { length text.now ≤ MOST_GOAL_BYTES }
    ensures ok { IfOk result (λ dep.
        MeansGoal (naming_of schema.now) (names_of schema.now) text.now (dependency_of dep)) }
    ensures err { IfErr result (RefusesGoal (naming_of schema.now) (names_of schema.now) text.now) }
    ensures within { IfOk result (IsDepWithin (universe_of schema.now)) }
{
    let start = Cursor::start(1, Mode::goal(schema.naming()), text);
    follow(&Names::Of(schema), Format::Plain, Stage::Start, start)
}

/// The dependency that the tokens of a line from here on state.
pub fn follow(
    names: &Names<'_>,
    format: Format,
    stage: Stage,
    start: Cursor<'_>,
) -> Result<Dep, SchemaRefusal>
    requires within_limit { length (names_in names.now) ≤ MOST_ATTRIBUTES }
    ensures ok { IfOk result (λ dep. follow_rest format (names_in names.now) (reached_of stage)
        (rest_of start.entry) ≡ Ok (dependency_of dep)) }
    ensures err { IfErr result (λ refusal. follow_rest format (names_in names.now) (reached_of stage)
        (rest_of start.entry) ≡ Err refusal) }
{
    let mut stage = stage;
    let mut rest = start;
    'tokens: loop {
        match rest.next() {
            NextToken::End => return end_line(rest, stage),
            NextToken::Refusal(refusal) => return Err(refusal),
            NextToken::Token(token, word, after) => {
                match step(names, format, stage, token.kind, &word) {
                    Err(kind) => return Err(rest.refusal_of(token, kind)),
                    Ok(next) => {
                        stage = next;
                        rest = after;
                    }
                }
            }
        }
    }
}

/// The dependency that is read where the line ends.
fn end_line(rest: Cursor<'_>, stage: Stage) -> Result<Dep, SchemaRefusal>
    ensures ok { IfOk result
        (λ dep. at (rest_of rest.entry).line (rest_of rest.entry).next_column 0
        (expect (finish_dependency (reached_of stage))) ≡ Ok (dependency_of dep)) }
    ensures err { IfErr result
        (λ refusal. at (rest_of rest.entry).line (rest_of rest.entry).next_column 0
        (expect (finish_dependency (reached_of stage))) ≡ Err refusal) }
{
    match finish(stage) {
        Ok(dep) => Ok(dep),
        Err(what) => Err(rest.refusal_of_end(what)),
    }
}

/// One token more.
#[tactic(auto, unfolding(schema_grammar::specs::Reading::step))]
pub fn step(
    names: &Names<'_>,
    format: Format,
    stage: Stage,
    kind: TokenKind,
    word: &Word<'_>,
) -> Result<Stage, SchemaRefusalKind>
    requires { length (names_in names.now) ≤ MOST_ATTRIBUTES }
    ensures ok { IfOk result
        (λ next. step format (names_in names.now) (reached_of stage) kind (bytes_of word.now)
        ≡ Ok (reached_of next)) }
    ensures err { IfErr result
        (λ why. step format (names_in names.now) (reached_of stage) kind (bytes_of word.now) ≡ Err why) }
{
    let symbol = symbol_of(names, format, kind, word)?;
    match advance(stage, symbol) {
        Ok(next) => Ok(next),
        Err(what) => Err(SchemaRefusalKind::Expected(what)),
    }
}

/// What a token of a dependency stands for.
fn symbol_of(
    names: &Names<'_>,
    format: Format,
    kind: TokenKind,
    word: &Word<'_>,
) -> Result<Symbol, SchemaRefusalKind>
    requires { length (names_in names.now) ≤ MOST_ATTRIBUTES }
    ensures exact { result ≡ symbol_of format (names_in names.now) kind (bytes_of word.now) }
    ensures in_range { IfOk result IsInRange }
{
    match kind {
        TokenKind::Identifier | TokenKind::Quoted => {
            Ok(Symbol::Attribute(look_up(names, format, kind, word)?))
        }
        TokenKind::Arrow => Ok(Symbol::Arrow(Sign::Functional)),
        TokenKind::DoubleArrow => Ok(Symbol::Arrow(Sign::Multivalued)),
        TokenKind::Empty => Ok(Symbol::Empty),
        TokenKind::Number(_) | TokenKind::Colon => Ok(Symbol::Other),
    }
}
