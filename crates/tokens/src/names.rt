ghost use Rattle.std.specs.Prelude.{◌≡◌, ◌<◌, ◌≤◌, ◌↔◌, length, IsTrue, IfOk, IfErr, Ok, Err};
ghost use Rattle.std.specs.Str.{str_to_ascii_lowercase};
ghost use Rattle.schema_model.specs.Schemas.{names_of, attribute_named};
ghost use Rattle.schema_grammar.specs.Declarations.{mark_of};
ghost use Rattle.schema_grammar.specs.Rests.{attribute_of_word};
ghost use Rattle.schema_grammar.specs.Words.{is_reserved, is_reserved_token, look_up};
ghost use Rattle.lexer.specs.Tokens.{bytes_of};
ghost use Rattle.lexer.specs.declared.word.Word.TheVariants as word;
ghost use Rattle.tokens.specs.Views.{names_in};

use crate::guide::Guide;
use attr_sets::MOST_ATTRIBUTES;
use lexer::{QuotedName, Token, TokenKind, Word};
use schema_grammar::{Format, SchemaRefusal, SchemaRefusalKind};
use schema_model::{Name, Schema};
use schema_printer::is_schema_word;

/// The names among which a word is looked up.
#[derive(Clone, Copy)]
pub enum Names<'a> {
    Listed(&'a [Name]),
    Of(&'a Schema),
    /// Those of a schema, with a guide to them.
    Guided(&'a Schema, &'a Guide),
}

// The fewest bytes of a reserved word.
const FEWEST_RESERVED: usize = 4;

/// The attribute that a word of a side, or a quoted name, stands for.
#[inline(always)]
pub fn look_up(
    names: &Names<'_>,
    format: Format,
    kind: TokenKind,
    word: &Word<'_>,
) -> Result<u8, SchemaRefusalKind>
    requires { length (names_in names.now) ≤ MOST_ATTRIBUTES }
    ensures exact { result ≡ look_up format (names_in names.now) kind (bytes_of word.now) }
    ensures declared { IfOk result (λ attribute. attribute < length (names_in names.now)) }
{
    match word {
        Word::Bare(text) => look_up_bytes(names, format, kind, text),
        Word::Quoted(quoted) => look_up_quoted(names, format, kind, quoted),
    }
}

/// The same of a quoted name. Few names are quoted, and this one takes room, so it stands apart.
#[inline(never)]
fn look_up_quoted(
    names: &Names<'_>,
    format: Format,
    kind: TokenKind,
    quoted: &QuotedName<'_>,
) -> Result<u8, SchemaRefusalKind>
    requires { length (names_in names.now) ≤ MOST_ATTRIBUTES }
    ensures exact { result
        ≡ look_up format (names_in names.now) kind (bytes_of (word.Quoted quoted.now)) }
    ensures declared { IfOk result (λ attribute. attribute < length (names_in names.now)) }
{
    look_up_bytes(names, format, kind, quoted.name().bytes())
}

/// The same of the bytes that a token stands for.
#[tactic(auto, unfolding(schema_grammar::specs::Words::look_up))]
#[inline(always)]
fn look_up_bytes(
    names: &Names<'_>,
    format: Format,
    kind: TokenKind,
    bytes: &[u8],
) -> Result<u8, SchemaRefusalKind>
    requires { length (names_in names.now) ≤ MOST_ATTRIBUTES }
    ensures exact { result ≡ look_up format (names_in names.now) kind bytes.now }
    ensures declared { IfOk result (λ attribute. attribute < length (names_in names.now)) }
{
    if is_reserved_token(format, kind, bytes) {
        return Err(SchemaRefusalKind::ReservedName);
    }
    match attribute_named(names, bytes) {
        Some(attribute) => Ok(attribute),
        None => Err(SchemaRefusalKind::UnknownName),
    }
}

/// Whether a token is a reserved word, which no quoted name is.
#[tactic(auto, using(crate::proofs::NameLemmas::short_not_reserved))]
pub fn is_reserved_token(format: Format, kind: TokenKind, word: &[u8]) -> bool
    ensures reserved { result ≡ is_reserved_token format kind word.now }
{
    match kind {
        TokenKind::Identifier => {
            if word.len() < FEWEST_RESERVED {
                return false;
            }
            is_reserved(format, word)
        }
        _ => false,
    }
}

/// The attribute that a word, or a quoted name, in a side of a line stands for.
#[inline(always)]
pub fn attribute_of_word(
    names: &Names<'_>,
    line: u32,
    token: Token,
    word: &Word<'_>,
) -> Result<u8, SchemaRefusal>
    requires within_limit { length (names_in names.now) ≤ MOST_ATTRIBUTES }
    ensures ok { IfOk result (λ x. attribute_of_word (names_in names.now) line
        (mark_of token (bytes_of word.now)) ≡ Ok x) }
    ensures inside { IfOk result (λ x. x < length (names_in names.now)) }
    ensures err { IfErr result (λ e. attribute_of_word (names_in names.now) line
        (mark_of token (bytes_of word.now)) ≡ Err e) }
{
    match look_up(names, Format::Plain, token.kind, word) {
        Ok(attribute) => Ok(attribute),
        Err(kind) => Err(SchemaRefusal::at(line, token.column, token.length, kind)),
    }
}

/// The attribute whose name a word is, ASCII case aside.
fn attribute_named(names: &Names<'_>, word: &[u8]) -> Option<u8>
    requires { length (names_in names.now) ≤ MOST_ATTRIBUTES }
    ensures attribute { result ≡ attribute_named (names_in names.now) word.now }
{
    match names {
        Names::Listed(names) => {
            match position_among(names, word) {
                Some(position) => Some(position as u8),
                None => None,
            }
        }
        Names::Of(schema) => schema.attribute_named(word),
        Names::Guided(schema, guide) => attribute_by_guess(schema, word, guide.guess(word)),
    }
}

/// The attribute of this name; the attribute `guess` is tried first.
fn attribute_by_guess(schema: &Schema, word: &[u8], guess: u8) -> Option<u8>
    ensures attribute { result ≡ attribute_named (names_of schema.now) word.now }
{
    if guess < schema.width() && is_spelled(schema.name(guess).bytes(), word) {
        return Some(guess);
    }
    schema.attribute_named(word)
}

/// Whether a name is the word, ASCII case aside. Most words are spelled as their names were declared.
fn is_spelled(name: &[u8], word: &[u8]) -> bool
    ensures same { IsTrue result
        ↔ (str_to_ascii_lowercase name.now ≡ str_to_ascii_lowercase word.now) }
{
    name == word || name.eq_ignore_ascii_case(word)
}

/// The position of the first name that a word is.
pub fn position_among(names: &[Name], word: &[u8]) -> Option<usize>
    ensures position { result ≡ attribute_named names.now word.now }
{
    names
        .iter()
        .position(|name| name.bytes().eq_ignore_ascii_case(word))
}

/// Whether a word is reserved, ASCII case aside.
#[tactic(auto, unfolding(schema_grammar::specs::Words::is_reserved))]
pub fn is_reserved(format: Format, word: &[u8]) -> bool
    ensures reserved { result ≡ is_reserved format word.now }
{
    let is_common = word.eq_ignore_ascii_case(b"attributes")
        || word.eq_ignore_ascii_case(b"scheme")
        || word.eq_ignore_ascii_case(b"version");
    match format {
        Format::Plain => is_common,
        Format::Typed => {
            is_common || word.eq_ignore_ascii_case(b"integer") || word.eq_ignore_ascii_case(b"text")
        }
        Format::Full => is_schema_word(word),
    }
}
