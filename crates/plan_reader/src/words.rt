//! The words that begin a line of a plan.

ghost use Rattle.std.specs.Prelude.{◌≡◌, ◌+◌, ◌<◌, ◌^◌, length};
ghost use Rattle.lexer.specs.Tokens.{bytes_of};
ghost use Rattle.plan_grammar.specs.Diagnostics.{opens_line};
ghost use Rattle.plan_grammar.specs.LineTokens.{is_keyword, is_table, line_mode};

use lexer::{Mode, TokenKind, Word};
use schema_model::Naming;
use tokens::{Cursor, NextToken};

// Which tokens a line may have: `:` where its first is the word `table`.
#[tactic(auto, unfolding(plan_grammar::specs::LineTokens::line_mode))]
pub fn line_mode(naming: Naming, text: &[u8]) -> Mode
    requires { 1 + length text.now < 2 ^ 32 }
    ensures exact { result ≡ line_mode naming text.now }
{
    let plain = Mode::plain(naming);
    match Cursor::start(1, plain, text).next() {
        NextToken::End => plain,
        NextToken::Refusal(_) => plain,
        NextToken::Token(token, word, _) => {
            if is_table(token.kind, &word) {
                Mode::labelled(naming)
            } else {
                plain
            }
        }
    }
}

// Whether a token begins a line of a plan.
pub fn opens_line(kind: TokenKind, word: &Word<'_>) -> bool
    ensures exact { result ≡ opens_line kind (bytes_of word.now) }
{
    is_keyword(b"scheme", kind, word) || is_table(kind, word)
}

// Whether a token is the word `table`.
pub fn is_table(kind: TokenKind, word: &Word<'_>) -> bool
    ensures exact { result ≡ is_table kind (bytes_of word.now) }
{
    is_keyword(b"table", kind, word)
}

// Whether a token is a word, in lower case.
#[tactic(auto, unfolding(plan_grammar::specs::LineTokens::is_keyword))]
fn is_keyword(key: &[u8], kind: TokenKind, word: &Word<'_>) -> bool
    ensures exact { result ≡ is_keyword key.now kind (bytes_of word.now) }
{
    match kind {
        TokenKind::Identifier => word.bytes().as_slice() == key,
        _ => false,
    }
}
