ghost use Rattle.std.specs.Prelude.{◌≡◌, ◌+◌, ◌<◌, ◌≤◌, ◌^◌, length, IsTrue, OnOk, IfOk, IfErr, Ok, Err, Some, None};
ghost use Rattle.attr_sets.specs.Attributes.{below, IsSubset};
ghost use Rattle.attr_sets.specs.Sets.{attributes};
ghost use Rattle.schema_model.specs.Names.{IsName, is_bare_name};
ghost use Rattle.lexer.specs.Tokens.{lex, bytes_of};
ghost use Rattle.schema_grammar.specs.Declarations.{mark_of};
ghost use Rattle.schema_grammar.specs.Refusals.{refusal};
ghost use Rattle.schema_grammar.specs.Rests.{rest_from};

use crate::names::{Names, attribute_of_word};
use crate::tokens::{arrow_in, is_word, number_in};
use attr_sets::{AttrSet, MOST_ATTRIBUTES};
use lexer::{Mode, Next, Token, TokenKind, Word, next_token};
use schema_grammar::{SchemaRefusal, SchemaRefusalKind, Sign, What};

/// What is left of a line, from a column on.
#[derive(Clone, Copy)]
pub struct Cursor<'a> {
    line: u32,
    mode: Mode,
    column: u32,
    text: &'a [u8],
    pub ghost room: { column + length text.now < 2 ^ 32 },
}

/// What comes next on a line.
#[derive(Clone, Copy)]
pub enum NextToken<'a> {
    /// No token: the line ends, but for blanks and a comment.
    End,
    /// A token, the bytes that it stands for, and what is left after it.
    Token(Token, Word<'a>, Cursor<'a>),
    /// Bytes that are no token.
    Refusal(SchemaRefusal),
}

impl<'a> Cursor<'a> {
    ghost use Rattle.tokens.specs.Views.{names_in, rest_of, ComesNext, bytes_left};
    ghost use Rattle.schema_grammar.specs.Rests.{take, refusal_of_token, number, arrow, refusal_at_end, side, words};

    /// A whole line, which has this number.
    #[tactic(auto, unfolding(crate::specs::Views::rest_of))]
    pub fn start(line: u32, mode: Mode, text: &'a [u8]) -> Cursor<'a>
        requires { 1 + length text.now < 2 ^ 32 }
        ensures whole { rest_of result ≡ rest_from line 1 (lex mode text.now) }
    {
        Cursor {
            line,
            mode,
            column: 1,
            text,
        }
    }

    /// The number of the line.
    #[tactic(auto, unfolding(crate::specs::Views::rest_of))]
    pub fn line(self) -> u32
        ensures line { result ≡ (rest_of self.entry).line }
    {
        self.line
    }

    /// What comes next.
    #[tactic(auto, unfolding(crate::specs::Views::rest_of))]
    #[inline(always)]
    pub fn next(self) -> NextToken<'a>
        ensures exact { ComesNext self.entry result }
    {
        match next_token(self.mode, self.column, self.text) {
            Next::End => NextToken::End,
            Next::Error(stop) => NextToken::Refusal(SchemaRefusal::by(self.line, stop)),
            Next::Token(token, word, text) => {
                let after = Cursor {
                    line: self.line,
                    mode: self.mode,
                    column: token.column + token.length,
                    text,
                };
                NextToken::Token(token, word, after)
            }
        }
    }

    /// The next token, its word, and what stands after it; `want` is what the line wants there.
    pub fn take(self, want: What) -> Result<(Token, Word<'a>, Cursor<'a>), SchemaRefusal>
        ensures ok { IfOk result (λ x.
            take want (rest_of self.entry) ≡ Ok (mark_of x.0 (bytes_of x.1), rest_of x.2)) }
        ensures word { IfOk result (λ x. x.0.kind ≡ TokenKind.Identifier → IsTrue (is_bare_name (bytes_of x.1))) }
        ensures name { IfOk result (λ x. x.0.kind ≡ TokenKind.Quoted → IsName (bytes_of x.1)) }
        ensures err { IfErr result (λ e. take want (rest_of self.entry) ≡ Err e) }
    {
        match self.next() {
            NextToken::End => Err(self.refusal_of_end(want)),
            NextToken::Refusal(refusal) => Err(refusal),
            NextToken::Token(token, word, rest) => Ok((token, word, rest)),
        }
    }

    /// The refusal of the line's end, where the line wants something else.
    #[tactic(auto, unfolding(crate::specs::Views::rest_of))]
    pub fn refusal_of_end(self, want: What) -> SchemaRefusal
        ensures refusal { result ≡ refusal (rest_of self.entry).line (rest_of self.entry).next_column 0
            (SchemaRefusalKind.Expected want) }
    {
        let kind = SchemaRefusalKind::Expected(want);
        SchemaRefusal::at(self.line, self.column, 0, kind)
    }

    /// The refusal of a token of this line.
    pub fn refusal_of(self, token: Token, kind: SchemaRefusalKind) -> SchemaRefusal
        ensures refusal { result
            ≡ refusal (rest_of self.entry).line token.column token.length kind }
    {
        SchemaRefusal::at(self.line(), token.column, token.length, kind)
    }

    /// The refusal of a token of this line in place of which the line wants something else.
    pub fn refusal_of_token(self, token: Token, want: What) -> SchemaRefusal
        ensures refusal { result
            ≡ refusal (rest_of self.entry).line token.column token.length (SchemaRefusalKind.Expected want) }
    {
        self.refusal_of(token, SchemaRefusalKind::Expected(want))
    }

    /// A number.
    #[tactic(auto, unfolding(schema_grammar::specs::Rests::number))]
    pub fn number(self) -> Result<(u32, Cursor<'a>), SchemaRefusal>
        ensures ok { IfOk result (λ x. number (rest_of self.entry) ≡ Ok (x.0, rest_of x.1)) }
        ensures err { IfErr result (λ e. number (rest_of self.entry) ≡ Err e) }
    {
        match self.take(What::Number) {
            Err(refusal) => Err(refusal),
            Ok((token, _, rest)) => match number_in(token.kind) {
                Some(number) => Ok((number, rest)),
                None => Err(rest.refusal_of_token(token, What::Number)),
            },
        }
    }

    /// `->` or `->>`
    #[tactic(auto, unfolding(schema_grammar::specs::Rests::arrow))]
    pub fn arrow(self) -> Result<(Sign, Cursor<'a>), SchemaRefusal>
        ensures ok { IfOk result (λ x. arrow (rest_of self.entry) ≡ Ok (x.0, rest_of x.1)) }
        ensures err { IfErr result (λ e. arrow (rest_of self.entry) ≡ Err e) }
    {
        match self.take(What::Arrow) {
            Err(refusal) => Err(refusal),
            Ok((token, _, rest)) => match arrow_in(token.kind) {
                Some(arrow) => Ok((arrow, rest)),
                None => Err(rest.refusal_of_token(token, What::Arrow)),
            },
        }
    }

    /// The line's end.
    pub fn end(self) -> Result<(), SchemaRefusal>
        ensures ok { OnOk result (refusal_at_end (rest_of self.entry) ≡ None) }
        ensures err { IfErr result (λ e. refusal_at_end (rest_of self.entry) ≡ Some e) }
    {
        match self.next() {
            NextToken::End => Ok(()),
            NextToken::Refusal(stop) => Err(stop),
            NextToken::Token(token, _, _) => Err(self.refusal_of_token(token, What::LineEnd)),
        }
    }

    /// A side: words and quoted names, or `()`. What stands after it is the reader's next question.
    #[tactic(auto, unfolding(schema_grammar::specs::Rests::side))]
    pub fn side(self, names: &Names<'_>) -> Result<(AttrSet, Cursor<'a>), SchemaRefusal>
        requires within_limit { length (names_in names.now) ≤ MOST_ATTRIBUTES }
        ensures ok { IfOk result
            (λ x. side (names_in names.now) (rest_of self.entry) ≡ Ok (attributes x.0, rest_of x.1)) }
        ensures within { IfOk result (λ x. IsSubset (attributes x.0) (below (length
            (names_in names.now)))) }
        ensures err { IfErr result (λ e. side (names_in names.now) (rest_of self.entry) ≡ Err e) }
    {
        match self.take(What::Side) {
            Err(refusal) => Err(refusal),
            Ok((token, word, rest)) => match token.kind {
                TokenKind::Identifier | TokenKind::Quoted => {
                    let first = attribute_of_word(names, rest.line(), token, &word)?;
                    rest.words(names, AttrSet::single(first))
                }
                TokenKind::Empty => Ok((AttrSet::empty(), rest)),
                _ => Err(rest.refusal_of_token(token, What::Side)),
            },
        }
    }

    /// The words that stand here, added to a set.
    fn words(self, names: &Names<'_>, set: AttrSet) -> Result<(AttrSet, Cursor<'a>), SchemaRefusal>
        requires within_limit { length (names_in names.now) ≤ MOST_ATTRIBUTES }
        requires within { IsSubset (attributes set) (below (length (names_in names.now))) }
        ensures ok { IfOk result
            (λ x. words (names_in names.now) (attributes set) (rest_of self.entry)
            ≡ Ok (attributes x.0, rest_of x.1)) }
        ensures within { IfOk result (λ x. IsSubset (attributes x.0) (below (length
            (names_in names.now)))) }
        ensures err { IfErr result (λ e.
            words (names_in names.now) (attributes set) (rest_of self.entry) ≡ Err e) }
    {
        let mut set = set;
        let mut rest = self;
        'words: loop {
            match rest.next() {
                NextToken::End => return Ok((set, rest)),
                NextToken::Refusal(_) => return Ok((set, rest)),
                NextToken::Token(token, word, after) => {
                    if !is_word(token.kind) {
                        return Ok((set, rest));
                    }
                    match attribute_of_word(names, rest.line(), token, &word) {
                        Err(refusal) => return Err(refusal),
                        Ok(attribute) => {
                            set = set.with(attribute);
                            rest = after;
                        }
                    }
                }
            }
        }
    }
}
