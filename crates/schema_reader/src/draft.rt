ghost use Rattle.std.specs.Prelude.{◌≡◌, ◌+◌, ◌<◌, ◌≤◌, ◌^◌, true, false, length, OnOk, IfOk, IfErr};
ghost use Rattle.dep_model.specs.Deps.{dependency_of};
ghost use Rattle.schema_model.specs.Names.{IsName, is_bare_name};
ghost use Rattle.schema_reader.specs.Views.{reached_of};
ghost use Rattle.lexer.specs.Tokens.{bytes_of};
ghost use Rattle.schema_grammar.specs.Refusals.{Refuses};

use crate::column::{type_after, wanted_after};
use crate::goal::{follow, step};
use crate::stage::Stage;
use crate::words::{line_kind, line_mode};
use attr_sets::{AttrSet, MOST_ATTRIBUTES};
use dep_model::{Dep, Failure, OutOfMemory};
use lexer::{Token, TokenKind, Word};
use schema_grammar::{
    Format, LineKind, MOST_DEPENDENCY_LINES, Purpose, SchemaRefusal, SchemaRefusalKind, What,
};
use schema_model::{ColumnType, Name, Naming};
use std::alloc::Global;
use tokens::{Cursor, Names, NextToken, is_reserved_token, look_up, position_among};

/// What a schema text declares, as far as it is read.
#[derive(Drop)]
pub struct Draft {
    pub naming: Naming,
    pub names: Vec<Name>,
    pub columns: Vec<ColumnType>,
    pub nullable: AttrSet,
    pub deps: Vec<Dep>,
    pub lines: Vec<u32>,
}

impl Draft {
    ghost use Rattle.schema_grammar.specs.Declarations.{no_declaration, declare, allow, take_name, name_step, list_names_rest, list_columns_rest, add_name, add_dependency, begin, dependency_rest, mark_of, read_line};
    ghost use Rattle.schema_reader.specs.Views.{declarations_of_draft};
    ghost use Rattle.tokens.specs.Views.{rest_of};

    pub fn new(alloc: Global, naming: Naming) -> Draft
        ensures empty { declarations_of_draft result ≡ no_declaration naming }
    {
        Draft {
            naming,
            names: Vec::new(alloc),
            columns: Vec::new(alloc),
            nullable: AttrSet::empty(),
            deps: Vec::new(alloc),
            lines: Vec::new(alloc),
        }
    }

    /// Reads one line more.
    pub fn read_line(
        &mut self,
        format: Format,
        line: u32,
        text: &[u8],
    ) -> Result<(), Failure<SchemaRefusal>>
        requires within_limit { length (declarations_of_draft self.old).names ≤ MOST_ATTRIBUTES }
        requires fits_u32 { 1 + length text.now < 2 ^ 32 }
        ensures ok { OnOk result (read_line format line (declarations_of_draft self.old) text.now
            ≡ Ok (declarations_of_draft self.new)) }
        ensures err { IfErr result
            (λ failure. Refuses failure (read_line format line
            (declarations_of_draft self.old) text.now)) }
    {
        let start = Cursor::start(line, line_mode(format, text), text);
        match start.next() {
            NextToken::End => Ok(()),
            NextToken::Refusal(refusal) => Err(Failure::Refused(refusal)),
            NextToken::Token(token, word, rest) => {
                match line_kind(format, token.kind, &word) {
                    LineKind::Names(purpose) => self.list_names(format, &purpose, rest),
                    LineKind::Decimal => self.list_columns(format, LineKind::Decimal, rest),
                    LineKind::Other => self.list_columns(format, LineKind::Other, rest),
                    LineKind::Dependency => self.read_dependency(format, token, &word, rest),
                }
            }
        }
    }

    /// Reads a line of columns from after its first token: the scale or the type that they have, and their
    /// names.
    fn list_columns(
        &mut self,
        format: Format,
        kind: LineKind,
        start: Cursor<'_>,
    ) -> Result<(), Failure<SchemaRefusal>>
        requires within_limit { length (declarations_of_draft self.old).names ≤ MOST_ATTRIBUTES }
        ensures ok { OnOk result (list_columns_rest format kind (declarations_of_draft self.old)
            (rest_of start.entry) ≡ Ok (declarations_of_draft self.new)) }
        ensures err { IfErr result (λ failure. Refuses failure
            (list_columns_rest format kind (declarations_of_draft self.old) (rest_of start.entry))) }
    {
        match start.next() {
            NextToken::End => Err(Failure::Refused(start.refusal_of_end(wanted_after(kind)))),
            NextToken::Refusal(refusal) => Err(Failure::Refused(refusal)),
            NextToken::Token(token, word, rest) => match type_after(kind, token, &word) {
                Err(why) => Err(Failure::Refused(start.refusal_of(token, why))),
                Ok(column) => self.list_names(format, &Purpose::Columns(column), rest),
            },
        }
    }

    /// Reads the names of a line.
    fn list_names(
        &mut self,
        format: Format,
        purpose: &Purpose,
        start: Cursor<'_>,
    ) -> Result<(), Failure<SchemaRefusal>>
        requires within_limit { length (declarations_of_draft self.old).names ≤ MOST_ATTRIBUTES }
        ensures ok { OnOk result (list_names_rest format purpose.now (declarations_of_draft self.old) false
            (rest_of start.entry) ≡ Ok (declarations_of_draft self.new)) }
        ensures err { IfErr result (λ failure. Refuses failure
            (list_names_rest format purpose.now (declarations_of_draft self.old) false
            (rest_of start.entry))) }
    {
        let mut any_name = false;
        let mut rest = start;
        'names: loop {
            match rest.next() {
                NextToken::End => {
                    return if any_name {
                        Ok(())
                    } else {
                        Err(Failure::Refused(rest.refusal_of_end(What::Name)))
                    };
                }
                NextToken::Refusal(refusal) => return Err(Failure::Refused(refusal)),
                NextToken::Token(token, word, after) => {
                    match self.name_step(format, purpose, any_name, token.kind, &word) {
                        Err(Failure::Refused(kind)) => {
                            return Err(Failure::Refused(rest.refusal_of(token, kind)));
                        }
                        Err(Failure::OutOfMemory) => return Err(Failure::OutOfMemory),
                        Ok(()) => {
                            any_name = true;
                            rest = after;
                        }
                    }
                }
            }
        }
    }

    /// Takes one token of a line of names; `any_name` is whether a name stood before.
    #[tactic(auto, using(schema_model::proofs::NameLemmas::bare_name_is_name))]
    fn name_step(
        &mut self,
        format: Format,
        purpose: &Purpose,
        any_name: bool,
        kind: TokenKind,
        word: &Word<'_>,
    ) -> Result<(), Failure<SchemaRefusalKind>>
        requires within_limit { length (declarations_of_draft self.old).names ≤ MOST_ATTRIBUTES }
        requires bare { kind ≡ TokenKind.Identifier → is_bare_name (bytes_of word.now) ≡ true }
        requires name { kind ≡ TokenKind.Quoted → IsName (bytes_of word.now) }
        ensures ok { OnOk result (name_step format purpose.now
            (declarations_of_draft self.old) any_name kind (bytes_of word.now)
            ≡ Ok (declarations_of_draft self.new)) }
        ensures within_limit { OnOk result (length (declarations_of_draft self.new).names ≤ MOST_ATTRIBUTES) }
        ensures err { IfErr result
            (λ failure. Refuses failure (name_step format purpose.now
            (declarations_of_draft self.old) any_name kind (bytes_of word.now))) }
    {
        match kind {
            TokenKind::Identifier | TokenKind::Quoted => {
                self.take_name(format, purpose, kind, word)
            }
            _ => {
                let want = if any_name { What::LineEnd } else { What::Name };
                Err(Failure::Refused(SchemaRefusalKind::Expected(want)))
            }
        }
    }

    /// Takes a word or a quoted name, by what it is for.
    fn take_name(
        &mut self,
        format: Format,
        purpose: &Purpose,
        kind: TokenKind,
        word: &Word<'_>,
    ) -> Result<(), Failure<SchemaRefusalKind>>
        requires within_limit { length (declarations_of_draft self.old).names ≤ MOST_ATTRIBUTES }
        requires name { IsName (bytes_of word.now) }
        ensures ok { OnOk result (take_name format purpose.now (declarations_of_draft self.old) kind
            (bytes_of word.now) ≡ Ok (declarations_of_draft self.new)) }
        ensures within_limit { OnOk result (length (declarations_of_draft self.new).names ≤ MOST_ATTRIBUTES) }
        ensures err { IfErr result (λ failure. Refuses failure
            (take_name format purpose.now (declarations_of_draft self.old) kind (bytes_of word.now))) }
    {
        match purpose {
            Purpose::Columns(column) => {
                self.declare(format, column, kind, word.bytes().as_slice())
            }
            Purpose::Nullable => self.allow(format, kind, word),
        }
    }

    /// A value may be missing of the attribute that a word or a quoted name names.
    #[tactic(auto, unfolding(schema_grammar::specs::Declarations::allow))]
    fn allow(
        &mut self,
        format: Format,
        kind: TokenKind,
        word: &Word<'_>,
    ) -> Result<(), Failure<SchemaRefusalKind>>
        requires { length (declarations_of_draft self.old).names ≤ MOST_ATTRIBUTES }
        ensures ok { OnOk result (allow format (declarations_of_draft self.old) kind (bytes_of word.now)
            ≡ Ok (declarations_of_draft self.new)) }
        ensures within_limit { OnOk result (length (declarations_of_draft self.new).names ≤ MOST_ATTRIBUTES) }
        ensures err { IfErr result (λ failure. Refuses failure
            (allow format (declarations_of_draft self.old) kind (bytes_of word.now))) }
    {
        match look_up(&Names::Listed(&self.names), format, kind, word) {
            Err(why) => Err(Failure::Refused(why)),
            Ok(attribute) => {
                self.nullable = self.nullable.with(attribute);
                Ok(())
            }
        }
    }

    /// Declares the name that a word or a quoted name is.
    #[tactic(auto, unfolding(schema_grammar::specs::Declarations::declare))]
    fn declare(
        &mut self,
        format: Format,
        column: &ColumnType,
        kind: TokenKind,
        word: &[u8],
    ) -> Result<(), Failure<SchemaRefusalKind>>
        requires { IsName word.now }
        ensures ok { OnOk result (declare format column.now (declarations_of_draft self.old) kind word.now
            ≡ Ok (declarations_of_draft self.new)) }
        ensures within_limit { OnOk result (length (declarations_of_draft self.new).names ≤ MOST_ATTRIBUTES) }
        ensures err { IfErr result
            (λ failure. Refuses failure (declare format column.now
            (declarations_of_draft self.old) kind word.now)) }
    {
        if is_reserved_token(format, kind, word) {
            return Err(Failure::Refused(SchemaRefusalKind::ReservedName));
        }
        if position_among(&self.names, word).is_some() {
            return Err(Failure::Refused(SchemaRefusalKind::DoubleName));
        }
        if self.names.len() >= MOST_ATTRIBUTES as usize {
            return Err(Failure::Refused(SchemaRefusalKind::TooManyAttributes));
        }
        self.add_name(name_of_word(word), column)?;
        Ok(())
    }

    fn add_name(&mut self, name: Name, column: &ColumnType) -> Result<(), OutOfMemory>
        ensures ok { OnOk result (declarations_of_draft self.new
            ≡ add_name (declarations_of_draft self.old) name column.now) }
    {
        self.names.push(name)?;
        self.columns.push(*column)?;
        Ok(())
    }

    /// Reads a dependency line of which the first token is taken.
    fn read_dependency(
        &mut self,
        format: Format,
        token: Token,
        word: &Word<'_>,
        rest: Cursor<'_>,
    ) -> Result<(), Failure<SchemaRefusal>>
        requires within_limit { length (declarations_of_draft self.old).names ≤ MOST_ATTRIBUTES }
        requires follows { (rest_of rest).next_column ≡ token.column + token.length }
        ensures ok { OnOk result
            (dependency_rest format (declarations_of_draft self.old) (mark_of token (bytes_of word.now))
            (rest_of rest.entry) ≡ Ok (declarations_of_draft self.new)) }
        ensures err { IfErr result (λ failure. Refuses failure
            (dependency_rest format (declarations_of_draft self.old) (mark_of token (bytes_of word.now))
            (rest_of rest.entry))) }
    {
        let stage = match self.begin(format, token.kind, word) {
            Ok(stage) => stage,
            Err(kind) => return Err(Failure::Refused(rest.refusal_of(token, kind))),
        };
        let names = Names::Listed(&self.names);
        let dep = match follow(&names, format, stage, rest) {
            Ok(dep) => dep,
            Err(refusal) => return Err(Failure::Refused(refusal)),
        };
        self.add_dependency(dep, rest.line())?;
        Ok(())
    }

    /// Where the first token of a dependency line leads. A token that the line can't begin with is
    /// refused before one dependency too many.
    #[tactic(auto, unfolding(schema_grammar::specs::Declarations::begin))]
    fn begin(
        &self,
        format: Format,
        kind: TokenKind,
        word: &Word<'_>,
    ) -> Result<Stage, SchemaRefusalKind>
        requires { length (declarations_of_draft self.now).names ≤ MOST_ATTRIBUTES }
        ensures ok { IfOk result
            (λ stage. begin format (declarations_of_draft self.now) kind (bytes_of word.now)
            ≡ Ok (reached_of stage)) }
        ensures err { IfErr result (λ why. begin format (declarations_of_draft self.now) kind (bytes_of word.now)
            ≡ Err why) }
    {
        let stage = step(
            &Names::Listed(&self.names),
            format,
            Stage::Start,
            kind,
            word,
        )?;
        if self.deps.len() >= MOST_DEPENDENCY_LINES {
            return Err(SchemaRefusalKind::TooManyDependencies);
        }
        Ok(stage)
    }

    fn add_dependency(&mut self, dep: Dep, line: u32) -> Result<(), OutOfMemory>
        ensures ok { OnOk result (declarations_of_draft self.new
            ≡ add_dependency (declarations_of_draft self.old) (dependency_of dep) line) }
    {
        self.deps.push(dep)?;
        self.lines.push(line)?;
        Ok(())
    }
}

/// The name that the bytes are.
fn name_of_word(word: &[u8]) -> Name
    requires { IsName word.now }
    ensures name { result ≡ word.now }
{
    Name::new(word).unwrap()
}
