//! What follows `import`: of what kind the file is, the file, and for SQL the table.

ghost use Rattle.std.specs.Prelude.{◌≡◌, option_map};
ghost use Rattle.desk_words.specs.Commands.{command_form};
ghost use Rattle.desk_words.specs.Forms as forms;

use crate::command::Command;
use crate::shapes::is_word;
use arguments::Argument;
use sql_lexemes::Dialect;

/// Of what kind the file is, the file, and for SQL the table.
#[tactic(auto, unfolding(crate::specs::Forms::after_import, crate::specs::Forms::word_alone))]
pub fn after_import(words: &[Argument]) -> Option<Command<'_>>
    ensures form { option_map command_form result ≡ forms.after_import words.now }
{
    let [kind, rest @ ..] = words else {
        return None;
    };
    if is_word(kind, b"csv") {
        let [file] = rest else {
            return None;
        };
        return Some(Command::ImportCsv { file });
    }
    let Some(dialect) = dialect_of(kind) else {
        return None;
    };
    file_and_table(dialect, rest)
}

// The engine that a word names.
#[tactic(auto, unfolding(crate::specs::Forms::dialect_of))]
fn dialect_of(word: &Argument) -> Option<Dialect>
    ensures dialect { result ≡ forms.dialect_of word.now }
{
    if is_word(word, b"sqlite") {
        return Some(Dialect::Sqlite);
    }
    if is_word(word, b"postgres") {
        return Some(Dialect::Postgres);
    }
    None
}

// A file and a table.
#[tactic(auto, unfolding(crate::specs::Forms::file_and_table))]
fn file_and_table(dialect: Dialect, words: &[Argument]) -> Option<Command<'_>>
    ensures form { option_map command_form result ≡ forms.file_and_table dialect words.now }
{
    match words {
        [file, table] => Some(Command::ImportSql {
            dialect,
            file,
            table,
        }),
        _ => None,
    }
}
