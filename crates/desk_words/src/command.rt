ghost use Rattle.std.specs.Prelude.{◌≡◌, option_map};
ghost use Rattle.desk_words.specs.Commands.{command_form};
ghost use Rattle.desk_words.specs.Forms as forms;

use crate::check::after_check;
use crate::covers::after_cover;
use crate::explain::after_explain;
use crate::imports::after_import;
use crate::pages::after_report;
use crate::persons::count_of;
use crate::questions::{RulesQuestion, SchemaQuestion, Task};
use crate::rows::over_rows;
use crate::rules::after_discover;
use crate::sets::{after_basis, after_closure, after_implies, after_project};
use crate::shapes::{is_word, no_more_arguments, schema_alone};
use crate::tables::{
    after_ddl, after_draw, after_form, after_keys, after_split, after_sql, after_synthesize,
};
use arguments::Argument;
use sample_rows::Persons;
use sql_lexemes::Dialect;

/// The most files of a command.
pub const MOST_FILES: usize = 64;

/// A command.
#[derive(Clone, Copy, Debug)]
pub enum Command<'a> {
    /// What is asked of the schema of a file.
    OverSchema {
        schema: &'a Argument,
        task: Task<'a>,
    },
    /// The rules that the rows of a file obey.
    Discover {
        question: RulesQuestion,
        file: &'a Argument,
    },
    /// All dependencies that the rows of a file obey.
    DiscoverAll {
        file: &'a Argument,
    },
    /// Which columns of files reference which, over the rows of all of them.
    DiscoverReferences {
        files: &'a [Argument],
    },
    /// Whether each row of a file, by columns of these names, has its match in another file, by columns of
    /// others.
    CheckReferences {
        file: &'a Argument,
        names: &'a Argument,
        other: &'a Argument,
        other_names: &'a Argument,
    },
    /// A schema of the columns of a file of rows.
    ImportCsv {
        file: &'a Argument,
    },
    /// A schema of a table that the SQL of a file defines.
    ImportSql {
        dialect: Dialect,
        file: &'a Argument,
        table: &'a Argument,
    },
    /// So many invented persons, as tables in fourth normal form.
    Sample {
        persons: Persons,
    },
    /// The commands, in a few lines.
    Help,
    /// The number of the release.
    Version,
}

/// The command that the words form, if they form one.
#[tactic(auto, unfolding(crate::specs::Forms::form_of))]
pub fn parse(words: &[Argument]) -> Option<Command<'_>>
    ensures form { option_map command_form result ≡ forms.form_of words.now }
{
    let [verb, rest @ ..] = words else {
        return None;
    };
    if is_word(verb, b"discover") {
        return after_discover(rest);
    }
    if is_word(verb, b"import") {
        return after_import(rest);
    }
    if is_word(verb, b"sample") {
        return after_sample(rest);
    }
    if is_word(verb, b"help") || is_word(verb, b"--help") || is_word(verb, b"-h") {
        return no_more_arguments(Command::Help, rest);
    }
    if is_word(verb, b"--version") {
        return no_more_arguments(Command::Version, rest);
    }
    over_schema(verb, rest)
}

// How many persons, and no word more.
#[tactic(auto, unfolding(crate::specs::Forms::persons_alone))]
fn after_sample(words: &[Argument]) -> Option<Command<'_>>
    ensures form { option_map command_form result ≡ forms.persons_alone words.now }
{
    match words {
        [word] => match count_of(word.bytes()) {
            Some(persons) => Some(Command::Sample { persons }),
            None => None,
        },
        _ => None,
    }
}

// What is asked of a schema.
#[tactic(auto, unfolding(crate::specs::Forms::form_over_schema))]
fn over_schema<'a>(verb: &Argument, rest: &'a [Argument]) -> Option<Command<'a>>
    ensures form { option_map command_form result ≡ forms.form_over_schema verb.now rest.now }
{
    if is_word(verb, b"implies") {
        return after_implies(rest);
    }
    if is_word(verb, b"check") {
        return after_check(rest);
    }
    if is_word(verb, b"cover") {
        return after_cover(rest);
    }
    if is_word(verb, b"basis") {
        return after_basis(rest);
    }
    if is_word(verb, b"closure") {
        return after_closure(rest);
    }
    if is_word(verb, b"project") {
        return after_project(rest);
    }
    if is_word(verb, b"keys") {
        return after_keys(rest);
    }
    if is_word(verb, b"form") {
        return after_form(rest);
    }
    if is_word(verb, b"synthesize") {
        return after_synthesize(rest);
    }
    if is_word(verb, b"split") {
        return after_split(rest);
    }
    if is_word(verb, b"exhibit") {
        return schema_alone(SchemaQuestion::Exhibit, rest);
    }
    if is_word(verb, b"explain") {
        return after_explain(rest);
    }
    if is_word(verb, b"ddl") {
        return after_ddl(rest);
    }
    if is_word(verb, b"sql") {
        return after_sql(rest);
    }
    if is_word(verb, b"draw") {
        return after_draw(rest);
    }
    if is_word(verb, b"report") {
        return after_report(rest);
    }
    over_rows(verb, rest)
}
