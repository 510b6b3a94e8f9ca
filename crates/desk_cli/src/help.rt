ghost use Rattle.std.specs.Prelude.{◌≡◌, IfOk};
ghost use Rattle.nearest_lines.specs.Nearest.{nearest};
ghost use Rattle.desk_responses.specs.ResponseValues.{Says};
ghost use Rattle.desk_cli.specs.Help.{help_text, version_text};
ghost use Rattle.desk_responses.specs.Responses.{RespondsAs};

use arguments::Argument;
use dep_model::OutOfMemory;
use desk_responses::{EarlyExit, Response, Status};
use nearest_lines::nearest;
use std::alloc::Global;

/// What `help` prints. Nothing else says these lines: the definitions cite them.
pub const HELP: &[u8] =
    b"desk implies SCHEMA GOAL              whether the schema implies the goal, with a proof or two rows against it
desk explain implies SCHEMA GOAL      the same with a derivation as one writes it by hand, in few lines
desk check proof SCHEMA FILE GOAL     whether the certificate in FILE proves the goal
desk check derivation SCHEMA FILE GOAL  whether the derivation in FILE, by more rules, proves the goal, and which lines are wrong
desk check rows SCHEMA CSV            whether the rows in CSV are legal, and which break what
desk check references CSV NAMES OTHER NAMES2  whether each row of CSV has its match in OTHER, and which have none
desk check key SCHEMA SET             whether the set of attributes is a key, and why
desk check join SCHEMA PLAN           whether the plan in PLAN loses nothing
desk check form FORM SCHEMA PLAN      whether each scheme of the plan is in the form: 2nf, 3nf, bcnf or 4nf
desk check keeps SCHEMA PLAN          whether the plan keeps the functional dependencies
desk check same SCHEMA OTHER          whether two schemas over the same names say the same
desk check cover SCHEMA OTHER         whether OTHER is a minimal cover of SCHEMA, and what keeps it from being one
desk check cover canonical SCHEMA OTHER  the same of a canonical cover: each left side once, with all of its right sides
desk cover SCHEMA                     what says the same, shortened
desk cover canonical SCHEMA           the same with each left side once, and all of its right sides
desk basis SCHEMA SET                 what the set of attributes determines, and the blocks of the others
desk closure SCHEMA SET               how the closure of the set comes about, step by step
desk project SCHEMA SET               the functional dependencies inside the set, as a schema
desk keys SCHEMA                      all keys
desk keys SCHEMA PLAN                 all keys of each scheme of the plan
desk form SCHEMA                      the normal form of the table of all attributes, and what violates those above it
desk form SCHEMA PLAN                 the same of each scheme of the plan
desk synthesize SCHEMA                a plan in third normal form
desk synthesize fewest SCHEMA         the same with fewest tables: left sides that determine each other share one
desk split bcnf SCHEMA                a plan in Boyce-Codd normal form
desk split 4nf SCHEMA                 a plan in fourth normal form
desk split wide-bcnf SCHEMA           a plan in Boyce-Codd normal form, at any width
desk exhibit SCHEMA                   rows that obey just what follows from the schema
desk explain COMMAND                  reasons above what COMMAND prints: cover, keys, synthesize, synthesize fewest, split bcnf or split 4nf
desk measure SCHEMA CSV               how far the rows in CSV are from legal
desk offences SCHEMA CSV              which rows are at odds, as CSV, a line for each class
desk offences rows SCHEMA CSV         the same row by row
desk kept SCHEMA CSV                  the rows that break no rule, as CSV
desk ddl FORM SCHEMA                  SQL tables in the form
desk ddl plan SCHEMA PLAN             SQL tables of the plan
desk migrate FORM SCHEMA CSV          the rows in CSV as tables in the form, in files t1.csv, t1.sql and so on
desk migrate plan SCHEMA PLAN CSV     the same as tables of the plan
desk migrate .. into DIR              either of them in a folder of its own, with load.sql
desk sample N                         the tables of N invented persons
desk discover CSV                     the functional dependencies that the rows in CSV obey
desk discover K CSV                   those with at most K attributes on the left
desk discover keys CSV                the minimal sets of columns on which no two different rows agree
desk discover near N K CSV            those that hold once at most N rows change, with at most K attributes on the left
desk discover all CSV                 all functional and multivalued dependencies of at most 10 columns
desk discover references CSV..        which columns of the files reference a key of one of them
desk import csv CSV                   a schema of the columns of CSV, to go on from
desk import sqlite FILE TABLE         a schema of TABLE, by what sqlite3 prints of a database in FILE
desk import postgres FILE TABLE       the same by what pg_dump prints
desk rejoin SCHEMA CSV..              the join of the tables in files
desk sql check SCHEMA TABLE           queries for the rows of TABLE in a database that break each rule
desk sql measure SCHEMA TABLE         queries that count there what breaks each rule, as measure counts it
desk sql migrate FORM SCHEMA TABLE    statements that make the tables in the form from TABLE
desk sql migrate plan SCHEMA PLAN TABLE  the same of the plan
desk draw FORM SCHEMA                 a picture of the tables in the form, for Graphviz
desk draw plan SCHEMA PLAN            the same of the plan
desk report SCHEMA                    a page of HTML that says of the schema what the commands say, with pictures
desk report SCHEMA PLAN               the same with the tables of the plan
desk help                             this text
desk --version                        the release
Status: 0 yes, 1 no, 2 refused, 3 a file cannot be read, 4 the output cannot be written, 5 a destination failed, 6 out of memory.
The formats are told in docs/FORMATS.md.
";

/// The commands, in a few lines.
pub fn help(alloc: Global) -> Result<Response, EarlyExit>
    ensures response { RespondsAs (Says Status.Yes help_text) result }
{
    match Vec::from_slice(alloc, HELP) {
        Ok(text) => Ok(Response::with_text(Status::Yes, text)),
        Err(_) => Err(EarlyExit::OutOfMemory),
    }
}

/// The lines of the commands that are nearest to these words.
pub fn nearest_commands(alloc: Global, words: &[Argument]) -> Result<Vec<u8>, OutOfMemory>
    ensures lines { IfOk result (λ text. text.items ≡ nearest help_text words.now) }
{
    nearest(alloc, HELP, words)
}

/// The number of the release.
pub fn version(alloc: Global) -> Result<Response, EarlyExit>
    ensures response { RespondsAs (Says Status.Yes version_text) result }
{
    match Vec::from_slice(alloc, b"desk 0.13.1\n") {
        Ok(text) => Ok(Response::with_text(Status::Yes, text)),
        Err(_) => Err(EarlyExit::OutOfMemory),
    }
}
