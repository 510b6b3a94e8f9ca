//! The commands that make a schema of a file.

ghost use Rattle.std.specs.Prelude.{◌∷◌, []};
ghost use Rattle.desk_imports.specs.Columns.{ImportsColumns};
ghost use Rattle.desk_imports.specs.Imports.{ImportsTable};
ghost use Rattle.desk_inputs.specs.FileCalls.{Reads};
ghost use Rattle.desk_inputs.specs.FileKinds.{WithFile};
ghost use Rattle.desk_inputs.specs.Headed.{imported_file};
ghost use Rattle.desk_inputs.specs.Sql.{sql_file};
ghost use Rattle.desk_responses.specs.Responses.{RespondsAs};

use arguments::Argument;
use desk_imports::{import_columns, import_table};
use desk_inputs::{Purpose, open_headed, open_sql};
use desk_outside::FileSource;
use desk_responses::{EarlyExit, Response};
use sql_lexemes::Dialect;
use std::alloc::Global;

/// A schema of the columns of a file.
pub fn of_imported<F: FileSource>(
    alloc: Global,
    source: &mut F,
    file: &Argument,
) -> Result<Response, EarlyExit>
    ensures reads { Reads F.FileSource source.old source.new (file.now ∷ [])
        (λ r. RespondsAs (WithFile imported_file r file.now ImportsColumns) result) }
{
    let headed = match open_headed(alloc, source, Purpose::Schema, file) {
        Ok(headed) => headed,
        Err(exit) => return Err(exit),
    };
    import_columns(alloc, headed)
}

/// A schema of a table that the SQL of a file defines.
pub fn of_sql<F: FileSource>(
    alloc: Global,
    source: &mut F,
    dialect: Dialect,
    file: &Argument,
    table: &Argument,
) -> Result<Response, EarlyExit>
    ensures reads { Reads F.FileSource source.old source.new (file.now ∷ [])
        (λ r. RespondsAs (WithFile sql_file r file.now (ImportsTable dialect table.now file.now)) result) }
{
    let text = match open_sql(alloc, source, file) {
        Ok(text) => text,
        Err(exit) => return Err(exit),
    };
    import_table(alloc, dialect, table, file, text)
}
