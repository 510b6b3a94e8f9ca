//! Files of SQL.

ghost use Rattle.std.specs.Prelude.{◌≤◌, length, IfOk};
ghost use Rattle.desk_inputs.specs.FileCalls.{OpensFile};
ghost use Rattle.desk_inputs.specs.Sql.{sql_file};

use crate::read::open_file;
use arguments::Argument;
use desk_outside::FileSource;
use desk_responses::EarlyExit;
use std::alloc::Global;

/// The most bytes of a file of SQL.
pub const MOST_SQL_BYTES: usize = 268_435_456;

/// The bytes of a file of SQL.
pub fn open_sql<F: FileSource>(
    alloc: Global,
    source: &mut F,
    name: &Argument,
) -> Result<Vec<u8>, EarlyExit>
    ensures opens { OpensFile F.FileSource source.old source.new sql_file name.now
        (λ bytes. bytes.items) result }
    ensures within { IfOk result (λ bytes. length bytes.items ≤ MOST_SQL_BYTES) }
{
    match open_file(alloc, source, name, MOST_SQL_BYTES) {
        Ok(bytes) => Ok(bytes),
        Err(exit) => Err(exit),
    }
}
