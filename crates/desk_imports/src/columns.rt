ghost use Rattle.std.specs.Prelude.{◌<◌, length, IfOk};
ghost use Rattle.attr_sets.specs.declared.set.TheConstants.{MOST_ATTRIBUTES};
ghost use Rattle.dep_model.specs.Tuples.{IsOver};
ghost use Rattle.headed_rows.specs.Headers.{IsHeaderWithin};
ghost use Rattle.headed_rows.specs.Headings.{headed_of};
ghost use Rattle.desk_imports.specs.Columns.{ImportsColumns, IsSchemaOf};
ghost use Rattle.desk_responses.specs.Responses.{RespondsAs};

use column_types::{columns_with_empty, types_of_columns};
use dep_model::OutOfMemory;
use desk_responses::{EarlyExit, Response, Status};
use headed_rows::Headed;
use schema_model::{Naming, Schema};
use schema_printer::print_deps;
use std::alloc::Global;

/// The schema of the columns of a file, as its text.
pub fn import_columns(alloc: Global, headed: Headed) -> Result<Response, EarlyExit>
    requires header { IsHeaderWithin MOST_ATTRIBUTES headed.names.items }
    requires any_name { 0 < length headed.names.items }
    requires same_width { IsOver (length headed.names.items) headed.rows }
    ensures response { RespondsAs (ImportsColumns (headed_of headed)) result }
{
    let schema = schema_of_columns(alloc, headed)?;
    let text = print_deps(alloc, &schema, schema.deps())?;
    Ok(Response::with_text(Status::Yes, text))
}

// The schema of the columns of a file, without dependencies.
fn schema_of_columns(alloc: Global, headed: Headed) -> Result<Schema, OutOfMemory>
    requires header { IsHeaderWithin MOST_ATTRIBUTES headed.names.items }
    requires any_name { 0 < length headed.names.items }
    requires same_width { IsOver (length headed.names.items) headed.rows }
    ensures schema { IfOk result (IsSchemaOf (headed_of headed)) }
{
    let Headed { names, rows } = headed;
    let columns = types_of_columns(alloc, names.len() as u8, &rows)?;
    let nullable = columns_with_empty(names.len() as u8, &rows);
    let deps = Vec::new(alloc);
    let lines = Vec::new(alloc);
    Ok(Schema::with_columns(Naming::Any, names, columns, nullable, deps, lines))
}
