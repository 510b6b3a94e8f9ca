//! The rows of files as tables: the files are read one after the other, and then the rows are moved.

ghost use Rattle.std.specs.Prelude.{◌∷◌, []};
ghost use Rattle.desk_inputs.specs.FileCalls.{Reads};
ghost use Rattle.desk_inputs.specs.FileKinds.{WithFile};
ghost use Rattle.desk_outside.specs.FreeNames.{may_be_free};
ghost use Rattle.desk_inputs.specs.Plans.{plan_file};
ghost use Rattle.desk_inputs.specs.Rows.{rows_file};
ghost use Rattle.desk_responses.specs.Responses.{RespondsAs};
ghost use Rattle.desk_tables.specs.Overwriting.{MigratesHere, MigratesPlanHere};
ghost use Rattle.desk_tables.specs.OwnFolders.{MigratesInto, MigratesPlanInto};

use arguments::Argument;
use dep_model::Form;
use desk_inputs::{open_plan, open_rows};
use desk_outside::{FileSource, Folder};
use desk_responses::{EarlyExit, Response};
use desk_tables::{migrate_form_here, migrate_form_into, migrate_plan_here, migrate_plan_into};
use row_store::Hashing;
use schema_model::Schema;
use std::alloc::Global;

/// The rows of a file, as tables in a normal form of the schema, which is in its own file.
pub fn of_rows_in_form<F: FileSource>(
    alloc: Global,
    hashing: Hashing,
    source: &mut F,
    schema: &Schema,
    own: &Argument,
    file: &Argument,
    form: Form,
) -> Result<Response, EarlyExit>
    ensures reads { Reads F.FileSource source.old source.new (file.now ∷ [])
        (λ r. RespondsAs (WithFile (rows_file schema.now) r file.now
        (MigratesHere schema.now form (own.now ∷ file.now ∷ []))) result) }
{
    let rows = match open_rows(alloc, source, schema, file) {
        Ok(rows) => rows,
        Err(exit) => return Err(exit),
    };
    migrate_form_here(
        alloc,
        hashing,
        schema,
        form,
        own.bytes(),
        file.bytes(),
        rows,
    )
}

/// The rows of a file, as tables of the plan of another.
pub fn of_plan_and_rows<F: FileSource>(
    alloc: Global,
    hashing: Hashing,
    source: &mut F,
    schema: &Schema,
    own: &Argument,
    planned: &Argument,
    file: &Argument,
) -> Result<Response, EarlyExit>
    ensures reads { Reads F.FileSource source.old source.new (planned.now ∷ file.now ∷ [])
        (λ r. RespondsAs (WithFile (plan_file schema.now) r planned.now
        (λ plan. WithFile (rows_file schema.now) r file.now
        (MigratesPlanHere schema.now plan.names plan.schemes (own.now ∷ planned.now ∷ file.now ∷ [])))) result) }
{
    let plan = match open_plan(alloc, source, schema, planned) {
        Ok(plan) => plan,
        Err(exit) => return Err(exit),
    };
    let rows = match open_rows(alloc, source, schema, file) {
        Ok(rows) => rows,
        Err(exit) => return Err(exit),
    };
    migrate_plan_here(
        alloc,
        hashing,
        schema,
        &plan.plan,
        &plan.names,
        own.bytes(),
        planned.bytes(),
        file.bytes(),
        rows,
    )
}

/// The rows of a file, as tables in a normal form, in a folder of their own.
pub fn of_rows_into<F: FileSource, G: Folder>(
    alloc: Global,
    hashing: Hashing,
    source: &mut F,
    place: &G,
    schema: &Schema,
    file: &Argument,
    form: Form,
    folder: &Argument,
) -> Result<Response, EarlyExit>
    ensures reads { Reads F.FileSource source.old source.new (file.now ∷ [])
        (λ r. RespondsAs (WithFile (rows_file schema.now) r file.now
        (MigratesInto (may_be_free (G.state place.now).contents) schema.now form folder.now)) result) }
{
    let rows = match open_rows(alloc, source, schema, file) {
        Ok(rows) => rows,
        Err(exit) => return Err(exit),
    };
    let is_free = place.is_free(folder.bytes());
    migrate_form_into(alloc, hashing, schema, form, folder, is_free, rows)
}

/// The rows of a file, as tables of the plan of another, in a folder of their own.
pub fn of_plan_and_rows_into<F: FileSource, G: Folder>(
    alloc: Global,
    hashing: Hashing,
    source: &mut F,
    place: &G,
    schema: &Schema,
    planned: &Argument,
    file: &Argument,
    folder: &Argument,
) -> Result<Response, EarlyExit>
    ensures reads { Reads F.FileSource source.old source.new (planned.now ∷ file.now ∷ [])
        (λ r. RespondsAs (WithFile (plan_file schema.now) r planned.now
        (λ plan. WithFile (rows_file schema.now) r file.now
        (MigratesPlanInto (may_be_free (G.state place.now).contents) schema.now plan.names plan.schemes
        folder.now))) result) }
{
    let plan = match open_plan(alloc, source, schema, planned) {
        Ok(plan) => plan,
        Err(exit) => return Err(exit),
    };
    let rows = match open_rows(alloc, source, schema, file) {
        Ok(rows) => rows,
        Err(exit) => return Err(exit),
    };
    let is_free = place.is_free(folder.bytes());
    migrate_plan_into(
        alloc,
        hashing,
        schema,
        &plan.plan,
        &plan.names,
        folder,
        is_free,
        rows,
    )
}
