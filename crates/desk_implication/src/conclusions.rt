ghost use Rattle.std.specs.Prelude.{◌≡◌, IfOk};
ghost use Rattle.dep_model.specs.Deps.{dependency_of, IsDepWithin};
ghost use Rattle.schema_model.specs.Schemas.{universe_of};
ghost use Rattle.schema_printer.specs.Spelling.{printed_names_of};
ghost use Rattle.desk_implication.specs.Conclusions.{checked_text, concludes_text};

use byte_texts::add;
use dep_model::{Dep, OutOfMemory};
use desk_texts::line_of;
use schema_model::Schema;
use schema_printer::print_dep;
use std::alloc::Global;

/// That a text proves a goal.
pub fn checked_line(alloc: Global, schema: &Schema, dep: Dep) -> Result<Vec<u8>, OutOfMemory>
    requires { IsDepWithin (universe_of schema.now) dep }
    ensures text { IfOk result (λ text. text.items ≡ checked_text (printed_names_of schema.now) (dependency_of dep)) }
{
    line_of(alloc, b"checked ", &print_dep(alloc, schema, dep)?, b"")
}

/// What a text concludes in the place of a goal.
pub fn concludes_lines(
    alloc: Global,
    schema: &Schema,
    concluded: Dep,
    goal: Dep,
) -> Result<Vec<u8>, OutOfMemory>
    requires concluded { IsDepWithin (universe_of schema.now) concluded }
    requires goal { IsDepWithin (universe_of schema.now) goal }
    ensures text { IfOk result
        (λ text. text.items ≡ concludes_text (printed_names_of schema.now) (dependency_of concluded)
        (dependency_of goal)) }
{
    let mut text = line_of(
        alloc,
        b"concludes ",
        &print_dep(alloc, schema, concluded)?,
        b"",
    )?;
    let goal = line_of(alloc, b"asked ", &print_dep(alloc, schema, goal)?, b"")?;
    add(&mut text, &goal)?;
    Ok(text)
}
