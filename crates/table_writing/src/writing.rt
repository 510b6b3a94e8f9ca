ghost use Rattle.std.specs.Prelude.{◌≡◌, ◌^◌, ◌<◌, length, IfOk, OnErr};
ghost use Rattle.named_tables.specs.Tables.{table_values};
ghost use Rattle.table_writing.specs.Writing.{WrittenDestination, AtEachPosition};

use crate::files::write_table_files;
use dep_model::OutOfMemory;
use desk_outside::{Folder, OutsideFault};
use destinations::{Destination, LineMaker};
use named_tables::ChosenTables;
use std::alloc::Global;

/// Each destination in order gets each table in order, up to its first error.
///
/// The memory for the ends is taken before the first call of a destination.
pub fn write_tables_to_list<G: Folder>(
    alloc: Global,
    destinations: &mut Vec<Destination<G>>,
    tables: &ChosenTables,
) -> Result<Vec<Result<(), OutsideFault>>, OutOfMemory>
    ensures written { IfOk result
        (λ ends. AtEachPosition (WrittenDestination G.state (table_values tables.now))
        destinations.old.items destinations.new.items ends.items) }
    ensures err { OnErr result (destinations.new.items ≡ destinations.old.items) }
{
    write_tables_to_each(alloc, destinations, tables)
}

// Each destination of a slice.
fn write_tables_to_each<G: Folder>(
    alloc: Global,
    destinations: &mut [Destination<G>],
    tables: &ChosenTables,
) -> Result<Vec<Result<(), OutsideFault>>, OutOfMemory>
    requires { length destinations.old < 2 ^ 64 }
    ensures written { IfOk result
        (λ ends. AtEachPosition (WrittenDestination G.state (table_values tables.now))
        destinations.old destinations.new ends.items) }
    ensures err { OnErr result (destinations.new ≡ destinations.old) }
{
    let Ok(mut ends) = Vec::with_capacity(alloc, destinations.len()) else {
        return Err(OutOfMemory);
    };
    let mut lines = LineMaker::new(alloc);
    for destination in destinations.iter_mut() {
        let end = write_tables_to_one(destination, &mut lines, tables);
        ends.push_reserved(end);
    }
    Ok(ends)
}

// All tables to one destination.
fn write_tables_to_one<G: Folder>(
    destination: &mut Destination<G>,
    lines: &mut LineMaker,
    tables: &ChosenTables,
) -> Result<(), OutsideFault>
    ensures written { WrittenDestination G.state (table_values tables.now)
        destination.old destination.new result }
{
    let format = destination.format;
    write_table_files(
        &mut destination.folder,
        lines,
        b"",
        format,
        &tables.rows,
        &tables.tables,
    )
}
