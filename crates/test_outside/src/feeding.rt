use crate::three_tables::three_tables;
use crate::without_memory::WithoutMemory;
use desk_outside::{Folder, MemoryFolder, OutsideFault};
use destinations::{Destination, TableFormat};
use named_tables::ChosenTables;
use std::alloc::Global;
use std::process::Abort;
use std::test::Fail;
use table_writing::write_tables_to_list;

// A destination of CSV files in a folder.
fn csv_files<G: Folder>(folder: G) -> Destination<G> {
    Destination {
        format: TableFormat::Csv,
        folder,
    }
}

// The end of the destination whose folder fails at this call, and how many files it then holds. The calls of a
// file are its begin, one for the header, one for each row, and its end: 5 of the first table, 6 of each other.
fn end_of(failing: u64) -> (Result<(), OutsideFault>, usize) {
    match failing {
        1..=5 => (Err(OutsideFault::Failed), 0),
        6..=11 => (Err(OutsideFault::Failed), 1),
        12..=17 => (Err(OutsideFault::Failed), 2),
        _ => (Ok(()), 3),
    }
}

// Of three destinations the second fails at this call.
fn check_fault(
    rt: &(impl Alloc<A = Global> + Abort),
    tables: &ChosenTables,
    failing: u64,
) -> Result<(), Fail> {
    let alloc = rt.alloc();
    let mut destinations = Vec::new(alloc);
    let failing_folder = MemoryFolder::new(alloc, Vec::from_slice(alloc, &[failing])?);
    destinations.push(csv_files(MemoryFolder::new(alloc, Vec::new(alloc))))?;
    destinations.push(csv_files(failing_folder))?;
    destinations.push(csv_files(MemoryFolder::new(alloc, Vec::new(alloc))))?;
    let ends = write_tables_to_list(alloc, &mut destinations, tables)?;
    let (second, held) = end_of(failing);
    assert_eq!(rt; ends.as_slice(), [Ok(()), second, Ok(())].as_slice());
    let counts = [3, held, 3];
    assert_eq!(rt; destinations.len(), counts.len());
    for (destination, count) in destinations.iter().zip(counts.iter()) {
        check_files(rt, &destination.folder, *count)?;
    }
    Ok(())
}

// A folder holds just so many of the files, the first ones.
fn check_files(rt: &impl Abort, folder: &MemoryFolder, count: usize) -> Result<(), Fail> {
    let names: &[&[u8]] = &[b"t1.csv", b"t2.csv", b"t3.csv"];
    assert_eq!(rt; folder.finished_files().len(), count);
    for (file, name) in folder.finished_files().iter().zip(names.iter()) {
        assert_eq!(rt; file.name.bytes(), *name);
    }
    Ok(())
}

#[test]
fn the_second_destination_fails_at_each_call(rt: HostRuntime) -> Result<(), Fail> {
    let tables = three_tables(rt.alloc())?;
    for failing in 1..19u64 {
        check_fault(&rt, &tables, failing)?;
    }
    Ok(())
}

#[test]
fn each_destination_has_an_end_of_its_own(rt: HostRuntime) -> Result<(), Fail> {
    let alloc = rt.alloc();
    let tables = three_tables(alloc)?;
    let mut destinations: Vec<Destination<Box<dyn Folder>>> = Vec::new(alloc);
    let failing = MemoryFolder::new(alloc, Vec::from_slice(alloc, &[1])?);
    destinations.push(csv_files(Box::new(alloc, failing)?))?;
    destinations.push(csv_files(Box::new(alloc, WithoutMemory::new())?))?;
    let whole = MemoryFolder::new(alloc, Vec::new(alloc));
    destinations.push(csv_files(Box::new(alloc, whole)?))?;
    let failed = Err(OutsideFault::Failed);
    let without = Err(OutsideFault::OutOfMemory);
    let ends = write_tables_to_list(alloc, &mut destinations, &tables)?;
    assert_eq!(rt; ends.as_slice(), [failed, without, Ok(())].as_slice());
    let ends = write_tables_to_list(alloc, &mut destinations, &tables)?;
    assert_eq!(rt; ends.as_slice(), [Ok(()), without, Ok(())].as_slice());
    let counts = [Some(3), None, Some(3)];
    for (destination, count) in destinations.iter().zip(counts.iter()) {
        let held = destination.folder.visible().map(|files| files.len());
        assert_eq!(rt; held, *count);
    }
    Ok(())
}
