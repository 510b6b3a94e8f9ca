use crate::three_tables::{long_table, three_tables};
use dep_model::OutOfMemory;
use desk_outside::{Folder, HeldFile, MemoryFolder, OutsideFault};
use destinations::{BufferedFolder, Destination, TableFormat};
use named_tables::ChosenTables;
use std::alloc::Global;
use std::test::Fail;
use table_writing::write_tables_to_list;

// Whether the file at a position has this name and these bytes.
fn is_file(files: Option<&[HeldFile]>, position: usize, name: &[u8], bytes: &[u8]) -> bool {
    let Some(files) = files else {
        return false;
    };
    match files.get(position) {
        Some(file) => file.name.bytes() == name && file.bytes.as_slice() == bytes,
        None => false,
    }
}

fn count(files: Option<&[HeldFile]>) -> usize {
    match files {
        Some(files) => files.len(),
        None => 0,
    }
}

// How the writing of tables to one destination ended, over a folder that gathers, and fails at this call; and the
// destination.
fn written(
    alloc: Global,
    format: TableFormat,
    tables: &ChosenTables,
    failing: u64,
) -> Result<
    (
        Result<(), OutsideFault>,
        Vec<Destination<BufferedFolder<MemoryFolder>>>,
    ),
    OutOfMemory,
> {
    let folder = MemoryFolder::new(alloc, Vec::from_slice(alloc, &[failing])?);
    let folder = BufferedFolder::new(alloc, folder)?;
    let mut destinations = Vec::new(alloc);
    destinations.push(Destination { format, folder })?;
    let ends = write_tables_to_list(alloc, &mut destinations, tables)?;
    match ends.get(0) {
        Some(end) => Ok((*end, destinations)),
        None => Err(OutOfMemory),
    }
}

// The files of a destination.
fn files_of(destinations: &[Destination<BufferedFolder<MemoryFolder>>]) -> Option<&[HeldFile]> {
    match destinations.get(0) {
        Some(destination) => destination.folder.visible(),
        None => None,
    }
}

#[test]
fn tables_become_csv_files(rt: HostRuntime) -> Result<(), Fail> {
    let alloc = rt.alloc();
    let tables = three_tables(alloc)?;
    let (end, destinations) = written(alloc, TableFormat::Csv, &tables, 0)?;
    assert!(rt; end.is_ok());
    let files = files_of(&destinations);
    assert_eq!(rt; count(files), 3);
    assert!(rt; is_file(files, 0, b"t1.csv", b"A\nx\nO'Hara\n"));
    assert!(rt; is_file(files, 1, b"t2.csv", b"A\n\"\"\n\"a,b\"\n\xff\n"));
    assert!(rt; is_file(files, 2, b"t3.csv", b"A\n1\n2\n3\0\n"));
    Ok(())
}

#[test]
fn tables_become_sql_files(rt: HostRuntime) -> Result<(), Fail> {
    let alloc = rt.alloc();
    let tables = three_tables(alloc)?;
    let (end, destinations) = written(alloc, TableFormat::Sql, &tables, 0)?;
    assert!(rt; end.is_ok());
    let files = files_of(&destinations);
    assert_eq!(rt; count(files), 3);
    let first = "INSERT INTO \"t1\" (\"A\") VALUES ('x');
INSERT INTO \"t1\" (\"A\") VALUES ('O''Hara');
";
    assert!(rt; is_file(files, 0, b"t1.sql", first.as_bytes()));
    Ok(())
}

// A small table takes three calls of the folder: it begins a file, writes it and ends it.
#[test]
fn each_call_of_a_folder_may_fail(rt: HostRuntime) -> Result<(), Fail> {
    for failing in 1..=10u64 {
        let alloc = rt.alloc();
        let tables = three_tables(alloc)?;
        let (end, destinations) = written(alloc, TableFormat::Csv, &tables, failing)?;
        assert!(rt; end.is_ok() == (failing == 10));
        assert_eq!(rt; count(files_of(&destinations)) as u64, (failing - 1) / 3);
    }
    Ok(())
}

// A table that is longer than what is gathered is written in two pieces, so it takes four calls of the folder.
#[test]
fn what_is_gathered_is_written_out(rt: HostRuntime) -> Result<(), Fail> {
    let alloc = rt.alloc();
    let value = Vec::from_elem(alloc, b'x', 30_000)?;
    let tables = long_table(alloc, &value)?;
    let mut text = Vec::from_slice(alloc, b"A\n")?;
    for _ in 0..3 {
        text.extend_from_slice(&value)?;
        text.extend_from_slice(b"\n")?;
    }
    for failing in 1..=5u64 {
        let (end, destinations) = written(alloc, TableFormat::Csv, &tables, failing)?;
        assert!(rt; end.is_ok() == (failing == 5));
        if failing == 5 {
            assert!(rt; is_file(files_of(&destinations), 0, b"t1.csv", &text));
        } else {
            assert_eq!(rt; count(files_of(&destinations)), 0);
        }
    }
    Ok(())
}
