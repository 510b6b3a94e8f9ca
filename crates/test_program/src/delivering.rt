use crate::calls::{
    Destinations, File, call, call_into, csv_files, failing_folder, slow_sink, slow_source,
};
use dep_model::OutOfMemory;
use desk_outside::{Folder, HeldFile, MemoryFolder, MemorySink};
use desk_responses::Status;
use destinations::{Destination, TableFormat};
use std::alloc::Global;
use std::process::Abort;
use std::test::Fail;
use test_outside::WithoutMemory;

// Three tables of two columns, with two, two and three rows. Their calls are 5, 5 and 6.
const FILES: [File; 3] = [
    (b"s", b"attributes A B C D\nA -> B C\n"),
    (b"p", b"scheme A B\nscheme A C\nscheme A D\n"),
    (
        b"r",
        b"A,B,C,D\n1,x,,p\n2,O'Hara,\"a,b\",\xff\n2,O'Hara,\"a,b\",3\0\n",
    ),
];

const READ: &[u8] = b"read 3 rows\nt1 2 rows: A B\nt2 2 rows: A C\nt3 3 rows: A D\n";

// The migration of the rows into the tables.
fn migrate(
    alloc: Global,
    sink: &mut MemorySink,
    destinations: &mut Destinations,
) -> Result<Status, OutOfMemory> {
    let mut source = slow_source(alloc, &FILES, &[])?;
    let words: &[&[u8]] = &[b"migrate", b"plan", b"s", b"p", b"r"];
    call(alloc, words, &mut source, sink, destinations)
}

// How many files each destination holds.
fn check_held(
    rt: &impl Abort,
    destinations: &[Destination<Box<dyn Folder>>],
    counts: &[usize],
) -> Result<(), Fail> {
    assert_eq!(rt; destinations.len(), counts.len());
    for (destination, count) in destinations.iter().zip(counts) {
        let held = destination.folder.visible().map_or(0, |files| files.len());
        assert_eq!(rt; held, *count);
    }
    Ok(())
}

// Destinations in memory, each of which fails at one call, the status and the text that they leave, and
// how many files each then holds.
fn check(
    rt: &(impl Alloc<A = Global> + Abort),
    fails: &[u64],
    answer: (Status, &[u8]),
    counts: &[usize],
) -> Result<(), Fail> {
    let alloc = rt.alloc();
    let (status, text) = answer;
    let mut sink = slow_sink(alloc, 1000)?;
    let mut destinations: Destinations = Vec::new(alloc);
    for call in fails {
        destinations.push(csv_files(Box::new(alloc, failing_folder(alloc, &[*call])?)?))?;
    }
    let ended = migrate(alloc, &mut sink, &mut destinations)?;
    assert!(rt; ended == status, "{fails:?}");
    assert_eq!(rt; sink.bytes(), text);
    check_held(rt, &destinations, counts)
}

// Of three destinations the second fails at each of its calls in turn.
#[test]
fn a_destination_that_fails_is_named(rt: HostRuntime) -> Result<(), Fail> {
    let text: &[u8] = b"target 2 failed\n";
    for (first, last, held) in [(1, 5, 0), (6, 10, 1), (11, 16, 2)] {
        for call in first..=last {
            check(
                &rt,
                &[0, call, 0],
                (Status::DestinationFailed, text),
                &[3, held, 3],
            )?;
        }
    }
    check(&rt, &[0, 17, 0], (Status::Yes, READ), &[3, 3, 3])
}

#[test]
fn failed_destinations_are_named_in_order(rt: HostRuntime) -> Result<(), Fail> {
    let text: &[u8] = b"target 1 failed\ntarget 3 failed\n";
    check(
        &rt,
        &[1, 0, 1],
        (Status::DestinationFailed, text),
        &[0, 3, 0],
    )
}

// A destination out of memory comes before the failure of another, and the others are written.
#[test]
fn a_destination_is_out_of_memory(rt: HostRuntime) -> Result<(), Fail> {
    let alloc = rt.alloc();
    let mut sink = slow_sink(alloc, 1000)?;
    let mut destinations: Destinations = Vec::new(alloc);
    destinations.push(csv_files(Box::new(alloc, failing_folder(alloc, &[])?)?))?;
    destinations.push(csv_files(Box::new(alloc, WithoutMemory::new())?))?;
    destinations.push(csv_files(Box::new(alloc, failing_folder(alloc, &[8])?)?))?;
    let ended = migrate(alloc, &mut sink, &mut destinations);
    assert!(rt; ended.is_err());
    assert_eq!(rt; sink.bytes(), b"".as_slice());
    check_held(&rt, &destinations, &[3, 0, 1])
}

// How many files a folder holds, and what the first of them is.
fn check_files(
    rt: &impl Abort,
    files: Option<&[HeldFile]>,
    count: usize,
    first: (&[u8], &[u8]),
) -> Result<(), Fail> {
    let (name, bytes) = first;
    let Some(files) = files else {
        return Err(Fail::from(OutOfMemory));
    };
    assert_eq!(rt; files.len(), count);
    if let Some(file) = files.first() {
        assert_eq!(rt; file.name.bytes(), name);
        assert_eq!(rt; file.bytes.as_slice(), bytes);
    }
    Ok(())
}

// The files of the destination of this number, from 0.
fn files_at(destinations: &[Destination<Box<dyn Folder>>], number: usize) -> Option<&[HeldFile]> {
    match destinations.get(number) {
        Some(destination) => destination.folder.visible(),
        None => None,
    }
}

// The first destination has no file, and the second its three.
fn check_written(
    rt: &impl Abort,
    ended: Status,
    sink: &MemorySink,
    destinations: &[Destination<Box<dyn Folder>>],
) -> Result<(), Fail> {
    assert!(rt; ended == Status::DestinationFailed);
    assert_eq!(rt; sink.bytes(), b"target 1 failed\n".as_slice());
    check_files(rt, files_at(destinations, 0), 0, (b"", b""))?;
    let first = "INSERT INTO \"t1\" (\"A\", \"B\") VALUES ('1', 'x');
INSERT INTO \"t1\" (\"A\", \"B\") VALUES ('2', 'O''Hara');
";
    check_files(
        rt,
        files_at(destinations, 1),
        3,
        (b"t1.sql", first.as_bytes()),
    )
}

// The folder of the first destination fails at its first call, and the other is written.
#[test]
fn files_are_written(rt: HostRuntime) -> Result<(), Fail> {
    let alloc = rt.alloc();
    let mut destinations: Destinations = Vec::new(alloc);
    destinations.push(csv_files(Box::new(alloc, failing_folder(alloc, &[1])?)?))?;
    destinations.push(Destination {
        format: TableFormat::Sql,
        folder: Box::new(alloc, failing_folder(alloc, &[])?)?,
    })?;
    let mut sink = slow_sink(alloc, 1000)?;
    let ended = migrate(alloc, &mut sink, &mut destinations)?;
    check_written(&rt, ended, &sink, &destinations)
}

// The migration of the rows into a folder of its own.
fn migrate_into(
    alloc: Global,
    sink: &mut MemorySink,
    own: &mut MemoryFolder,
) -> Result<Status, OutOfMemory> {
    let mut source = slow_source(alloc, &FILES, &[])?;
    let mut notices = slow_sink(alloc, 1000)?;
    let mut destinations: Destinations = Vec::new(alloc);
    let words: &[&[u8]] = &[b"migrate", b"plan", b"s", b"p", b"r", b"into", b"out"];
    call_into(
        alloc,
        words,
        &mut source,
        sink,
        &mut notices,
        &mut destinations,
        own,
    )
}

// The folder that is looked at is the one that is written to: a second migration into the same name is refused.
#[test]
fn a_name_is_free_once(rt: HostRuntime) -> Result<(), Fail> {
    let alloc = rt.alloc();
    let mut own = failing_folder(alloc, &[])?;
    let mut sink = slow_sink(alloc, 1000)?;
    let ended = migrate_into(alloc, &mut sink, &mut own)?;
    assert!(rt; ended == Status::Yes);
    assert_eq!(rt; sink.bytes(), READ);
    check_files(
        &rt,
        own.visible(),
        4,
        (b"out/t1.csv", b"A,B\n1,x\n2,O'Hara\n"),
    )?;
    let mut sink = slow_sink(alloc, 1000)?;
    let ended = migrate_into(alloc, &mut sink, &mut own)?;
    assert!(rt; ended == Status::Refused);
    assert_eq!(rt;
        sink.bytes(),
        b"refused: out is not an empty folder\n".as_slice()
    );
    check_files(
        &rt,
        own.visible(),
        4,
        (b"out/t1.csv", b"A,B\n1,x\n2,O'Hara\n"),
    )
}

// A folder that cannot be made fails as both destinations.
#[test]
fn a_folder_that_is_not_made_fails_twice(rt: HostRuntime) -> Result<(), Fail> {
    let alloc = rt.alloc();
    let mut own = failing_folder(alloc, &[1])?;
    let mut sink = slow_sink(alloc, 1000)?;
    let ended = migrate_into(alloc, &mut sink, &mut own)?;
    assert!(rt; ended == Status::DestinationFailed);
    assert_eq!(rt;
        sink.bytes(),
        b"target 1 failed\ntarget 2 failed\n".as_slice()
    );
    check_files(&rt, own.visible(), 0, (b"", b""))
}
