use arguments::Argument;
use dep_model::OutOfMemory;
use desk_cli::desk;
use desk_outside::{Folder, HeldFile, MemoryFiles, MemoryFolder, MemorySink};
use desk_responses::Status;
use destinations::{Destination, TableFormat};
use row_store::Hashing;
use std::alloc::Global;

// A name, and the text of the file of that name.
pub(crate) type File<'a> = (&'a [u8], &'a [u8]);

// The destinations of a call.
pub(crate) type Destinations = Vec<Destination<Box<dyn Folder>>>;

fn words_of(alloc: Global, words: &[&[u8]]) -> Result<Vec<Argument>, OutOfMemory> {
    let mut held = Vec::new(alloc);
    for bytes in words {
        held.push(Argument::new(alloc, bytes)?)?;
    }
    Ok(held)
}

// A file source of files, of which each read gives a byte, and which fails at these calls.
pub(crate) fn slow_source(
    alloc: Global,
    files: &[File],
    fails: &[u64],
) -> Result<MemoryFiles, OutOfMemory> {
    let mut held = Vec::new(alloc);
    for (name, bytes) in files {
        held.push(HeldFile {
            name: Argument::new(alloc, name)?,
            bytes: Vec::from_slice(alloc, bytes)?,
        })?;
    }
    Ok(MemoryFiles::with_step(held, Vec::from_slice(alloc, fails)?, 1))
}

// The status of a call with these words.
pub(crate) fn call(
    alloc: Global,
    words: &[&[u8]],
    source: &mut MemoryFiles,
    sink: &mut MemorySink,
    destinations: &mut Destinations,
) -> Result<Status, OutOfMemory> {
    let mut notices = slow_sink(alloc, 1000)?;
    call_noted(alloc, words, source, sink, &mut notices, destinations)
}

// The same with a sink of notices.
pub(crate) fn call_noted(
    alloc: Global,
    words: &[&[u8]],
    source: &mut MemoryFiles,
    sink: &mut MemorySink,
    notices: &mut MemorySink,
    destinations: &mut Destinations,
) -> Result<Status, OutOfMemory> {
    let mut own = MemoryFolder::new(alloc, Vec::new(alloc));
    call_into(alloc, words, source, sink, notices, destinations, &mut own)
}

// The same with a folder for folders of their own.
pub(crate) fn call_into(
    alloc: Global,
    words: &[&[u8]],
    source: &mut MemoryFiles,
    sink: &mut MemorySink,
    notices: &mut MemorySink,
    destinations: &mut Destinations,
    own: &mut MemoryFolder,
) -> Result<Status, OutOfMemory> {
    let words = words_of(alloc, words)?;
    desk(
        alloc,
        Hashing::Fixed,
        &words,
        source,
        sink,
        notices,
        destinations,
        own,
    )
}

// A sink that takes a byte at a time, so many in all.
pub(crate) fn slow_sink(alloc: Global, capacity: usize) -> Result<MemorySink, OutOfMemory> {
    Ok(MemorySink::with_step(alloc, capacity, Vec::new(alloc), 1)?)
}

// A destination of CSV files in a folder.
pub(crate) fn csv_files(folder: Box<dyn Folder>) -> Destination<Box<dyn Folder>> {
    Destination {
        format: TableFormat::Csv,
        folder,
    }
}

// A folder in memory that fails at these calls.
pub(crate) fn failing_folder(alloc: Global, fails: &[u64]) -> Result<MemoryFolder, OutOfMemory> {
    Ok(MemoryFolder::new(alloc, Vec::from_slice(alloc, fails)?))
}
