use crate::three_tables::three_tables;
use desk_outside::{Folder, HeldFile, MemoryFolder, OutsideFault};
use destinations::BufferedFolder;
use own_folder::write_own_folder;
use std::alloc::Global;
use std::test::Fail;

fn count(files: Option<&[HeldFile]>) -> usize {
    match files {
        Some(files) => files.len(),
        None => 0,
    }
}

// A folder that gathers, of which this call fails.
fn folder(alloc: Global, failing: u64) -> Result<BufferedFolder<MemoryFolder>, Fail> {
    let folder = MemoryFolder::new(alloc, Vec::from_slice(alloc, &[failing])?);
    Ok(BufferedFolder::new(alloc, folder)?)
}

// How many files stand where this call fails: after a CSV file that fails none is begun but the script.
fn files_after(failing: u64) -> usize {
    match failing {
        1 => 0,
        2..=4 => 1,
        5..=7 => 2,
        8..=13 => 3,
        _ => 4,
    }
}

// The first call makes the folder; each of three CSV files takes three calls, and so does the script.
#[test]
fn each_call_for_a_folder_may_fail(rt: HostRuntime) -> Result<(), Fail> {
    for failing in 1..=14u64 {
        let alloc = rt.alloc();
        let tables = three_tables(alloc)?;
        let mut folder = folder(alloc, failing)?;
        let ends = write_own_folder(alloc, &mut folder, b"out", b"", &tables)?;
        let csv = failing > 10;
        let load = failing > 13 || (failing > 1 && failing < 11);
        assert_eq!(rt; ends.as_slice(), [end(csv), end(load)].as_slice());
        assert_eq!(rt; count(folder.visible()), files_after(failing));
    }
    Ok(())
}

fn end(is_done: bool) -> Result<(), OutsideFault> {
    if is_done {
        Ok(())
    } else {
        Err(OutsideFault::Failed)
    }
}

// The folder that is looked at is the one that is written to.
#[test]
fn a_name_is_taken_once_it_is_written_to(rt: HostRuntime) -> Result<(), Fail> {
    let alloc = rt.alloc();
    let tables = three_tables(alloc)?;
    let mut folder: Box<dyn Folder> = Box::new(alloc, folder(alloc, 0)?)?;
    assert!(rt; folder.is_free(b"out"));
    let ends = write_own_folder(alloc, &mut folder, b"out", b"", &tables)?;
    assert_eq!(rt; ends.as_slice(), [Ok(()), Ok(())].as_slice());
    assert!(rt; !folder.is_free(b"out"));
    assert!(rt; !folder.is_free(b"out/load.sql"));
    assert!(rt; folder.is_free(b"ou"));
    assert!(rt; folder.is_free(b"outer"));
    Ok(())
}
