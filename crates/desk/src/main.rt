//! The program: `main`, which answers its words over the files of the current folder, on standard
//! output.
//!
//! A refusal goes to standard error too, where standard output is no terminal. Tables that it
//! migrates become files of the current folder, `t1.csv`, `t1.sql` and so on, or those of a folder
//! of their own.
//!
//! Promises: it hands in the real objects and the words, and ends with the number of the status, or
//! with 6 where no memory was found.
#![tactic(auto)]

mod words;

use crate::words::words;
use arguments::Argument;
use dep_model::OutOfMemory;
use desk_cli::desk;
use desk_outside::{FileFolder, Folder, ProgressLine, RealFiles, StdoutSink};
use desk_process::{NoticeSink, exit_code};
use destinations::{BufferedFolder, Destination, TableFormat};
use row_store::Hashing;
use std::io::IsTerminal;
use std::process::ExitCode;
use std::rt::Runtime;

type CurrentFolder<R> = BufferedFolder<FileFolder<R>>;

// The trait objects are made here, since a function that hands them out could not be proved for all.
fn main(rt: HostRuntime) -> ExitCode {
    let alloc = rt.alloc();
    let (Ok((words, mut source)), Ok((csv, sql)), Ok(mut own)) = (
        words_and_files(&rt),
        two_folders(&rt),
        current_folder(&rt),
    ) else {
        return exit_code(Err(OutOfMemory));
    };
    let (Ok(csv), Ok(sql)) = (Box::new(alloc, csv), Box::new(alloc, sql)) else {
        return exit_code(Err(OutOfMemory));
    };
    let mut destinations: Vec<Destination<Box<dyn Folder>>> = Vec::new(alloc);
    let csv_pushed = destinations.push(Destination {
        format: TableFormat::Csv,
        folder: csv,
    });
    let sql_pushed = destinations.push(Destination {
        format: TableFormat::Sql,
        folder: sql,
    });
    if csv_pushed.is_err() || sql_pushed.is_err() {
        return exit_code(Err(OutOfMemory));
    }
    let hashing = Hashing::new(&rt);
    let progress = ProgressLine::new(alloc, &rt);
    let mut notices = NoticeSink::new(rt.stderr(), !rt.stdout().is_terminal());
    let mut out = StdoutSink::new(rt, progress);
    exit_code(desk(
        alloc,
        hashing,
        &words,
        &mut source,
        &mut out,
        &mut notices,
        &mut destinations,
        &mut own,
    ))
}

// The words after the program's name, and the file source.
fn words_and_files<R: Runtime + AllocGlobal>(
    rt: &R,
) -> Result<(Vec<Argument>, RealFiles<R>), OutOfMemory> {
    let words = words(rt)?;
    Ok((words, RealFiles::new(rt.alloc(), clone_of(rt)?)))
}

// The folders of the two destinations.
fn two_folders<R: Runtime + AllocGlobal>(
    rt: &R,
) -> Result<(CurrentFolder<R>, CurrentFolder<R>), OutOfMemory> {
    let csv = current_folder(rt)?;
    let sql = current_folder(rt)?;
    Ok((csv, sql))
}

// The current folder, in which nothing is begun yet.
fn current_folder<R: Runtime + AllocGlobal>(rt: &R) -> Result<CurrentFolder<R>, OutOfMemory> {
    let alloc = rt.alloc();
    BufferedFolder::new(alloc, FileFolder::new(alloc, clone_of(rt)?))
}

// The runtime once more, for an object that keeps it.
fn clone_of<R: Runtime>(rt: &R) -> Result<R, OutOfMemory> {
    match rt.clone() {
        Ok(rt) => Ok(rt),
        Err(_) => Err(OutOfMemory),
    }
}
