ghost use Rattle.std.specs.Prelude.{◌<◌};

use arguments::Argument;
use desk_outside::*;
use std::alloc::Global;
use std::fmt::Display;
use std::io;
use std::rt::Clock;
use std::test::Fail;
use std::time::Duration;

// A schema text of 31 bytes.
const TEXT: &[u8] = b"attributes A B C\nA -> B\nB -> C\n";

// A printed text.
const PRINTED: &[u8] = b"no\nA,B,C\n0,0,0\n1,1,0\n";

fn held_file(alloc: Global, name: &[u8], bytes: &[u8]) -> Result<HeldFile, Fail> {
    Ok(HeldFile {
        name: Argument::new(alloc, name)?,
        bytes: Vec::from_slice(alloc, bytes)?,
    })
}

// An empty file and two files of one name.
fn three_files(alloc: Global) -> Result<Vec<HeldFile>, Fail> {
    let mut files = Vec::new(alloc);
    files.push(held_file(alloc, b"empty", b"")?)?;
    files.push(held_file(alloc, b"text", TEXT)?)?;
    files.push(held_file(alloc, b"text", b"the second of this name")?)?;
    Ok(files)
}

// A file source with these files, which fails at these calls.
fn source_of(alloc: Global, fails: &[u64], step: usize) -> Result<MemoryFiles, Fail>
    requires { 0 < step }
{
    let fails = Vec::from_slice(alloc, fails)?;
    Ok(MemoryFiles::with_step(three_files(alloc)?, fails, step))
}

#[test]
fn a_file_is_loaded_whole_or_refused(rt: HostRuntime) -> Result<(), Fail> {
    let mut source = MemoryFiles::new(three_files(rt.alloc())?, Vec::new(rt.alloc()));
    for (name, limit, want) in [
        (b"text".as_slice(), 1000, Ok(TEXT)),
        (b"text", 31, Ok(TEXT)),
        (b"text", 30, Err(LoadRefusal::TooLong)),
        (b"text", 0, Err(LoadRefusal::TooLong)),
        (b"empty", 0, Ok(b"".as_slice())),
        (b"tex", 1000, Err(LoadRefusal::CannotRead)),
    ] {
        match load(rt.alloc(), &mut source, name, limit) {
            Ok(bytes) => assert_eq!(rt; Ok(bytes.as_slice()), want),
            Err(refusal) => assert_eq!(rt; Err(refusal), want),
        }
    }
    Ok(())
}

// At one byte a read the calls are one begin, 31 reads of a byte, and one that finds the end.
#[test]
fn each_call_of_a_loading_may_fail(rt: HostRuntime) -> Result<(), Fail> {
    for call in 1..=33u64 {
        let mut source = source_of(rt.alloc(), &[call], 1)?;
        let loaded = load(rt.alloc(), &mut source, b"text", 1000);
        assert!(rt;
            matches!(&loaded, Err(LoadRefusal::CannotRead)),
            "at {call}"
        );
    }
    let mut source = source_of(rt.alloc(), &[34], 1)?;
    let bytes = load(rt.alloc(), &mut source, b"text", 1000)?;
    assert_eq!(rt; bytes.as_slice(), TEXT);
    Ok(())
}

#[test]
fn after_a_fault_no_file_is_begun(rt: HostRuntime) -> Result<(), Fail> {
    let mut source = source_of(rt.alloc(), &[2, 5], 4)?;
    let mut buf = [0u8; 6];
    assert_eq!(rt; source.begin(b"text"), Ok(()));
    assert_eq!(rt; source.read(&mut buf), Err(Failed));
    assert_eq!(rt; source.read(&mut buf), Ok(0));
    assert_eq!(rt; source.begin(b"text"), Ok(()));
    assert_eq!(rt; source.begin(b"text"), Err(OutsideFault::Failed));
    assert_eq!(rt; source.read(&mut buf), Ok(0));
    assert_eq!(rt; source.begin(b"text"), Ok(()));
    assert_eq!(rt; source.read(&mut buf), Ok(4));
    assert_eq!(rt; buf.as_slice(), b"attr\0\0".as_slice());
    Ok(())
}

#[test]
fn a_full_sink_holds_just_the_front(rt: HostRuntime) -> Result<(), Fail> {
    for step in [1, 3, usize::MAX] {
        for capacity in 0..=PRINTED.len() {
            let fails = Vec::new(rt.alloc());
            let mut sink = MemorySink::with_step(rt.alloc(), capacity, fails, step)?;
            let sent = send(&mut sink, PRINTED);
            assert_eq!(rt; sent.is_ok(), capacity == PRINTED.len(), "of {capacity}");
            assert!(rt; sink.bytes() == &PRINTED[..capacity], "of {capacity}");
        }
    }
    Ok(())
}

#[test]
fn each_call_of_a_sending_may_fail(rt: HostRuntime) -> Result<(), Fail> {
    for taken in 0..PRINTED.len() {
        let fails = vec![in rt.alloc(); taken as u64 + 1]?;
        let mut sink = MemorySink::with_step(rt.alloc(), 100, fails, 1)?;
        assert_eq!(rt; send(&mut sink, PRINTED), Err(CannotWrite));
        assert!(rt; sink.bytes() == &PRINTED[..taken], "after {taken}");
    }
    let mut sink = MemorySink::new(rt.alloc(), 100, Vec::new(rt.alloc()))?;
    assert_eq!(rt; send(&mut sink, b"no\n"), Ok(()));
    assert_eq!(rt; send(&mut sink, b""), Ok(()));
    assert_eq!(rt; send(&mut sink, b"A,B,C\n"), Ok(()));
    assert_eq!(rt; sink.bytes(), b"no\nA,B,C\n".as_slice());
    Ok(())
}

// Of the calls of a file with two pieces, from 1, any may fail; then no file is open, and those
// finished before stay.
#[test]
fn each_call_of_a_folder_may_fail(rt: HostRuntime) -> Result<(), Fail> {
    for call in 1..=9u64 {
        let alloc = rt.alloc();
        let mut folder = MemoryFolder::new(alloc, Vec::from_slice(alloc, &[call])?);
        let first = write_file(&mut folder, b"a").is_ok();
        let second = write_file(&mut folder, b"b").is_ok();
        let finished = folder.finished_files();
        assert_eq!(rt; first && second, call > 8);
        assert!(rt; first || second);
        assert_eq!(rt; finished.len(), if call > 8 { 2 } else { 1 });
        for file in finished {
            assert_eq!(rt; file.bytes.as_slice(), b"no\nyes\n".as_slice());
        }
        assert!(rt; matches!(folder.visible(), Some(files) if files.len() == finished.len()));
    }
    Ok(())
}

// A file of two pieces, up to the first fault.
fn write_file<G: Folder>(folder: &mut G, name: &[u8]) -> Result<(), OutsideFault> {
    folder.begin(name)?;
    folder.write(b"no\n")?;
    folder.write(b"yes\n")?;
    folder.end()
}

// An output that takes nothing.
#[derive(Drop)]
struct Closed;

impl Print for Closed {
    fn print<D: Display + Drop>(&self, _value: D) -> io::Result<()> {
        Ok(())
    }

    fn println<D: Display + Drop>(&self, _value: D) -> io::Result<()> {
        Ok(())
    }

    fn write_all(&self, _bytes: &[u8]) -> io::Result<()> {
        Ok(())
    }

    fn write_some(&self, _bytes: &[u8]) -> io::Result<usize> {
        Ok(0)
    }
}

impl Eprint for Closed {
    fn eprint<D: Display + Drop>(&self, _value: D) -> io::Result<()> {
        Ok(())
    }

    fn eprintln<D: Display + Drop>(&self, _value: D) -> io::Result<()> {
        Ok(())
    }
}

impl Clock for Closed {
    fn monotonic(&self) -> io::Result<Duration> {
        Ok(Duration::ZERO)
    }

    fn since_1970(&self) -> io::Result<Duration> {
        Ok(Duration::ZERO)
    }
}

#[test]
fn an_output_that_takes_nothing_failed(rt: HostRuntime) {
    let mut sink = StdoutSink::new(Closed, ProgressLine::new(rt.alloc(), &rt));
    assert_eq!(rt; send(&mut sink, b"a text"), Err(CannotWrite));
}

#[test]
fn the_errors_have_texts(rt: HostRuntime) -> Result<(), Fail> {
    let text = format!(in rt.alloc();
        "{}, {}, {}, {}",
        Failed,
        OutsideFault::OutOfMemory,
        LoadRefusal::TooLong,
        CannotWrite
    )?;
    assert_eq!(rt;
        text.as_str(),
        "a call failed, out of memory, the file is too long, the text cannot be written"
    );
    Ok(())
}
