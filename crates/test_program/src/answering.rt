use crate::calls::{
    Destinations, File, call, call_noted, csv_files, failing_folder, slow_sink, slow_source,
};
use desk_responses::Status;
use std::alloc::Global;
use std::process::Abort;
use std::test::Fail;

const CHAIN: &[u8] = b"attributes A B C\nA -> B\nB -> C\n";

const YES: &[u8] = b"yes
1: A -> A : reflexivity
2: A -> B : given 1
3: A -> A B : augmentation 2 with A
4: A -> A B : transitivity 1 3
5: B -> C : given 2
6: A B -> A B C : augmentation 5 with A B
7: A -> A B C : transitivity 4 6
8: A B C -> C : reflexivity
9: A -> C : transitivity 7 8
";

const FILES: [File; 2] = [(b"s", CHAIN), (b"p", YES)];

// The calls for a file of 31 bytes are one begin, 31 reads of a byte, and one that finds the end.
const SCHEMA_CALLS: u64 = 33;

const PROOF_CALLS: u64 = 2 + YES.len() as u64;

const IMPLIES: [&[u8]; 3] = [b"implies", b"s", b"A -> C"];

const CHECK_PROOF: [&[u8]; 5] = [b"check", b"proof", b"s", b"p", b"A -> C"];

// What a call of the words answers over a file source that fails at this call.
fn check(
    rt: &(impl Alloc<A = Global> + Abort),
    failing: u64,
    words: &[&[u8]],
    answer: (Status, &[u8]),
) -> Result<(), Fail> {
    let (status, text) = answer;
    let alloc = rt.alloc();
    let mut source = slow_source(alloc, &FILES, &[failing])?;
    let mut sink = slow_sink(alloc, 1000)?;
    let mut destinations: Destinations = Vec::new(alloc);
    let ended = call(alloc, words, &mut source, &mut sink, &mut destinations)?;
    assert!(rt; ended == status, "{words:?}, at {failing}");
    assert_eq!(rt; sink.bytes(), text);
    Ok(())
}

#[test]
fn each_call_for_the_schema_may_fail(rt: HostRuntime) -> Result<(), Fail> {
    let text: &[u8] = b"cannot read s\n";
    for failing in 1..=SCHEMA_CALLS {
        check(&rt, failing, &IMPLIES, (Status::CannotRead, text))?;
        check(&rt, failing, &CHECK_PROOF, (Status::CannotRead, text))?;
    }
    check(&rt, SCHEMA_CALLS + 1, &IMPLIES, (Status::Yes, YES))
}

#[test]
fn each_call_for_the_certificate_may_fail(rt: HostRuntime) -> Result<(), Fail> {
    let text: &[u8] = b"cannot read p\n";
    for failing in 1..=PROOF_CALLS {
        let at = SCHEMA_CALLS + failing;
        check(&rt, at, &CHECK_PROOF, (Status::CannotRead, text))?;
    }
    let text: &[u8] = b"checked A -> C\n";
    let at = SCHEMA_CALLS + PROOF_CALLS + 1;
    check(&rt, at, &CHECK_PROOF, (Status::Yes, text))
}

// A full sink holds just the front of the text.
fn check_full(rt: &(impl Alloc<A = Global> + Abort), capacity: usize) -> Result<(), Fail> {
    let alloc = rt.alloc();
    let mut source = slow_source(alloc, &FILES, &[])?;
    let mut sink = slow_sink(alloc, capacity)?;
    let mut destinations: Destinations = Vec::new(alloc);
    let ended = call(alloc, &IMPLIES, &mut source, &mut sink, &mut destinations)?;
    assert!(rt; ended == Status::CannotWrite);
    assert!(rt; YES.get(..capacity) == Some(sink.bytes()), "of {capacity}");
    Ok(())
}

#[test]
fn a_full_sink_holds_a_prefix(rt: HostRuntime) -> Result<(), Fail> {
    for capacity in 0..YES.len() {
        check_full(&rt, capacity)?;
    }
    Ok(())
}

const NOTICE: &[u8] = b"refused: the words form no command
desk explain implies SCHEMA GOAL      the same with a derivation as one writes it by hand, in few lines
desk explain COMMAND                  reasons above what COMMAND prints: cover, keys, synthesize, synthesize fewest, split bcnf or split 4nf
";

// A full sink of notices holds just the front of a notice, and changes no status.
fn check_notice(rt: &(impl Alloc<A = Global> + Abort), capacity: usize) -> Result<(), Fail> {
    let alloc = rt.alloc();
    let mut source = slow_source(alloc, &FILES, &[])?;
    let mut sink = slow_sink(alloc, 1000)?;
    let mut notices = slow_sink(alloc, capacity)?;
    let mut destinations: Destinations = Vec::new(alloc);
    let ended = call_noted(
        alloc,
        &[b"explain"],
        &mut source,
        &mut sink,
        &mut notices,
        &mut destinations,
    )?;
    assert!(rt; ended == Status::Refused);
    assert_eq!(rt;
        sink.bytes(),
        b"refused: the words form no command\n".as_slice()
    );
    assert!(rt;
        NOTICE.get(..capacity) == Some(notices.bytes()),
        "of {capacity}"
    );
    Ok(())
}

#[test]
fn a_notice_that_cannot_be_written_changes_no_status(rt: HostRuntime) -> Result<(), Fail> {
    for capacity in 0..=NOTICE.len() {
        check_notice(&rt, capacity)?;
    }
    Ok(())
}

// A destination that would fail at its first call is not called where there are no tables.
#[test]
fn destinations_are_not_called_without_tables(rt: HostRuntime) -> Result<(), Fail> {
    let alloc = rt.alloc();
    for goal in [b"A -> C".as_slice(), b"C -> A", b"no goal"] {
        let mut source = slow_source(alloc, &FILES, &[])?;
        let mut sink = slow_sink(alloc, 1000)?;
        let mut destinations: Destinations = Vec::new(alloc);
        destinations.push(csv_files(Box::new(alloc, failing_folder(alloc, &[1])?)?))?;
        let words: &[&[u8]] = &[b"implies", b"s", goal];
        let status = call(alloc, words, &mut source, &mut sink, &mut destinations)?;
        assert!(rt; status != Status::DestinationFailed);
        assert_eq!(rt; destinations.len(), 1);
    }
    Ok(())
}
