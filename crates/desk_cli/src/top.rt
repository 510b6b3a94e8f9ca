ghost use Rattle.std.specs.Prelude.{◌≡◌, ◌≤◌, IfOk};
ghost use Rattle.desk_words.specs.Commands.{command_form};
ghost use Rattle.desk_cli.specs.Desk.{Desk, Delivered, Notes, is_answer, notice_text, source_in_call, sink_in_call};
ghost use Rattle.desk_cli.specs.Help.{hint_of};
ghost use Rattle.desk_delivery.specs.Outcomes.{destinations_in_call, folder_in_call};
ghost use Rattle.desk_outside.specs.FreeNames.{may_be_free};
ghost use Rattle.desk_cli.specs.FilesRead.{files_of_command, files_of_words};
ghost use Rattle.desk_cli.specs.Performs.{Performs, Answers};
ghost use Rattle.desk_inputs.specs.FileCalls.{Reads};
ghost use Rattle.desk_responses.specs.Responses.{response_value, RespondsAs};

use crate::help::{help, nearest_commands, version};
use crate::imports::{of_imported, of_sql};
use crate::references::{of_headed_files, of_two_headed};
use crate::tasks::{of_headed, of_whole, over_schema};
use arguments::Argument;
use dep_model::OutOfMemory;
use desk_delivery::deliver_tables;
use desk_outside::{FileSource, Folder, Sink, send};
use desk_responses::{EarlyExit, Response, Status};
use desk_tables::migrate_sample;
use desk_texts::line_of;
use desk_words::{Command, parse};
use destinations::Destination;
use row_store::Hashing;
use std::alloc::Global;

/// Answers the words over the files of the file source, in a status, a text that goes to the sink, and
/// tables that go to the destinations, or to a folder of their own, which is looked for, made and written in `own`.
/// The text of an answer that is neither yes nor no goes to the sink of notices too, and where the words form
/// no command the nearest lines of `help` after it; whether that can be written changes no status.
///
/// The words are those after the program's name. The whole text is made before its first byte is
/// written, and before the first call of a destination. The words are looked at first, then each file
/// in the order of the words (read, its length, its grammar), then the goal (its length, its grammar),
/// then the answer, then the destinations or the folder, then the sink; the first that applies
/// decides. The notice is written after the text. Values are hashed as the caller says, which changes no answer.
pub fn desk<F: FileSource, K: Sink, N: Sink, G: Folder>(
    alloc: Global,
    hashing: Hashing,
    words: &[Argument],
    source: &mut F,
    out: &mut K,
    notices: &mut N,
    destinations: &mut Vec<Destination<Box<dyn Folder>>>,
    own: &mut G,
) -> Result<Status, OutOfMemory>
    ensures desk { Desk words.now
        (source_in_call F.FileSource source.old source.new)
        (sink_in_call (K.contents out.old) (K.contents out.new) (K.faults out.old) (K.faults out.new))
        (sink_in_call (N.contents notices.old) (N.contents notices.new) (N.faults notices.old) (N.faults notices.new))
        (destinations_in_call ⟦<Box<dyn Folder> as Folder>⟧.state destinations.old.items destinations.new.items)
        (folder_in_call G.state own.old own.new)
        result }
{
    desk_over(
        alloc,
        hashing,
        words,
        source,
        out,
        notices,
        destinations,
        own,
    )
}

// The same over destinations of one type.
fn desk_over<F: FileSource, K: Sink, N: Sink, D: Folder, G: Folder>(
    alloc: Global,
    hashing: Hashing,
    words: &[Argument],
    source: &mut F,
    out: &mut K,
    notices: &mut N,
    destinations: &mut Vec<Destination<D>>,
    own: &mut G,
) -> Result<Status, OutOfMemory>
    ensures desk { Desk words.now
        (source_in_call F.FileSource source.old source.new)
        (sink_in_call (K.contents out.old) (K.contents out.new) (K.faults out.old) (K.faults out.new))
        (sink_in_call (N.contents notices.old) (N.contents notices.new) (N.faults notices.old) (N.faults notices.new))
        (destinations_in_call D.state destinations.old.items destinations.new.items)
        (folder_in_call G.state own.old own.new)
        result }
{
    let response = answer(alloc, hashing, words, source, own)?;
    let hint = hint(alloc, words)?;
    deliver(alloc, response, &hint, out, notices, destinations, own)
}

/// Writes the tables of a response to the destinations, or to a folder of their own, its text to the sink, and then
/// its notice, with a hint, to the sink of notices.
pub fn deliver<K: Sink, N: Sink, D: Folder, G: Folder>(
    alloc: Global,
    response: Response,
    hint: &[u8],
    out: &mut K,
    notices: &mut N,
    destinations: &mut Vec<Destination<D>>,
    own: &mut G,
) -> Result<Status, OutOfMemory>
    ensures delivers { Delivered
        (sink_in_call (K.contents out.old) (K.contents out.new) (K.faults out.old) (K.faults out.new))
        (sink_in_call (N.contents notices.old) (N.contents notices.new) (N.faults notices.old) (N.faults notices.new))
        hint.now
        (destinations_in_call D.state destinations.old.items destinations.new.items)
        (folder_in_call G.state own.old own.new)
        (response_value response) result }
{
    let end = deliver_tables(alloc, destinations, own, response)?;
    let sent = send(out, &end.text);
    note(notices, end.status, &end.text, hint);
    match sent {
        Ok(()) => Ok(end.status),
        Err(_) => Ok(Status::CannotWrite),
    }
}

// Writes the notice of an outcome: its text and a hint, where it is neither yes nor no. What cannot be written is
// passed over.
fn note<N: Sink>(notices: &mut N, status: Status, text: &[u8], hint: &[u8])
    ensures notes { Notes
        (sink_in_call (N.contents notices.old) (N.contents notices.new) (N.faults notices.old) (N.faults notices.new))
        (notice_text hint.now (record { status = status; text = text.now })) }
    ensures later { N.faults notices.old ≤ N.faults notices.new }
{
    if is_answer(status) {
        return;
    }
    match send(notices, text) {
        Ok(()) => send_hint(notices, hint),
        Err(_) => {}
    }
}

fn send_hint<N: Sink>(notices: &mut N, hint: &[u8])
    ensures notes { Notes
        (sink_in_call (N.contents notices.old) (N.contents notices.new) (N.faults notices.old) (N.faults notices.new))
        hint.now }
    ensures later { N.faults notices.old ≤ N.faults notices.new }
{
    match send(notices, hint) {
        Ok(()) => {}
        Err(_) => {}
    }
}

fn is_answer(status: Status) -> bool
    ensures answer { result ≡ is_answer status }
{
    match status {
        Status::Yes | Status::No => true,
        Status::Refused | Status::CannotRead | Status::CannotWrite | Status::DestinationFailed =>
            false,
    }
}

// What is shown beside the refusal of words that form no command.
fn hint(alloc: Global, words: &[Argument]) -> Result<Vec<u8>, OutOfMemory>
    ensures hint { IfOk result (λ text. text.items ≡ hint_of words.now) }
{
    match parse(words) {
        None => nearest_commands(alloc, words),
        Some(_) => Ok(Vec::new(alloc)),
    }
}

/// The response to the words.
fn answer<F: FileSource, G: Folder>(
    alloc: Global,
    hashing: Hashing,
    words: &[Argument],
    source: &mut F,
    place: &G,
) -> Result<Response, OutOfMemory>
    ensures reads { Reads F.FileSource source.old source.new (files_of_words words.now)
        (λ r. IfOk result (λ response. Answers (may_be_free (G.state place.now).contents) r words.now
        (response_value response))) }
{
    match parse(words) {
        None => Ok(Response::with_text(
            Status::Refused,
            line_of(alloc, b"refused: the words form no command", b"", b"")?,
        )),
        Some(command) => match perform(alloc, hashing, command, source, place) {
            Ok(response) => Ok(response),
            Err(EarlyExit::Answered(response)) => Ok(response),
            Err(EarlyExit::OutOfMemory) => Err(OutOfMemory),
        },
    }
}

/// Performs a command.
#[tactic(auto, unfolding(crate::specs::Performs::Performs))]
fn perform<F: FileSource, G: Folder>(
    alloc: Global,
    hashing: Hashing,
    command: Command<'_>,
    source: &mut F,
    place: &G,
) -> Result<Response, EarlyExit>
    ensures reads { Reads F.FileSource source.old source.new (files_of_command (command_form command.entry))
        (λ r. RespondsAs (Performs (may_be_free (G.state place.now).contents) r (command_form command.entry)) result) }
{
    match command {
        Command::OverSchema { schema, task } => over_schema(
            alloc, hashing, source, place, schema, task,
        ),
        Command::Discover { question, file } => {
            of_headed(alloc, hashing, source, file, question)
        }
        Command::DiscoverAll { file } => of_whole(alloc, hashing, source, file),
        Command::DiscoverReferences { files } => of_headed_files(alloc, hashing, source, files),
        Command::CheckReferences {
            file,
            names,
            other,
            other_names,
        } => of_two_headed(alloc, hashing, source, file, names, other, other_names),
        Command::ImportCsv { file } => of_imported(alloc, source, file),
        Command::ImportSql {
            dialect,
            file,
            table,
        } => of_sql(alloc, source, dialect, file, table),
        Command::Sample { persons } => migrate_sample(alloc, hashing, persons),
        Command::Help => help(alloc),
        Command::Version => version(alloc),
    }
}
