ghost use Rattle.std.specs.Prelude.{◌≡◌, ◌≤◌, ◌+◌, ◌*◌, [], ◌++◌, true, false, is_ok, length, codes, Some, option_map, IfOk, OnOk, OnErr, vec_capacity};
ghost use Rattle.std.specs.Fmt.{decimal};
ghost use Rattle.std.specs.List.{list_any, list_all};
ghost use Rattle.named_tables.specs.Tables.{table_values};
ghost use Rattle.desk_responses.specs.ResponseValues.{ResponseValue};
ghost use Rattle.desk_delivery.specs.declared.finish.TheConstants.{LINE};
ghost use Rattle.desk_delivery.specs.Outcomes.{destinations_in_call, end_text, failures_text, folder_in_call, is_out_of_memory, outcome_of_response, outcome_value, reported_outcome, yes_outcome, AllStays, ComesTo, LeavesPart, Written, WritesTables};
ghost use Rattle.desk_responses.specs.Responses.{own_folder_value, response_value};
ghost use Rattle.desk_texts.specs.Texts.{line};

use dep_model::OutOfMemory;
use desk_outside::{Folder, OutsideFault};
use desk_responses::{OwnFolder, Response, Status};
use destinations::Destination;
use itoa::Buffer;
use named_tables::ChosenTables;
use own_folder::write_own_folder;
use std::alloc::Global;
use table_writing::write_tables_to_list;

// The most bytes of the line for a destination that failed.
const LINE: usize = 40;

/// What the whole call ends with: a status, and the text that is written.
#[derive(Debug, Drop)]
pub struct Outcome {
    pub status: Status,
    pub text: Vec<u8>,
}

/// Writes the tables of a response, if it has any, to the destinations, or to a folder of their own.
pub fn deliver_tables<D: Folder, G: Folder>(
    alloc: Global,
    destinations: &mut Vec<Destination<D>>,
    own: &mut G,
    response: Response,
) -> Result<Outcome, OutOfMemory>
    ensures ends { IfOk result
        (λ end. ComesTo (destinations_in_call D.state destinations.old.items destinations.new.items)
        (folder_in_call G.state own.old own.new) (response_value response) (outcome_value end)) }
    ensures err { OnErr result
        (LeavesPart (destinations_in_call D.state destinations.old.items destinations.new.items)
        (folder_in_call G.state own.old own.new) (response_value response)) }
    ensures count { length destinations.new.items ≡ length destinations.old.items }
{
    let Response {
        status,
        text,
        tables,
        own: into,
    } = response;
    match tables {
        None => Ok(Outcome { status, text }),
        Some(tables) => hand_over(alloc, destinations, own, text, &into, &tables),
    }
}

// Writes these tables, and then answers this text, or which destinations failed.
//
// All memory but that of the writing is taken before the first call of a destination.
fn hand_over<D: Folder, G: Folder>(
    alloc: Global,
    destinations: &mut Vec<Destination<D>>,
    own: &mut G,
    text: Vec<u8>,
    into: &Option<OwnFolder>,
    tables: &ChosenTables,
) -> Result<Outcome, OutOfMemory>
    ensures ends { (response : ResponseValue) → outcome_of_response response ≡ yes_outcome text.items
        → response.own ≡ option_map own_folder_value into.now
        → IfOk result (λ end. WritesTables
        (destinations_in_call D.state destinations.old.items destinations.new.items)
        (folder_in_call G.state own.old own.new) response (outcome_value end) (table_values tables.now)) }
    ensures err { (response : ResponseValue) → response.tables ≡ Some (table_values tables.now)
        → response.own ≡ option_map own_folder_value into.now
        → OnErr result (LeavesPart
        (destinations_in_call D.state destinations.old.items destinations.new.items)
        (folder_in_call G.state own.old own.new) response) }
    ensures count { length destinations.new.items ≡ length destinations.old.items }
{
    let most = destinations.len().saturating_add(2);
    let room = Vec::with_capacity(alloc, most.saturating_mul(LINE))?;
    let ends = write_tables(alloc, destinations, own, into, tables)?;
    report(text, room, &ends)
}

// Writes these tables to the destinations, or to a folder of their own.
fn write_tables<D: Folder, G: Folder>(
    alloc: Global,
    destinations: &mut Vec<Destination<D>>,
    own: &mut G,
    into: &Option<OwnFolder>,
    tables: &ChosenTables,
) -> Result<Vec<Result<(), OutsideFault>>, OutOfMemory>
    ensures written { IfOk result (λ ends. Written
        (destinations_in_call D.state destinations.old.items destinations.new.items)
        (folder_in_call G.state own.old own.new) (option_map own_folder_value into.now)
        (table_values tables.now) ends.items) }
    ensures err { OnErr result (AllStays
        (destinations_in_call D.state destinations.old.items destinations.new.items)
        (folder_in_call G.state own.old own.new)) }
    ensures ends { IfOk result (λ ends. length ends.items ≤ length destinations.old.items + 2) }
    ensures count { length destinations.new.items ≡ length destinations.old.items }
{
    match into {
        None => write_tables_to_list(alloc, destinations, tables),
        Some(folder) => write_own_folder(alloc, own, &folder.name, &folder.script, tables),
    }
}

// What is answered after destinations ended so. The text of a failure is written into the room.
fn report(
    text: Vec<u8>,
    room: Vec<u8>,
    ends: &[Result<(), OutsideFault>],
) -> Result<Outcome, OutOfMemory>
    requires empty { room.items ≡ [] }
    requires has_room { length ends.now * LINE ≤ vec_capacity room }
    ensures memory { OnOk result (list_any is_out_of_memory ends.now ≡ false) }
    ensures wanted { OnErr result (list_any is_out_of_memory ends.now ≡ true) }
    ensures reports { (response : ResponseValue) → outcome_of_response response ≡ yes_outcome text.items
        → IfOk result (λ end. outcome_value end ≡ reported_outcome response ends.now) }
{
    if any_out_of_memory(ends) {
        return Err(OutOfMemory);
    }
    if all_are_done(ends) {
        return Ok(Outcome {
            status: Status::Yes,
            text,
        });
    }
    Ok(Outcome {
        status: Status::DestinationFailed,
        text: failures(room, ends),
    })
}

fn any_out_of_memory(ends: &[Result<(), OutsideFault>]) -> bool
    ensures any_out_of_memory { result ≡ list_any is_out_of_memory ends.now }
{
    ends.iter().any(|end| is_out_of_memory(*end))
}

fn all_are_done(ends: &[Result<(), OutsideFault>]) -> bool
    ensures all_done { result ≡ list_all is_ok ends.now }
{
    ends.iter().all(|end| end.is_ok())
}

fn is_out_of_memory(end: Result<(), OutsideFault>) -> bool
    ensures is { result ≡ is_out_of_memory end }
{
    match end {
        Err(OutsideFault::OutOfMemory) => true,
        Ok(()) | Err(OutsideFault::Failed) => false,
    }
}

// A line for each destination that failed, counted from 1.
fn failures(mut text: Vec<u8>, ends: &[Result<(), OutsideFault>]) -> Vec<u8>
    requires empty { text.items ≡ [] }
    requires has_room { length ends.now * LINE ≤ vec_capacity text }
    ensures lines { result.items ≡ failures_text 1 ends.now }
{
    for (i, end) in ends.iter().enumerate() {
        put_end(&mut text, i + 1, *end);
    }
    text
}

// What is said of the destination of this number, at the end of a text with room for a line.
fn put_end(text: &mut Vec<u8>, number: usize, end: Result<(), OutsideFault>)
    requires has_room { length text.old.items + LINE ≤ vec_capacity text.old }
    ensures added { text.new.items ≡ text.old.items ++ end_text number end }
    ensures at_most_a_line { length text.new.items ≤ length text.old.items + LINE }
    ensures keeps { vec_capacity text.old ≤ vec_capacity text.new }
{
    match end {
        Err(OutsideFault::Failed) => put_failure(text, number),
        Ok(()) | Err(OutsideFault::OutOfMemory) => {}
    }
}

// The line for the destination of this number, at the end of a text with room for it.
fn put_failure(text: &mut Vec<u8>, number: usize)
    requires has_room { length text.old.items + LINE ≤ vec_capacity text.old }
    ensures added { text.new.items
        ≡ text.old.items ++ line (codes "target " ++ decimal number ++ codes " failed") }
    ensures at_most_a_line { length text.new.items ≤ length text.old.items + LINE }
    ensures keeps { vec_capacity text.old ≤ vec_capacity text.new }
{
    put_within(text, b"target ");
    put_within(text, Buffer::new().format(number).as_bytes());
    put_within(text, b" failed\n");
}

// Bytes more at the end of a text with room for them.
fn put_within(text: &mut Vec<u8>, bytes: &[u8])
    requires has_room { length text.old.items + length bytes.now ≤ vec_capacity text.old }
    ensures added { text.new.items ≡ text.old.items ++ bytes.now }
    ensures longer { length text.new.items ≡ length text.old.items + length bytes.now }
    ensures keeps { vec_capacity text.old ≤ vec_capacity text.new }
{
    text.extend_from_slice(bytes).unwrap();
}
