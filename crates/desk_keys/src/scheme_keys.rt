ghost use Rattle.std.specs.Prelude.{◌≡◌, ◌≤◌, [], ◌∷◌, ◌++◌, length, All, Contains, IfOk, IfErr, IfSome, OnOk};
ghost use Rattle.std.specs.List.{slice_range};
ghost use Rattle.attr_sets.specs.Attributes.{IsSubset};
ghost use Rattle.attr_sets.specs.Sets.{attributes};
ghost use Rattle.dep_model.specs.Plans.{schemes_of};
ghost use Rattle.schema_model.specs.Schemas.{universe_of, theory_in};
ghost use Rattle.schema_printer.specs.Spelling.{printed_names_of};
ghost use Rattle.plans.specs.Plans.{IsPlanOver, plan_of};
ghost use Rattle.desk_keys.specs.Keys.{EndsKeys, HasKeys, ListsKeysOfPlan, keyed_text, keys_text};
ghost use Rattle.desk_keys.specs.Keys.{too_many_scheme_keys_text};
ghost use Rattle.desk_keys.specs.KeyedLines.{AddsKeys, StandIn};
ghost use Rattle.desk_responses.specs.ResponseValues.{Says};
ghost use Rattle.desk_responses.specs.Responses.{RespondsAs, ExitsAs};

use attr_sets::AttrSet;
use dep_model::{Failure, OutOfMemory};
use desk_responses::{EarlyExit, Response, Status, put_set_line, too_wide_exit};
use desk_texts::line_of;
use key_listing::{SchemeKeyRefusal, keys_of_scheme};
use plans::Plan;
use schema_model::Schema;
use schema_printer::print_set;
use std::alloc::Global;

/// The keys of the schemes of a plan.
pub fn list_keys_of_plan(alloc: Global, schema: &Schema, plan: &Plan) -> Result<Response, EarlyExit>
    requires universe { IsPlanOver (theory_in schema.now) plan.now }
    ensures response { RespondsAs (ListsKeysOfPlan schema.now (plan_of plan.now)) result }
{
    list_keys_of_schemes(alloc, schema, plan.schemes())
}

// A scheme, and from where to where the lines with its keys stand in the text.
#[derive(Clone, Copy, Debug)]
pub struct KeyedLines {
    pub scheme: AttrSet,
    pub start: usize,
    pub end: usize,
}

// The keys of these schemes. Of equal schemes those of the first alone are sought.
fn list_keys_of_schemes(
    alloc: Global,
    schema: &Schema,
    schemes: &[AttrSet],
) -> Result<Response, EarlyExit>
    requires within { All (λ scheme. IsSubset (attributes scheme)
        (universe_of schema.now)) schemes.now }
    ensures response { RespondsAs (ListsKeysOfPlan schema.now (schemes_of schemes.now)) result }
{
    let mut text = Vec::new(alloc);
    let mut known = Vec::new(alloc);
    for scheme in schemes {
        match put_scheme_keys(alloc, &mut text, schema, *scheme, &mut known) {
            Ok(()) => {}
            Err(exit) => return Err(exit),
        }
    }
    Ok(Response::with_text(Status::Yes, text))
}

// Adds a scheme and its keys to a text. Where the text has those of an equal scheme, these lines are
// added again.
fn put_scheme_keys(
    alloc: Global,
    text: &mut Vec<u8>,
    schema: &Schema,
    scheme: AttrSet,
    known: &mut Vec<KeyedLines>,
) -> Result<(), EarlyExit>
    requires within { IsSubset (attributes scheme) (universe_of schema.now) }
    requires known { All (StandIn schema.now text.old.items) known.old.items }
    ensures added { OnOk result
        (AddsKeys schema.now (attributes scheme) text.old.items text.new.items) }
    ensures known { OnOk result (All (StandIn schema.now text.new.items) known.new.items) }
    ensures ends { IfErr result (ExitsAs (EndsKeys schema.now (attributes scheme))) }
{
    if let Some(lines) = lines_with_keys(known, scheme) {
        put_again(text, lines.start, lines.end)?;
        return Ok(());
    }
    let keys = match keys_or_stop(alloc, schema, scheme) {
        Ok(keys) => keys,
        Err(exit) => return Err(exit),
    };
    let start = text.len();
    put_keyed(text, schema, scheme, &keys)?;
    let end = text.len();
    keep_lines(known, KeyedLines { scheme, start, end })?;
    Ok(())
}

// Adds the lines of a scheme to those that are known.
fn keep_lines(known: &mut Vec<KeyedLines>, lines: KeyedLines) -> Result<(), OutOfMemory>
    ensures kept { OnOk result (known.new.items ≡ known.old.items ++ lines ∷ []) }
{
    known.push(lines)?;
    Ok(())
}

// Where the lines of a scheme stand that equals this one.
fn lines_with_keys(known: &[KeyedLines], scheme: AttrSet) -> Option<KeyedLines>
    ensures stand { IfSome result (Contains known.now) }
    ensures equal { IfSome result (λ lines. attributes lines.scheme ≡ attributes scheme) }
{
    for lines in known {
        if lines.scheme == scheme {
            return Some(*lines);
        }
    }
    None
}

// Adds a part of a text to it again.
fn put_again(text: &mut Vec<u8>, start: usize, end: usize) -> Result<(), OutOfMemory>
    requires ordered { start ≤ end }
    requires within { end ≤ length text.old.items }
    ensures added { OnOk result
        (text.new.items ≡ text.old.items ++ slice_range text.old.items start end) }
{
    text.extend_from_within(start..end)?;
    Ok(())
}

// All keys of a scheme.
fn keys_or_stop(alloc: Global, schema: &Schema, scheme: AttrSet) -> Result<Vec<AttrSet>, EarlyExit>
    requires within { IsSubset (attributes scheme) (universe_of schema.now) }
    ensures ok { IfOk result
        (λ keys. HasKeys schema.now (record { scheme = attributes scheme; keys = keys.items })) }
    ensures ends { IfErr result (ExitsAs (EndsKeys schema.now (attributes scheme))) }
{
    match keys_of_scheme(alloc, &schema.theory(), scheme) {
        Ok(keys) => Ok(keys),
        Err(Failure::Refused(SchemeKeyRefusal::TooManyKeys { .. })) => {
            Err(too_many_scheme_keys_exit(alloc, schema, scheme))
        }
        Err(Failure::Refused(SchemeKeyRefusal::TooWide)) => {
            Err(too_wide_exit(alloc, schema, scheme))
        }
        Err(Failure::OutOfMemory) => Err(EarlyExit::OutOfMemory),
    }
}

// A scheme has more keys than are listed.
fn too_many_scheme_keys_exit(alloc: Global, schema: &Schema, scheme: AttrSet) -> EarlyExit
    requires within { IsSubset (attributes scheme) (universe_of schema.now) }
    ensures says { ExitsAs (Says Status.Refused
        (too_many_scheme_keys_text (printed_names_of schema.now) (attributes scheme))) result }
{
    EarlyExit::with_text(
        Status::Refused,
        too_many_scheme_keys_line(alloc, schema, scheme),
    )
}

fn too_many_scheme_keys_line(
    alloc: Global,
    schema: &Schema,
    scheme: AttrSet,
) -> Result<Vec<u8>, OutOfMemory>
    requires within { IsSubset (attributes scheme) (universe_of schema.now) }
    ensures line { IfOk result (λ text. text.items
        ≡ too_many_scheme_keys_text (printed_names_of schema.now) (attributes scheme)) }
{
    line_of(
        alloc,
        b"refused: too many keys: scheme ",
        &print_set(alloc, schema, scheme)?,
        b"",
    )
}

// A scheme and its keys, each on a line at the end of a text.
fn put_keyed(
    text: &mut Vec<u8>,
    schema: &Schema,
    scheme: AttrSet,
    keys: &[AttrSet],
) -> Result<(), OutOfMemory>
    requires scheme { IsSubset (attributes scheme) (universe_of schema.now) }
    requires keys { All (λ key. IsSubset (attributes key) (universe_of schema.now)) keys.now }
    ensures added { OnOk result (text.new.items ≡ text.old.items
        ++ keyed_text (printed_names_of schema.now) (record { scheme = attributes scheme; keys = keys.now })) }
{
    put_set_line(text, schema, b"scheme ", scheme)?;
    put_keys(text, schema, keys)
}

// A line for each key, at the end of a text.
fn put_keys(text: &mut Vec<u8>, schema: &Schema, keys: &[AttrSet]) -> Result<(), OutOfMemory>
    requires within { All (λ key. IsSubset (attributes key) (universe_of schema.now)) keys.now }
    ensures added { OnOk result (text.new.items ≡ text.old.items
        ++ keys_text (printed_names_of schema.now) keys.now) }
{
    for key in keys {
        put_set_line(text, schema, b"key ", *key)?;
    }
    Ok(())
}
