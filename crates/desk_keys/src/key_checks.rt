ghost use Rattle.std.specs.Prelude.{◌≡◌, ◌++◌, ◌<◌, All, IfOk, OnOk};
ghost use Rattle.std.specs.List.{flat_map};
ghost use Rattle.attr_sets.specs.Attributes.{IsSubset};
ghost use Rattle.attr_sets.specs.Sets.{attributes};
ghost use Rattle.dep_basis.specs.Decisions.{IsBrokenBy};
ghost use Rattle.dep_model.specs.Dependencies.{fd};
ghost use Rattle.dep_model.specs.Keys.{IsSuperkey};
ghost use Rattle.schema_model.specs.Schemas.{width_of, universe_of, theory_of};
ghost use Rattle.schema_printer.specs.Spelling.{printed_names_of};
ghost use Rattle.typed_rows.specs.Shown.{shown_tuples};
ghost use Rattle.desk_keys.specs.KeyChecks.{ChecksKey, TestsKey, IsKeyText, IsNoSuperkey, key_within_text};
ghost use Rattle.desk_keys.specs.KeyChecks.{no_superkey_text, without_text};
ghost use Rattle.desk_responses.specs.Responses.{response_value, RespondsAs};

use arguments::Argument;
use attr_sets::AttrSet;
use byte_texts::add;
use closure_steps::{Without, closures_without};
use dep_basis::{Decision, closure, decide};
use dep_model::{Dep, OutOfMemory};
use desk_arguments::set_of;
use desk_responses::{EarlyExit, Response, Status};
use key_listing::one_key;
use schema_model::Schema;
use schema_printer::add_set;
use std::alloc::Global;
use typed_rows::print_two_rows;

/// Whether a set is a key of the universe by all dependencies, and why.
pub fn check_key(alloc: Global, schema: &Schema, set: &Argument) -> Result<Response, EarlyExit>
    ensures response { RespondsAs (ChecksKey schema.now set.now) result }
{
    let key = match set_of(alloc, schema, set) {
        Ok(key) => key,
        Err(exit) => return Err(exit),
    };
    Ok(test_key(alloc, schema, key)?)
}

// The answer to a set.
fn test_key(alloc: Global, schema: &Schema, set: AttrSet) -> Result<Response, OutOfMemory>
    requires within { IsSubset (attributes set) (universe_of schema.now) }
    ensures response { IfOk result (λ response. TestsKey schema.now (attributes set)
        (response_value response)) }
{
    let goal = Dep::Fd {
        lhs: set,
        rhs: AttrSet::full(schema.width()),
    };
    match decide(&schema.theory(), goal) {
        Decision::Implied => superkey_response(alloc, schema, set),
        Decision::Broken { agreement } => {
            let text = no_superkey_lines(alloc, schema, set, agreement)?;
            Ok(Response::with_text(Status::No, text))
        }
    }
}

// A set that determines the universe: it is a key, or a key lies within.
fn superkey_response(alloc: Global, schema: &Schema, set: AttrSet) -> Result<Response, OutOfMemory>
    requires within { IsSubset (attributes set) (universe_of schema.now) }
    requires superkey { IsSuperkey (width_of schema.now) (theory_of schema.now) (universe_of schema.now)
        (attributes set) }
    ensures response { IfOk result (λ response. TestsKey schema.now (attributes set)
        (response_value response)) }
{
    let key = one_key(&schema.theory(), set);
    if key == set {
        let text = key_lines(alloc, schema, set)?;
        return Ok(Response::with_text(Status::Yes, text));
    }
    let text = key_within_line(alloc, schema, set, key)?;
    Ok(Response::with_text(Status::No, text))
}

// A key, and what it determines without each of its attributes.
fn key_lines(alloc: Global, schema: &Schema, key: AttrSet) -> Result<Vec<u8>, OutOfMemory>
    requires within { IsSubset (attributes key) (universe_of schema.now) }
    ensures text { IfOk result (λ text. IsKeyText schema.now (attributes key) text.items) }
{
    let found = closures_without(alloc, &schema.theory(), key)?;
    let mut text = Vec::new(alloc);
    add_set(&mut text, schema, key)?;
    add(&mut text, b" is a key")?;
    add(&mut text, b"\n")?;
    put_without(alloc, &mut text, schema, &found)?;
    Ok(text)
}

// A line for each attribute of a set and what the others determine, at the end of a text.
fn put_without(
    alloc: Global,
    text: &mut Vec<u8>,
    schema: &Schema,
    found: &[Without],
) -> Result<(), OutOfMemory>
    requires attributes { All (λ one. one.attribute < width_of schema.now) found.now }
    requires within { All (λ one. IsSubset (attributes one.closed) (universe_of schema.now)) found.now }
    ensures added { OnOk result (text.new.items
        ≡ text.old.items ++ flat_map (without_text (printed_names_of schema.now)) found.now) }
{
    for one in found {
        add(text, &without_line(alloc, schema, *one)?)?;
    }
    Ok(())
}

fn without_line(alloc: Global, schema: &Schema, without: Without) -> Result<Vec<u8>, OutOfMemory>
    requires attribute { without.attribute < width_of schema.now }
    requires within { IsSubset (attributes without.closed) (universe_of schema.now) }
    ensures text { IfOk result (λ text. text.items
        ≡ without_text (printed_names_of schema.now) without) }
{
    let mut text = Vec::new(alloc);
    add(&mut text, b"without ")?;
    add_set(&mut text, schema, AttrSet::single(without.attribute))?;
    add(&mut text, b": closure ")?;
    add_set(&mut text, schema, without.closed)?;
    add(&mut text, b"\n")?;
    Ok(text)
}

// A set that does not determine the universe, with two tuples that agree just on a set and show it.
fn no_superkey_lines(
    alloc: Global,
    schema: &Schema,
    set: AttrSet,
    agreement: AttrSet,
) -> Result<Vec<u8>, OutOfMemory>
    requires within { IsSubset (attributes set) (universe_of schema.now) }
    requires broken { IsBrokenBy (width_of schema.now) (theory_of schema.now)
        (fd (attributes set) (universe_of schema.now)) (attributes agreement) }
    ensures text { IfOk result (λ text. IsNoSuperkey schema.now (attributes set) text.items) }
{
    let missing = AttrSet::full(schema.width()).difference(closure(&schema.theory(), set));
    let text = print_no_superkey(alloc, schema, set, missing, agreement)?;
    Ok(text)
}

fn print_no_superkey(
    alloc: Global,
    schema: &Schema,
    set: AttrSet,
    missing: AttrSet,
    agreement: AttrSet,
) -> Result<Vec<u8>, OutOfMemory>
    requires agreement { IsSubset (attributes agreement) (universe_of schema.now) }
    ensures text { IfOk result (λ text. text.items
        ≡ no_superkey_text schema.now (attributes set) (attributes missing)
        (shown_tuples schema.now (attributes agreement))) }
{
    let mut text = Vec::new(alloc);
    add_set(&mut text, schema, set)?;
    add(&mut text, b" is no key: it does not determine ")?;
    add_set(&mut text, schema, missing)?;
    add(&mut text, b"\n")?;
    add(&mut text, b"shown by")?;
    add(&mut text, b"\n")?;
    add(&mut text, &print_two_rows(alloc, schema, agreement)?)?;
    Ok(text)
}

// A set with a key within it.
fn key_within_line(
    alloc: Global,
    schema: &Schema,
    set: AttrSet,
    key: AttrSet,
) -> Result<Vec<u8>, OutOfMemory>
    requires set { IsSubset (attributes set) (universe_of schema.now) }
    requires key { IsSubset (attributes key) (universe_of schema.now) }
    ensures text { IfOk result (λ text. text.items
        ≡ key_within_text (printed_names_of schema.now) (attributes set) (attributes key)) }
{
    let mut text = Vec::new(alloc);
    add_set(&mut text, schema, set)?;
    add(&mut text, b" is no key: ")?;
    add_set(&mut text, schema, key)?;
    add(&mut text, b" is one within it")?;
    add(&mut text, b"\n")?;
    Ok(text)
}
