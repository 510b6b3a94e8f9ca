ghost use Rattle.std.specs.Prelude.{◌≡◌, ◌↔◌, ◌≤◌, ◌++◌, ℕ, true, false, All, IfOk, codes, length};
ghost use Rattle.attr_sets.specs.Attributes.{below, IsSubset};
ghost use Rattle.attr_sets.specs.Sets.{attributes};
ghost use Rattle.attr_sets.specs.declared.set.TheConstants.{MOST_ATTRIBUTES};
ghost use Rattle.schema_model.specs.Schemas.{width_of, theory_of, universe_of, theory_in};
ghost use Rattle.key_listing.specs.Listing.{AreAllKeys};
ghost use Rattle.key_listing.specs.Refusals.{IsTooWide};
ghost use Rattle.key_listing.specs.declared.refusal.TheConstants.{MOST_KEYS};
ghost use Rattle.schema_printer.specs.Spelling.{printed_names_of};
ghost use Rattle.desk_texts.specs.Texts.{set_line};
ghost use Rattle.desk_keys.specs.KeyReasons.{AreKeyReasons, ExplainsKeys};
ghost use Rattle.desk_responses.specs.Responses.{response_value, RespondsAs};

use crate::keys::{keys_exit, set_lines};
use attr_sets::AttrSet;
use byte_texts::add;
use dep_model::{Failure, OutOfMemory};
use desk_responses::{EarlyExit, Response, Status, put_set_line};
use key_listing::keys;
use schema_model::Schema;
use std::alloc::Global;

/// All keys of a schema's universe, below what they have in common and what is in none of them.
pub fn explain_keys(alloc: Global, schema: &Schema) -> Result<Response, EarlyExit>
    ensures response { RespondsAs (ExplainsKeys schema.now) result }
{
    match keys(alloc, &schema.theory()) {
        Ok(keys) => Ok(explained_keys(alloc, schema, &keys)?),
        Err(Failure::Refused(refusal)) => Err(keys_exit(alloc, schema, &refusal)),
        Err(Failure::OutOfMemory) => Err(EarlyExit::OutOfMemory),
    }
}

fn explained_keys(alloc: Global, schema: &Schema, keys: &[AttrSet]) -> Result<Response, OutOfMemory>
    requires keys { AreAllKeys (width_of schema.now) (theory_of schema.now) (universe_of schema.now)
        keys.now }
    requires within_limit { length keys.now ≤ MOST_KEYS }
    requires narrow { IsTooWide (theory_in schema.now) → ⊥ }
    ensures response { IfOk result (λ response. ExplainsKeys schema.now (response_value response)) }
{
    let mut text = print_key_reasons(alloc, schema, keys)?;
    let plain = set_lines(alloc, schema, keys)?;
    add(&mut text, &plain)?;
    Ok(Response::with_text(Status::Yes, text))
}

/// What the keys have in common, and what is in none of them, as text.
pub fn print_key_reasons(
    alloc: Global,
    schema: &Schema,
    keys: &[AttrSet],
) -> Result<Vec<u8>, OutOfMemory>
    requires keys { AreAllKeys (width_of schema.now) (theory_of schema.now) (universe_of schema.now)
        keys.now }
    ensures text { IfOk result (λ text. AreKeyReasons schema.now text.items) }
{
    let common = in_every_set(schema.width(), keys);
    let absent = in_no_set(schema.width(), keys);
    let text = print_reasons(alloc, schema, common, absent)?;
    Ok(text)
}

fn print_reasons(
    alloc: Global,
    schema: &Schema,
    common: AttrSet,
    absent: AttrSet,
) -> Result<Vec<u8>, OutOfMemory>
    requires common { IsSubset (attributes common) (universe_of schema.now) }
    requires absent { IsSubset (attributes absent) (universe_of schema.now) }
    ensures text { IfOk result (λ text. text.items
        ≡ set_line (codes "# in every key: ") (printed_names_of schema.now) (attributes common)
        ++ set_line (codes "# in no key: ") (printed_names_of schema.now) (attributes absent)) }
{
    let mut text = Vec::new(alloc);
    put_set_line(&mut text, schema, b"# in every key: ", common)?;
    put_set_line(&mut text, schema, b"# in no key: ", absent)?;
    Ok(text)
}

// What all of some sets have in common.
fn in_every_set(width: u8, sets: &[AttrSet]) -> AttrSet
    requires width { width ≤ MOST_ATTRIBUTES }
    ensures common { (a : ℕ) → (attributes result a ≡ true)
        ↔ ((below width a ≡ true) × All (λ set. attributes set a ≡ true) sets.now) }
{
    let mut common = AttrSet::full(width);
    for set in sets {
        common = common.intersection(*set);
    }
    common
}

// What is in none of some sets.
fn in_no_set(width: u8, sets: &[AttrSet]) -> AttrSet
    requires width { width ≤ MOST_ATTRIBUTES }
    ensures absent { (a : ℕ) → (attributes result a ≡ true)
        ↔ ((below width a ≡ true) × All (λ set. attributes set a ≡ false) sets.now) }
{
    let mut absent = AttrSet::full(width);
    for set in sets {
        absent = absent.difference(*set);
    }
    absent
}
