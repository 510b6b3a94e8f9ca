//! The section on the keys.

ghost use Rattle.std.specs.Prelude.{◌≡◌, ◌≤◌, ◌++◌, codes, length, IfOk, OnOk};
ghost use Rattle.dep_model.specs.declared.failure.Failure.TheVariants as failed;
ghost use Rattle.html_pages.specs.Commands.{shell_word};
ghost use Rattle.html_pages.specs.Pages.{title_with_words};
ghost use Rattle.key_listing.specs.Listing.{AreAllKeys};
ghost use Rattle.key_listing.specs.Refusals.{IsRefusedListing, IsTooWide};
ghost use Rattle.key_listing.specs.declared.refusal.TheConstants.{MOST_KEYS};
ghost use Rattle.schema_model.specs.Schemas.{theory_in, theory_of, universe_of, width_of};
ghost use Rattle.desk_keys.specs.KeyReasons.{ExplainsKeys};
ghost use Rattle.desk_keys.specs.Keys.{ListsKeys};
ghost use Rattle.desk_reports.specs.Answers.{Adds, AreFoundKeys};
ghost use Rattle.desk_reports.specs.Pieces.{OpensExplained};
ghost use Rattle.desk_reports.specs.Reports.{KeysSection};

use crate::found::FoundKeys;
use crate::pieces::{put_explained, text_of, title_of};
use arguments::Argument;
use attr_sets::AttrSet;
use byte_texts::add;
use dep_model::OutOfMemory;
use desk_keys::{keys_exit, print_key_reasons, set_lines};
use html_pages::add_heading;
use key_listing::KeyRefusal;
use schema_model::Schema;
use std::alloc::Global;

/// Adds the section on the keys of a schema.
pub fn put_keys_section(
    alloc: Global,
    text: &mut Vec<u8>,
    schema: &Schema,
    file: &Argument,
    found: &FoundKeys,
) -> Result<(), OutOfMemory>
    requires found { AreFoundKeys schema.now found.now }
    ensures added { OnOk result (Adds (KeysSection file.now schema.now) text.old.items text.new.items) }
{
    let title = title_of(alloc, b"What identifies a row", b"keys ", file)?;
    add_heading(text, b"Keys")?;
    put_found_keys(alloc, text, schema, &title, found)?;
    Ok(())
}

// Adds the keys that were found, or why they are not listed.
fn put_found_keys(
    alloc: Global,
    text: &mut Vec<u8>,
    schema: &Schema,
    title: &[u8],
    found: &FoundKeys,
) -> Result<(), OutOfMemory>
    requires found { AreFoundKeys schema.now found.now }
    ensures added { OnOk result (Adds (OpensExplained title.now (ListsKeys schema.now) (ExplainsKeys schema.now))
        text.old.items text.new.items) }
{
    match found {
        FoundKeys::Listed(keys) => put_keys(alloc, text, schema, title, keys),
        FoundKeys::Refused(refusal) => put_refused_keys(alloc, text, schema, title, refusal),
    }
}

// Adds all keys, and what they have in common and what is in none.
fn put_keys(
    alloc: Global,
    text: &mut Vec<u8>,
    schema: &Schema,
    title: &[u8],
    keys: &[AttrSet],
) -> Result<(), OutOfMemory>
    requires keys { AreAllKeys (width_of schema.now) (theory_of schema.now) (universe_of schema.now)
        keys.now }
    requires within_limit { length keys.now ≤ MOST_KEYS }
    requires narrow { IsTooWide (theory_in schema.now) → ⊥ }
    ensures added { OnOk result (Adds (OpensExplained title.now (ListsKeys schema.now) (ExplainsKeys schema.now))
        text.old.items text.new.items) }
{
    let plain = set_lines(alloc, schema, keys)?;
    let mut explained = print_key_reasons(alloc, schema, keys)?;
    add(&mut explained, &plain)?;
    put_explained(text, title, &plain, &explained)?;
    Ok(())
}

// Adds why the keys are not listed, which is not explained further.
fn put_refused_keys(
    alloc: Global,
    text: &mut Vec<u8>,
    schema: &Schema,
    title: &[u8],
    refusal: &KeyRefusal,
) -> Result<(), OutOfMemory>
    requires refused { IsRefusedListing (theory_in schema.now) (failed.Refused refusal.now) }
    ensures added { OnOk result (Adds (OpensExplained title.now (ListsKeys schema.now) (ExplainsKeys schema.now))
        text.old.items text.new.items) }
{
    let refused = text_of(Err(keys_exit(alloc, schema, refusal)))?;
    put_explained(text, title, &refused, &refused)?;
    Ok(())
}
