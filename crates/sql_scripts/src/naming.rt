ghost use Rattle.std.specs.Prelude.{◌≡◌, [], ◌∷◌, ◌++◌, ◌||◌, ◌==◌, codes, None, unwrap_or, IfOk, OnOk};
ghost use Rattle.std.specs.List.{find, list_all};
ghost use Rattle.std.specs.Char.{is_ascii_alphabetic};
ghost use Rattle.schema_model.specs.Names.{is_name_byte, quoted};
ghost use Rattle.lexer.specs.Tokens.{bytes_in};
ghost use Rattle.table_names.specs.TableNames.{is_given};
ghost use Rattle.table_words.specs.Parts.{part_of, parts_of};
ghost use Rattle.sql_scripts.specs.Naming.{are_parts, dotted_name, is_bare_part, is_part, is_table_name, last_name};
ghost use Rattle.sql_scripts.specs.Naming.{last_of, met_name, quoted_table};

use byte_texts::add;
use dep_model::OutOfMemory;
use lexer::WordBytes;
use schema_model::Name;
use schema_printer::add_quoted;
use std::alloc::Global;
use table_names::is_taken;
use table_words::{TableParts, table_parts};

/// The most bytes of a part.
pub const MOST_PART_BYTES: usize = 63;

/// Whether the bytes name a table: from one to three parts with a dot between two, each a name between double quotes,
/// or a letter or `_` and then letters, digits and `_`. The last part is no name that a script gives: neither `joined`
/// nor `t` and digits. So a name brings nothing into a script but itself.
#[tactic(auto, unfolding(crate::specs::Naming::is_table_name))]
pub fn is_table_name(bytes: &[u8]) -> bool
    ensures name { result ≡ is_table_name bytes.now }
{
    match table_parts(bytes) {
        Some(parts) => are_parts(&parts),
        None => false,
    }
}

// Whether a script may hold these parts.
fn are_parts(parts: &TableParts<'_>) -> bool
    ensures parts { result ≡ are_parts (parts_of parts.now) }
{
    match parts {
        TableParts::One(last) => is_last_part(last),
        TableParts::Two(first, last) => are_two_parts(first, last),
        TableParts::Three(first, second, last) => are_three_parts(first, second, last),
    }
}

fn are_three_parts(first: &WordBytes<'_>, second: &WordBytes<'_>, last: &WordBytes<'_>) -> bool
    ensures parts { result ≡ are_parts (part_of first.now ∷ part_of second.now ∷ part_of last.now ∷ []) }
{
    is_part(first) && are_two_parts(second, last)
}

fn are_two_parts(first: &WordBytes<'_>, last: &WordBytes<'_>) -> bool
    ensures parts { result ≡ are_parts (part_of first.now ∷ part_of last.now ∷ []) }
{
    is_part(first) && is_last_part(last)
}

// Whether a script may hold this part as the last.
fn is_last_part(part: &WordBytes<'_>) -> bool
    ensures parts { result ≡ are_parts (part_of part.now ∷ []) }
{
    is_part(part) && !is_taken(part.as_slice())
}

// Whether a script may hold this part.
fn is_part(part: &WordBytes<'_>) -> bool
    ensures part { result ≡ is_part (part_of part.now) }
{
    match part {
        WordBytes::Text(bytes) => is_bare_part(bytes),
        WordBytes::Name(_) => true,
    }
}

// Whether the bytes are a part without quotes.
fn is_bare_part(bytes: &[u8]) -> bool
    ensures part { result ≡ is_bare_part bytes.now }
{
    !bytes.is_empty()
        && begins_part(bytes[0])
        && are_name_bytes(bytes)
        && bytes.len() <= MOST_PART_BYTES
}

fn begins_part(byte: u8) -> bool
    ensures begins { result ≡ (is_ascii_alphabetic byte || (byte == 95)) }
{
    byte.is_ascii_alphabetic() || byte == b'_'
}

fn are_name_bytes(bytes: &[u8]) -> bool
    ensures name_bytes { result ≡ list_all is_name_byte bytes.now }
{
    bytes
        .iter()
        .all(|b| b.is_ascii_alphanumeric() || *b == b'_')
}

/// The first of these names that is that of the last part, the case of letters aside.
pub fn met_name(names: &[Option<Name>], bytes: &[u8]) -> Option<Name>
    ensures met { result ≡ met_name names.now bytes.now }
{
    match table_parts(bytes) {
        Some(parts) => given_name(names, last_of(&parts).as_slice()),
        None => given_name(names, b""),
    }
}

// The last part.
fn last_of<'s, 'a>(parts: &'s TableParts<'a>) -> &'s WordBytes<'a>
    ensures last { bytes_in result.now ≡ last_of (parts_of parts.now) }
{
    match parts {
        TableParts::One(last) => last,
        TableParts::Two(_, last) => last,
        TableParts::Three(_, _, last) => last,
    }
}

// The first of these names that is this one, the case of letters aside.
fn given_name(names: &[Option<Name>], bytes: &[u8]) -> Option<Name>
    ensures met { result ≡ unwrap_or (find (is_given bytes.now) names.now) None }
{
    let mut rest = names;
    while let [name, others @ ..] = rest {
        if is_given(name, bytes) {
            return *name;
        }
        rest = others;
    }
    None
}

// Whether this name is given, the case of letters aside.
fn is_given(name: &Option<Name>, bytes: &[u8]) -> bool
    ensures given { result ≡ is_given bytes.now name.now }
{
    match name {
        Some(name) => bytes.eq_ignore_ascii_case(name.bytes()),
        None => false,
    }
}

/// The parts of a name in double quotes, each double quote in them doubled.
#[tactic(auto, unfolding(crate::specs::Naming::quoted_table))]
pub fn quote_table(alloc: Global, bytes: &[u8]) -> Result<Vec<u8>, OutOfMemory>
    ensures text { IfOk result (λ text. text.items ≡ quoted_table bytes.now) }
{
    let mut text = Vec::new(alloc);
    if let Some(parts) = table_parts(bytes) {
        add_parts(&mut text, &parts)?;
    }
    Ok(text)
}

// Adds parts, with a dot between two.
fn add_parts(text: &mut Vec<u8>, parts: &TableParts<'_>) -> Result<(), OutOfMemory>
    ensures added { OnOk result (text.new.items ≡ text.old.items ++ dotted_name (parts_of parts.now)) }
{
    match parts {
        TableParts::One(last) => add_quoted(text, last.as_slice()),
        TableParts::Two(first, last) => {
            add_part(text, first)?;
            add_quoted(text, last.as_slice())
        }
        TableParts::Three(first, second, last) => {
            add_part(text, first)?;
            add_part(text, second)?;
            add_quoted(text, last.as_slice())
        }
    }
}

// Adds a part and a dot.
fn add_part(text: &mut Vec<u8>, part: &WordBytes<'_>) -> Result<(), OutOfMemory>
    ensures added { OnOk result (text.new.items ≡ text.old.items ++ quoted (bytes_in part.now) ++ codes ".") }
{
    add_quoted(text, part.as_slice())?;
    add(text, b".")
}
