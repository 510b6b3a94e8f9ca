ghost use Rattle.std.specs.Prelude.{◌≡◌, ℕ, List, ◌++◌, ◌∷◌, [], ◌==◌, if◌then◌else◌, OnOk};
ghost use Rattle.schema_printer.specs.Spelling.{is_schema_word, spelling};
ghost use Rattle.schema_model.specs.Names.{quotes_doubled, quoted};

use byte_texts::add;
use dep_model::OutOfMemory;
use schema_model::{Name, Naming, is_bare_name};

/// Adds a name to a text as it is printed.
#[tactic(auto, unfolding(crate::specs::Spelling::spelling))]
pub fn add_name(text: &mut Vec<u8>, naming: Naming, name: &Name) -> Result<(), OutOfMemory>
    ensures added { OnOk result (text.new.items ≡ text.old.items ++ spelling naming name.now) }
{
    match naming {
        Naming::Bare => add(text, name.bytes()),
        Naming::Any => {
            if is_bare_name(name.bytes()) && !is_schema_word(name.bytes()) {
                add(text, name.bytes())
            } else {
                add_quoted(text, name.bytes())
            }
        }
    }
}

/// Adds bytes between double quotes, each double quote in them doubled.
pub fn add_quoted(text: &mut Vec<u8>, bytes: &[u8]) -> Result<(), OutOfMemory>
    ensures added { OnOk result (text.new.items ≡ text.old.items ++ quoted bytes.now) }
{
    add(text, b"\"")?;
    add_doubled(text, bytes)?;
    add(text, b"\"")
}

// Adds bytes with each double quote doubled.
#[tactic(auto, unfolding(schema_model::specs::Names::quotes_doubled))]
fn add_doubled(text: &mut Vec<u8>, bytes: &[u8]) -> Result<(), OutOfMemory>
    ensures added { OnOk result (text.new.items ≡ text.old.items ++ quotes_doubled bytes.now) }
{
    for b in bytes {
        add_byte(text, *b)?;
    }
    Ok(())
}

// Adds a byte; a double quote twice.
fn add_byte(text: &mut Vec<u8>, byte: u8) -> Result<(), OutOfMemory>
    ensures added { OnOk result (text.new.items
        ≡ text.old.items ++ (if byte == 34 then 34 ∷ 34 ∷ [] else byte ∷ [])) }
{
    if byte == b'"' {
        add(text, b"\"\"")
    } else {
        text.push(byte)?;
        Ok(())
    }
}

/// Whether the bytes are a word of a schema text, ASCII case aside.
#[tactic(auto, unfolding(crate::specs::Spelling::is_schema_word))]
pub fn is_schema_word(bytes: &[u8]) -> bool
    ensures exact { result ≡ is_schema_word bytes.now }
{
    bytes.eq_ignore_ascii_case(b"attributes")
        || bytes.eq_ignore_ascii_case(b"scheme")
        || bytes.eq_ignore_ascii_case(b"version")
        || bytes.eq_ignore_ascii_case(b"integer")
        || bytes.eq_ignore_ascii_case(b"text")
        || bytes.eq_ignore_ascii_case(b"date")
        || bytes.eq_ignore_ascii_case(b"timestamp")
        || bytes.eq_ignore_ascii_case(b"decimal")
        || bytes.eq_ignore_ascii_case(b"uuid")
        || bytes.eq_ignore_ascii_case(b"other")
        || bytes.eq_ignore_ascii_case(b"nullable")
}
