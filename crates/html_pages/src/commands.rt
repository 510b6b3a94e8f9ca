//! The words of a command as a shell takes them.

ghost use Rattle.std.specs.Prelude.{◌≡◌, ◌++◌, OnOk};
ghost use Rattle.std.specs.List.{flat_map, list_all};
ghost use Rattle.html_pages.specs.Commands.{is_plain_byte, is_plain_word, quoted_byte, shell_word, single_quoted};

use byte_texts::add;
use dep_model::OutOfMemory;

/// Adds a word as a shell takes it.
#[tactic(auto, unfolding(crate::specs::Commands::shell_word))]
pub fn add_shell_word(text: &mut Vec<u8>, word: &[u8]) -> Result<(), OutOfMemory>
    ensures added { OnOk result (text.new.items ≡ text.old.items ++ shell_word word.now) }
{
    if is_plain_word(word) {
        add(text, word)
    } else {
        add_single_quoted(text, word)
    }
}

// Whether a word means itself in a shell.
fn is_plain_word(word: &[u8]) -> bool
    ensures exact { result ≡ is_plain_word word.now }
{
    !word.is_empty() && are_plain_bytes(word)
}

fn are_plain_bytes(word: &[u8]) -> bool
    ensures plain { result ≡ list_all is_plain_byte word.now }
{
    word.iter().all(|b| is_plain_byte(*b))
}

fn is_plain_byte(b: u8) -> bool
    ensures exact { result ≡ is_plain_byte b }
{
    b.is_ascii_alphanumeric() || b"_-./:,+@%".contains(&b)
}

// Adds bytes between single quotes.
#[tactic(auto, unfolding(crate::specs::Commands::single_quoted))]
fn add_single_quoted(text: &mut Vec<u8>, word: &[u8]) -> Result<(), OutOfMemory>
    ensures added { OnOk result (text.new.items ≡ text.old.items ++ single_quoted word.now) }
{
    add(text, b"'")?;
    add_quoted_bytes(text, word)?;
    add(text, b"'")
}

fn add_quoted_bytes(text: &mut Vec<u8>, word: &[u8]) -> Result<(), OutOfMemory>
    ensures added { OnOk result (text.new.items ≡ text.old.items ++ flat_map quoted_byte word.now) }
{
    for b in word {
        add_quoted_byte(text, *b)?;
    }
    Ok(())
}

fn add_quoted_byte(text: &mut Vec<u8>, byte: u8) -> Result<(), OutOfMemory>
    ensures added { OnOk result (text.new.items ≡ text.old.items ++ quoted_byte byte) }
{
    if byte == b'\'' {
        add(text, b"'\\''")
    } else {
        text.push(byte)?;
        Ok(())
    }
}
