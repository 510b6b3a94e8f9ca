ghost use Rattle.std.specs.Prelude.{◌≡◌, ◌≤◌, length, option_map};
ghost use Rattle.std.specs.List.{position_or_len};
ghost use Rattle.lexer.specs.Quotes.{closing_quote};
ghost use Rattle.table_words.specs.Parts.{after_dot, bare_front, front, front_of, is_dot, part_of, parts_of, quoted_front, table_parts};

use lexer::{WordBytes, closing_quote, name_between};

/// The most parts of the name of a table.
pub const MOST_PARTS: usize = 3;

/// The parts of a table's name: the bytes of a bare one, the name of a quoted one.
#[derive(Clone, Copy, Debug)]
pub enum TableParts<'a> {
    One(WordBytes<'a>),
    Two(WordBytes<'a>, WordBytes<'a>),
    Three(WordBytes<'a>, WordBytes<'a>, WordBytes<'a>),
}

/// A part, and what stands after the dot behind it, if one does.
#[derive(Clone, Copy, Debug)]
pub struct FrontPart<'a> {
    pub part: WordBytes<'a>,
    pub rest: Option<&'a [u8]>,
}

/// The parts of a table's name, as a word has them.
#[tactic(auto, unfolding(crate::specs::Parts::table_parts))]
pub fn table_parts(bytes: &[u8]) -> Option<TableParts<'_>>
    ensures parts { option_map parts_of result ≡ table_parts bytes.now }
{
    let Some(first) = front(bytes) else {
        return None;
    };
    let Some(rest) = first.rest else {
        return Some(TableParts::One(first.part));
    };
    let Some(second) = front(rest) else {
        return None;
    };
    let Some(rest) = second.rest else {
        return Some(TableParts::Two(first.part, second.part));
    };
    match front(rest) {
        Some(FrontPart { part, rest: None }) => {
            Some(TableParts::Three(first.part, second.part, part))
        }
        _ => None,
    }
}

// The part at the front.
fn front(text: &[u8]) -> Option<FrontPart<'_>>
    ensures front { option_map front_of result ≡ front text.now }
{
    if text.starts_with(b"\"") {
        quoted_front(text.split_at(1).1)
    } else {
        bare_front(text)
    }
}

// The name that stands behind a double quote.
fn quoted_front(text: &[u8]) -> Option<FrontPart<'_>>
    ensures front { option_map front_of result ≡ quoted_front text.now (closing_quote text.now) }
{
    let Some(end) = closing_quote(text) else {
        return None;
    };
    let (inner, after) = text.split_at(end);
    let Some(name) = name_between(inner) else {
        return None;
    };
    let Some(rest) = after_dot(after.split_at(1).1) else {
        return None;
    };
    Some(FrontPart {
        part: WordBytes::Name(name),
        rest,
    })
}

// The bytes before a dot.
fn bare_front(text: &[u8]) -> Option<FrontPart<'_>>
    ensures front { option_map front_of result ≡ bare_front text.now (position_or_len is_dot text.now) }
{
    let end = bare_length(text);
    if end == 0 {
        return None;
    }
    let (part, after) = text.split_at(end);
    let Some(rest) = after_dot(after) else {
        return None;
    };
    Some(FrontPart {
        part: WordBytes::Text(part),
        rest,
    })
}

// How many bytes stand before the first dot.
fn bare_length(text: &[u8]) -> usize
    ensures length { result ≡ position_or_len is_dot text.now }
    ensures within { result ≤ length text.now }
{
    text.iter().take_while(|byte| **byte != b'.').count()
}

// What stands behind a part, where that is nothing or begins with a dot: what stands behind the dot, if there is one.
fn after_dot(text: &[u8]) -> Option<Option<&[u8]>>
    ensures rest { option_map (λ rest. option_map (λ text. text.now) rest) result ≡ after_dot text.now }
{
    if text.is_empty() {
        return Some(None);
    }
    let (first, rest) = text.split_at(1);
    if first[0] == b'.' {
        Some(Some(rest))
    } else {
        None
    }
}
