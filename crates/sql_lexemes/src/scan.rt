//! How far a piece of a text reaches.

ghost use Rattle.std.specs.Prelude.{◌≡◌, ◌≤◌, ◌<◌, ◌+◌, ◌^◌, ◌==◌, length, position, IfSome};
ghost use Rattle.std.specs.List.{prefix_len, position_or_len};
ghost use Rattle.sql_lexemes.specs.Bytes.{is_word_byte, is_tag_byte, is_number_byte, begins_word, is_line_feed};
ghost use Rattle.sql_lexemes.specs.Ends.{around_after, closes, closes_comment, comment_end, last_after, opens_comment, quote_end, within_after, tag_end, tag_length, may_be_tag};

/// A letter, `_` or a byte above 127.
pub fn begins_word(byte: u8) -> bool
    ensures exact { result ≡ begins_word byte }
{
    byte.is_ascii_alphabetic() || byte == b'_' || byte > 127
}

fn is_tag_byte(byte: u8) -> bool
    ensures exact { result ≡ is_tag_byte byte }
{
    begins_word(byte) || byte.is_ascii_digit()
}

fn is_word_byte(byte: u8) -> bool
    ensures exact { result ≡ is_word_byte byte }
{
    is_tag_byte(byte) || byte == b'$'
}

fn is_number_byte(byte: u8) -> bool
    ensures exact { result ≡ is_number_byte byte }
{
    byte.is_ascii_alphanumeric() || byte == b'_' || byte == b'.'
}

/// How many bytes of a word stand at the front.
pub fn word_length(text: &[u8]) -> usize
    ensures length { result ≡ prefix_len is_word_byte text.now }
    ensures within { result ≤ length text.now }
{
    text.iter().take_while(|byte| is_word_byte(**byte)).count()
}

/// How many bytes of a number stand at the front.
pub fn number_length(text: &[u8]) -> usize
    ensures length { result ≡ prefix_len is_number_byte text.now }
    ensures within { result ≤ length text.now }
{
    text.iter()
        .take_while(|byte| is_number_byte(**byte))
        .count()
}

/// How many bytes stand before the end of the first line.
pub fn line_length(text: &[u8]) -> usize
    ensures length { result ≡ position_or_len is_line_feed text.now }
    ensures within { result ≤ length text.now }
{
    text.iter().take_while(|byte| **byte != b'\n').count()
}

/// How many bytes a text has up to the `*/` that closes a comment and with it; comments within it count
/// where they nest.
#[tactic(auto, unfolding(crate::specs::Ends::comment_end))]
pub fn comment_end(nests: bool, text: &[u8]) -> Option<usize>
    ensures end { result ≡ comment_end nests 0 0 0 text.now }
    ensures within { IfSome result (λ end. end ≤ length text.now) }
{
    let mut around = 0;
    let mut last = 0;
    let mut passed = 0;
    let mut rest = text;
    while let [byte, after @ ..] = rest {
        if closes_comment(last, *byte) && around == 0 {
            return Some(passed + 1);
        }
        around = around_after(nests, around, last, *byte);
        last = last_after(nests, last, *byte);
        passed += 1;
        rest = after;
    }
    None
}

fn closes_comment(last: u8, byte: u8) -> bool
    ensures exact { result ≡ closes_comment last byte }
{
    last == b'*' && byte == b'/'
}

// Whether a comment opens within another one.
fn opens_comment(nests: bool, last: u8, byte: u8) -> bool
    ensures exact { result ≡ opens_comment nests last byte }
{
    nests && last == b'/' && byte == b'*'
}

// How many comments are open around a comment's rest, after one byte more.
fn around_after(nests: bool, around: usize, last: u8, byte: u8) -> usize
    requires { around < 2 ^ 63 }
    ensures exact { result ≡ around_after nests around last byte }
    ensures one_more { result ≤ around + 1 }
{
    if closes_comment(last, byte) {
        around.saturating_sub(1)
    } else if opens_comment(nests, last, byte) {
        around + 1
    } else {
        around
    }
}

// The byte that may be the first of the next two.
fn last_after(nests: bool, last: u8, byte: u8) -> u8
    ensures exact { result ≡ last_after nests last byte }
{
    if closes_comment(last, byte) || opens_comment(nests, last, byte) {
        0
    } else {
        byte
    }
}

/// Where a quoted text stands that is read byte by byte.
#[derive(Clone, Copy, Debug)]
pub enum Within {
    /// Between the quotes.
    Inside,
    /// After a backslash that takes the next byte along.
    Escaped,
    /// After a quote, which closes unless another one follows.
    AfterQuote,
}

/// How many bytes a text has up to the quote that closes and with it; a doubled quote closes nothing,
/// nor does a byte after a backslash, where such are taken.
#[tactic(auto, unfolding(crate::specs::Ends::quote_end))]
pub fn quote_end(quote: u8, escapes: bool, text: &[u8]) -> Option<usize>
    ensures end { result ≡ quote_end quote escapes Within.Inside 0 text.now }
    ensures within { IfSome result (λ end. end ≤ length text.now) }
{
    let mut state = Within::Inside;
    let mut passed = 0;
    let mut rest = text;
    while let [byte, after @ ..] = rest {
        if closes(quote, state, *byte) {
            return Some(passed);
        }
        state = within_after(quote, escapes, state, *byte);
        passed += 1;
        rest = after;
    }
    match state {
        Within::AfterQuote => Some(passed),
        _ => None,
    }
}

// Whether a byte shows that the quote before it closes.
fn closes(quote: u8, state: Within, byte: u8) -> bool
    ensures exact { result ≡ closes quote state byte }
{
    match state {
        Within::AfterQuote => byte != quote,
        _ => false,
    }
}

// Where a quoted text stands after one byte more.
fn within_after(quote: u8, escapes: bool, state: Within, byte: u8) -> Within
    ensures exact { result ≡ within_after quote escapes state byte }
{
    match state {
        Within::Escaped => Within::Inside,
        Within::AfterQuote => Within::Inside,
        Within::Inside => {
            if byte == quote {
                Within::AfterQuote
            } else if escapes && byte == b'\\' {
                Within::Escaped
            } else {
                Within::Inside
            }
        }
    }
}

/// How many bytes stand before the first `]`.
pub fn bracket_end(text: &[u8]) -> Option<usize>
    ensures end { result ≡ position (λ b. b == 93) text.now }
    ensures within { IfSome result (λ end. end < length text.now) }
{
    text.iter().position(|byte| *byte == b']')
}

/// How many bytes a text has up to the first dollar that these bytes follow, and with them.
#[tactic(auto, unfolding(crate::specs::Ends::tag_end))]
pub fn tag_end(tag: &[u8], text: &[u8]) -> Option<usize>
    ensures end { result ≡ tag_end tag.now 0 text.now }
    ensures within { IfSome result (λ end. end ≤ length text.now) }
{
    let mut passed = 0;
    let mut rest = text;
    while let [first, after @ ..] = rest {
        if *first == b'$' && after.starts_with(tag) {
            return Some(passed + 1 + tag.len());
        }
        passed += 1;
        rest = after;
    }
    None
}

/// How many bytes stand after the dollar in the mark that begins a text between dollars: nothing or a word
/// without a dollar, and a dollar.
pub fn tag_length(rest: &[u8]) -> Option<usize>
    ensures length { result ≡ tag_length rest.now }
    ensures within { IfSome result (λ count. count ≤ length rest.now) }
{
    let count = tag_word_length(rest);
    let (tag, after) = rest.split_at(count);
    if after.starts_with(b"$") && may_be_tag(tag) {
        Some(count + 1)
    } else {
        None
    }
}

// How many bytes of a tag stand at the front.
fn tag_word_length(text: &[u8]) -> usize
    ensures length { result ≡ prefix_len is_tag_byte text.now }
    ensures within { result ≤ length text.now }
{
    text.iter().take_while(|byte| is_tag_byte(**byte)).count()
}

// Nothing, or bytes that begin as a word does.
fn may_be_tag(tag: &[u8]) -> bool
    ensures exact { result ≡ may_be_tag tag.now }
{
    match tag {
        [] => true,
        [first, ..] => begins_word(*first),
    }
}
