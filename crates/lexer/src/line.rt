ghost use Rattle.std.specs.Prelude.{◌≡◌};
ghost use Rattle.std.specs.List.{position_or_len};
ghost use Rattle.lexer.specs.Lines.{without_mark, without_return, is_line_feed, CutsLine};

use memchr::memchr;

/// The text without the byte-order mark at its very start, if it has one.
pub fn without_mark(text: &[u8]) -> &[u8]
    ensures text { result.now ≡ without_mark text.now }
{
    if text.starts_with(b"\xEF\xBB\xBF") {
        text.split_at(3).1
    } else {
        text
    }
}

/// The first line of a text, without its end, and what stands after the end if there is one.
pub fn cut_line(text: &[u8]) -> (&[u8], Option<&[u8]>)
    ensures cut { CutsLine text.now result.0.now result.1 }
{
    let end = line_length(text);
    if end < text.len() {
        let (line, after) = text.split_at(end);
        (without_return(line), Some(after.split_at(1).1))
    } else {
        (text, None)
    }
}

/// How many bytes stand before the first line feed.
fn line_length(text: &[u8]) -> usize
    ensures length { result ≡ position_or_len is_line_feed text.now }
{
    match memchr(b'\n', text) {
        Some(end) => end,
        None => text.len(),
    }
}

/// The line without the carriage return at its end, if it has one.
fn without_return(line: &[u8]) -> &[u8]
    ensures line { result.now ≡ without_return line.now }
{
    if line.ends_with(b"\r") {
        line.split_at(line.len() - 1).0
    } else {
        line
    }
}
