//! The lines of data after a COPY statement.

ghost use Rattle.std.specs.Prelude.{◌≡◌, ◌≤◌, length};
ghost use Rattle.sql_lexemes.specs.Statements.{data_end, is_last_line, line_with_byte};

/// What stands in a line so far.
#[derive(Clone, Copy, Debug)]
pub enum Line {
    /// Nothing.
    Start,
    /// A backslash.
    Backslash,
    /// A backslash and a dot: the last line of the data, unless more follows.
    Last,
    /// Anything else.
    Another,
}

/// How many bytes there are up to the end of the line `\.` and with it, after the rest of a line.
#[tactic(auto, unfolding(crate::specs::Statements::data_end))]
pub fn data_end(text: &[u8]) -> usize
    ensures end { result ≡ data_end Line.Another 0 text.now }
    ensures within { result ≤ length text.now }
{
    let mut line = Line::Another;
    let mut passed = 0;
    let mut rest = text;
    while let [first, after @ ..] = rest {
        if *first == b'\n' && is_last_line(line) {
            return passed + 1;
        }
        line = line_with_byte(line, *first);
        passed += 1;
        rest = after;
    }
    passed
}

fn is_last_line(line: Line) -> bool
    ensures exact { result ≡ is_last_line line }
{
    match line {
        Line::Last => true,
        _ => false,
    }
}

// A line after one byte more.
fn line_with_byte(line: Line, byte: u8) -> Line
    ensures exact { result ≡ line_with_byte line byte }
{
    if byte == b'\n' {
        return Line::Start;
    }
    match line {
        Line::Start => {
            if byte == b'\\' {
                Line::Backslash
            } else {
                Line::Another
            }
        }
        Line::Backslash => {
            if byte == b'.' {
                Line::Last
            } else {
                Line::Another
            }
        }
        Line::Last => {
            if byte == b'\r' {
                Line::Last
            } else {
                Line::Another
            }
        }
        Line::Another => Line::Another,
    }
}
