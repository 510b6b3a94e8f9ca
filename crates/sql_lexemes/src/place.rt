//! Lines and columns of places.

ghost use Rattle.std.specs.Prelude.{◌≡◌, ◌<◌, ◌^◌, length, take};
ghost use Rattle.sql_lexemes.specs.Places.{line_after, column_after};

/// The line after these bytes, from 1.
pub fn line_at(front: &[u8]) -> u32
    requires { length front.now < 2 ^ 31 }
    ensures line { result ≡ line_after front.now }
{
    let mut line = 1;
    for byte in front {
        if *byte == b'\n' {
            line += 1;
        }
    }
    line
}

/// The column after these bytes, from 1.
pub fn column_at(front: &[u8]) -> u32
    requires { length front.now < 2 ^ 31 }
    ensures column { result ≡ column_after front.now }
{
    let mut column = 1;
    for byte in front {
        if *byte == b'\n' {
            column = 1;
        } else {
            column += 1;
        }
    }
    column
}
