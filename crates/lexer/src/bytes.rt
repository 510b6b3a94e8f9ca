ghost use Rattle.std.specs.Prelude.{◌≡◌, IsTrue};
ghost use Rattle.std.specs.Char.{is_ascii_digit};
ghost use Rattle.std.specs.List.{list_all};
ghost use Rattle.schema_model.specs.Names.{is_bare_name, is_name_byte};
ghost use Rattle.lexer.specs.Bytes.{is_gap, is_number, number_of, run_length};

use schema_model::MOST_BARE_NAME_BYTES;

/// Whether a byte only separates tokens: a blank, a tab or a comma.
pub fn is_gap(byte: u8) -> bool
    ensures gap { result ≡ is_gap byte }
{
    matches!(byte, b' ' | b'\t' | b',')
}

/// Whether a byte may stand in a bare name: a letter, a digit or `_`, all ASCII.
pub fn is_run(byte: u8) -> bool
    ensures run { result ≡ is_name_byte byte }
{
    byte.is_ascii_alphanumeric() || byte == b'_'
}

/// How many such bytes stand at the front.
pub fn run_length(text: &[u8]) -> usize
    ensures length { result ≡ run_length text.now }
{
    text.iter().take_while(|byte| is_run(**byte)).count()
}

/// Whether a run is a bare name: a letter in front, and not too many bytes.
pub fn is_bare_name(run: &[u8]) -> bool
    requires run { IsTrue (list_all is_name_byte run.now) }
    ensures name { result ≡ is_bare_name run.now }
{
    !run.is_empty() && run[0].is_ascii_alphabetic() && run.len() <= MOST_BARE_NAME_BYTES
}

/// Whether a run is a number: 1 to 9 digits.
#[tactic(auto, unfolding(crate::specs::Bytes::is_number))]
pub fn is_number(run: &[u8]) -> bool
    ensures number { result ≡ is_number run.now }
{
    !run.is_empty() && run.len() < 10 && are_digits(run)
}

/// Whether all bytes are ASCII digits.
pub fn are_digits(bytes: &[u8]) -> bool
    ensures digits { result ≡ list_all is_ascii_digit bytes.now }
{
    bytes.iter().all(|byte| byte.is_ascii_digit())
}

/// The value of a number. Leading zeros are allowed.
pub fn number_of(run: &[u8]) -> u32
    requires { IsTrue (is_number run.now) }
    ensures value { result ≡ number_of run.now }
{
    let mut value = 0;
    for digit in run {
        value = value * 10 + u32::from(*digit - b'0');
    }
    value
}
