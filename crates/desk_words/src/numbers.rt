//! Words that are short numbers.

ghost use Rattle.std.specs.Prelude.{◌≡◌};
ghost use Rattle.desk_words.specs.Numbers.{is_short_number};

use lexer::are_digits;

/// Whether a word is one to `most` digits.
#[tactic(auto, unfolding(crate::specs::Numbers::is_short_number))]
pub fn is_short_number(word: &[u8], most: usize) -> bool
    ensures short_number { result ≡ is_short_number most word.now }
{
    !word.is_empty() && word.len() <= most && are_digits(word)
}
