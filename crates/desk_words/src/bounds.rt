ghost use Rattle.std.specs.Prelude.{◌≡◌, ◌≤◌, if◌then◌else◌, Some, None, option_map};
ghost use Rattle.lexer.specs.Bytes.{number_of};
ghost use Rattle.desk_words.specs.Numbers.{is_left_bound, is_row_bound};
ghost use Rattle.desk_words.specs.declared.bounds.TheConstants.{MOST_ON_LEFT};

use crate::numbers::is_short_number;
use lexer::number_of;

/// The most attributes on the left of a dependency that is asked for.
pub const MOST_ON_LEFT: u8 = 64;

/// How many attributes a dependency has on the left at most.
#[derive(Clone, Copy, Debug)]
pub struct LeftBound {
    pub number: u8,
    pub ghost within_limit: { number ≤ MOST_ON_LEFT },
}

/// A number of one or two digits, from 1 to `MOST_ON_LEFT`.
#[tactic(auto, using(crate::proofs::NumberLemmas::short_number), unfolding(crate::specs::Numbers::is_left_bound))]
pub fn left_bound_of(word: &[u8]) -> Option<LeftBound>
    ensures bound { option_map (λ bound. bound.number) result
        ≡ (if is_left_bound word.now then Some (number_of word.now) else None) }
{
    if !is_short_number(word, 2) {
        return None;
    }
    let number = number_of(word);
    if number == 0 || number > u32::from(MOST_ON_LEFT) {
        return None;
    }
    Some(LeftBound {
        number: number as u8,
    })
}

/// A number of one to seven digits.
#[tactic(auto, using(crate::proofs::NumberLemmas::short_number), unfolding(crate::specs::Numbers::is_row_bound))]
pub fn row_bound_of(word: &[u8]) -> Option<u32>
    ensures bound { result ≡ (if is_row_bound word.now then Some (number_of word.now) else None) }
{
    if is_short_number(word, 7) {
        Some(number_of(word))
    } else {
        None
    }
}
