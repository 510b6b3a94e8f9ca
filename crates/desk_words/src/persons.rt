ghost use Rattle.std.specs.Prelude.{◌≡◌, ◌≤◌, if◌then◌else◌, Some, None, option_map};
ghost use Rattle.lexer.specs.Bytes.{number_of};
ghost use Rattle.desk_words.specs.Numbers.{is_count};
ghost use Rattle.sample_rows.specs.declared.rows.TheConstants.{MOST_PERSONS};

use crate::numbers::is_short_number;
use lexer::number_of;
use sample_rows::Persons;

/// A number of one to five digits, from 1 to `MOST_PERSONS`.
#[tactic(auto, using(crate::proofs::NumberLemmas::short_number), unfolding(crate::specs::Numbers::is_count))]
pub fn count_of(word: &[u8]) -> Option<Persons>
    ensures persons { option_map (λ persons. persons.number) result
        ≡ (if is_count word.now then Some (number_of word.now) else None) }
{
    if !is_short_number(word, 5) {
        return None;
    }
    let number = number_of(word);
    if number == 0 || number > sample_rows::MOST_PERSONS {
        return None;
    }
    Some(Persons { number })
}
