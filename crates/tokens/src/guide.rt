ghost use Rattle.std.specs.Prelude.{◌<◌};

use schema_model::Schema;

const SLOTS: usize = 1_024;

/// Where the names of a schema are likely to be found: for each slot an attribute, that of the last name
/// whose bytes lead there. It is a guess, which whoever takes it has to try.
#[derive(Clone, Copy)]
pub struct Guide {
    attributes: [u8; SLOTS],
}

impl Guide {
    /// The guide to the names of a schema. Which guesses it gives is a matter of speed alone: a word that a guess does
    /// not name is sought among all names.
    pub fn of(schema: &Schema) -> Guide {
        let mut attributes = [0; SLOTS];
        for attribute in 0..schema.width() {
            attributes[slot(schema.name(attribute).bytes())] = attribute;
        }
        Guide { attributes }
    }

    /// An attribute that a word may name.
    pub fn guess(&self, word: &[u8]) -> u8 {
        self.attributes[slot(word)]
    }
}

// The slot of a word, ASCII case aside: by one bit a small letter differs from its capital, and digits
// have it.
fn slot(word: &[u8]) -> usize
    ensures inside { result < SLOTS }
{
    let mut hash: u32 = 0;
    for byte in word {
        hash = hash.wrapping_mul(33) ^ u32::from(*byte | 32);
    }
    hash as usize % SLOTS
}
