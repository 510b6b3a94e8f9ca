//! The numbers of rows by their symbols, found by hashing.

ghost use Rattle.std.specs.Prelude.{◌≡◌, ◌≢◌, ℕ, List, [], ◌∷◌, ◌++◌, length, IfOk, Contains};

use dep_model::OutOfMemory;
use std::alloc::Global;
use std::collections::HashMap;

/// The number that each list of symbols has.
#[derive(Drop)]
pub struct RowNumbers {
    firsts: HashMap<Vec<u32>, u32>,
}

impl RowNumbers {
    ghost use Rattle.tableau_chase.specs.Numbers.{IsNumbering, IsFirstPosition};

    /// Of no list.
    pub fn new(alloc: Global) -> RowNumbers
        ensures numbering { IsNumbering [] result }
    {
        RowNumbers {
            firsts: HashMap::new(alloc),
        }
    }

    /// The number of a list of symbols; a new one has the next number from now on.
    pub fn number(&mut self, symbols: Vec<u32>, next: u32) -> Result<u32, OutOfMemory>
        ensures known { (keys : List (List ℕ)) → IsNumbering keys self.old → length keys ≡ next
            → IfOk result (λ number. number ≢ next
            → IsFirstPosition keys symbols.items number × IsNumbering keys self.new) }
        ensures fresh { (keys : List (List ℕ)) → IsNumbering keys self.old → length keys ≡ next
            → IfOk result (λ number. number ≡ next → Contains keys symbols.items → ⊥) }
        ensures grown { (keys : List (List ℕ)) → IsNumbering keys self.old → length keys ≡ next
            → IfOk result (λ number. IsNumbering (keys ++ symbols.items ∷ []) self.new) }
    {
        match self.firsts.get(&symbols) {
            Some(&number) => Ok(number),
            None => {
                self.firsts.insert(symbols, next)?;
                Ok(next)
            }
        }
    }
}
