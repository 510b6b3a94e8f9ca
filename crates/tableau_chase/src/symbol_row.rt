ghost use Rattle.std.specs.Prelude.{◌≡◌, ℕ, ◌<◌, ◌≤◌, ◌==◌, List, length, map, slice_index, IsTrue, IfOk, if◌then◌else◌};
ghost use Rattle.std.specs.List.{list_all};
ghost use Rattle.attr_sets.specs.Sets.{attributes};
ghost use Rattle.attr_sets.specs.declared.set.TheConstants.{MOST_ATTRIBUTES};
ghost use Rattle.chase_laws.specs.Tableaux.{symbol_at, scheme_row};
ghost use Rattle.chase_laws.specs.Steps.{replace_in_row, exchange_rows};

use attr_sets::AttrSet;
use dep_model::OutOfMemory;
use std::alloc::Global;
use std::marker::Model;

/// A row of a tableau: a symbol for each attribute.
#[derive(Debug, Drop)]
pub struct SymbolRow {
    symbols: Vec<u32>,
}

impl Model for SymbolRow {
    ghost Value = { List ℕ };

    ghost view = { λ r. r.symbols.items };
}

impl SymbolRow {
    /// The row of scheme `number` of a plan: `0` on the scheme, the number elsewhere.
    pub fn of_scheme(
        alloc: Global,
        width: u8,
        scheme: AttrSet,
        number: u32,
    ) -> Result<SymbolRow, OutOfMemory>
        requires width { width ≤ MOST_ATTRIBUTES }
        ensures row { IfOk result (λ row. row ≡ scheme_row width (attributes scheme) number) }
    {
        let mut symbols = Vec::with_capacity(alloc, width as usize)?;
        for a in 0..width {
            symbols.push(one_of(scheme.contains(a), 0, number))?;
        }
        Ok(SymbolRow { symbols })
    }

    /// The row with this one's symbols on a set, and another's elsewhere.
    pub fn exchange(
        &self,
        alloc: Global,
        other: &SymbolRow,
        on: AttrSet,
        width: u8,
    ) -> Result<SymbolRow, OutOfMemory>
        requires width { width ≤ MOST_ATTRIBUTES }
        requires self_width { length self.now ≡ width }
        requires other_width { length other.now ≡ width }
        ensures row { IfOk result (λ row. row
            ≡ exchange_rows width (attributes on) self.now other.now) }
    {
        let mut symbols = Vec::with_capacity(alloc, width as usize)?;
        for a in 0..width {
            let (first, second) = (self.symbol(a as usize), other.symbol(a as usize));
            symbols.push(one_of(on.contains(a), first, second))?;
        }
        Ok(SymbolRow { symbols })
    }

    /// The symbol at attribute `a`.
    pub fn symbol(&self, a: usize) -> u32
        requires { a < length self.now }
        ensures symbol { result ≡ symbol_at self.now a }
    {
        self.symbols[a]
    }

    /// Makes the symbol at attribute `a` the later one where it is the former.
    pub fn replace(&mut self, a: usize, former: u32, later: u32)
        requires { a < length self.old }
        ensures replaced { self.new ≡ replace_in_row a former later self.old }
    {
        if self.symbols[a] == former {
            self.symbols[a] = later;
        }
    }

    /// The symbols at some attributes.
    pub fn symbols_at(&self, alloc: Global, listed: &[u8]) -> Result<Vec<u32>, OutOfMemory>
        requires { (k : ℕ) → k < length listed.now → slice_index listed.now k < length self.now }
        ensures symbols { IfOk result (λ symbols. symbols.items ≡ map (symbol_at self.now) listed.now) }
    {
        let mut symbols = Vec::with_capacity(alloc, listed.len())?;
        for a in listed {
            symbols.push(self.symbols[*a as usize])?;
        }
        Ok(symbols)
    }

    /// Whether this row and another have the same symbols at some attributes.
    pub fn agrees(&self, other: &SymbolRow, listed: &[u8]) -> bool
        requires within { (k : ℕ) → k < length listed.now → slice_index listed.now k < length self.now }
        requires same_length { length other.now ≡ length self.now }
        ensures agree { IsTrue result → map (symbol_at self.now) listed.now ≡ map (symbol_at other.now) listed.now }
    {
        for k in 0..listed.len() {
            if self.symbols[listed[k] as usize] != other.symbols[listed[k] as usize] {
                return false;
            }
        }
        true
    }

    /// The sum of the numbers of its symbols at some attributes. It serves speed alone, and so it has no clause.
    pub fn sum_at(&self, listed: &[u8]) -> u64 {
        let mut sum: u64 = 0;
        for a in listed {
            if let Some(symbol) = self.symbols.get(*a as usize) {
                sum = sum.wrapping_add(spread(*a, *symbol));
            }
        }
        sum
    }

    /// All symbols, in memory of their own.
    pub fn symbols(&self, alloc: Global) -> Result<Vec<u32>, OutOfMemory>
        ensures symbols { IfOk result (λ symbols. symbols.items ≡ self.now) }
    {
        Ok(Vec::from_slice(alloc, &self.symbols)?)
    }

    /// An equal row in memory of its own.
    pub fn copy(&self, alloc: Global) -> Result<SymbolRow, OutOfMemory>
        ensures row { IfOk result (λ row. row ≡ self.now) }
    {
        Ok(SymbolRow {
            symbols: self.symbols(alloc)?,
        })
    }

    /// Whether every symbol is `0`.
    pub fn is_distinguished(&self) -> bool
        ensures zeros { result ≡ list_all (λ symbol. symbol == 0) self.now }
    {
        self.symbols.iter().all(|symbol| *symbol == 0)
    }
}

// The first symbol or the second.
fn one_of(first: bool, one: u32, other: u32) -> u32
    ensures symbol { result ≡ (if first then one else other) }
{
    if first { one } else { other }
}

/// The number of a symbol at an attribute, which is spread over all bits. It serves speed alone.
pub fn spread(a: u8, symbol: u32) -> u64 {
    let number = u64::from(symbol).wrapping_add(u64::from(a).wrapping_mul(0x1_0000_0001_0001));
    let mixed = number.wrapping_mul(0x9E37_79B9_7F4A_7C15);
    let turned = (mixed ^ (mixed >> 29)).wrapping_mul(0xBF58_476D_1CE4_E5B9);
    turned ^ (turned >> 32)
}
