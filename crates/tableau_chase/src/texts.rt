//! A tableau as rows of decimal texts.

ghost use Rattle.std.specs.Prelude.{◌≡◌, ℕ, List, length, map, AllPairs, IfOk, OnOk, decimal};
ghost use Rattle.std.specs.Cmp.Lexicographic.{slice_cmp};
ghost use Rattle.std.specs.Ordering.{nat_cmp};
ghost use Rattle.tableau_chase.specs.Texts.{AreTextsOf};

use crate::symbol_row::SymbolRow;
use dep_model::{OutOfMemory, Row, Value};
use std::alloc::Global;

/// The rows in the order of the lists of their symbols, each symbol as a decimal text.
pub fn ascending_texts(alloc: Global, rows: Vec<SymbolRow>) -> Result<Vec<Row>, OutOfMemory>
    requires differ { AllPairs (λ p q. p ≡ q → ⊥) rows.items }
    ensures texts { IfOk result (λ texts. AreTextsOf rows.items texts.items) }
{
    let mut lists = symbol_lists(alloc, &rows)?;
    lists.sort()?;
    let texts = text_rows(alloc, &lists)?;
    Ok(texts)
}

// The lists of symbols.
fn symbol_lists(alloc: Global, rows: &[SymbolRow]) -> Result<Vec<Vec<u32>>, OutOfMemory>
    ensures lists { IfOk result (λ lists. map (λ list. list.items) lists.items ≡ rows.now) }
{
    let mut lists = Vec::with_capacity(alloc, rows.len())?;
    for i in 0..rows.len() {
        lists.push(rows[i].symbols(alloc)?)?;
    }
    Ok(lists)
}

// The rows of the texts of the symbols.
fn text_rows(alloc: Global, lists: &[Vec<u32>]) -> Result<Vec<Row>, OutOfMemory>
    ensures texts { IfOk result (λ texts. texts.items ≡ map (λ list. map decimal list.items) lists.now) }
{
    let mut texts = Vec::with_capacity(alloc, lists.len())?;
    for i in 0..lists.len() {
        texts.push(text_row(alloc, &lists[i])?)?;
    }
    Ok(texts)
}

// The row of the texts of the symbols.
fn text_row(alloc: Global, symbols: &[u32]) -> Result<Row, OutOfMemory>
    ensures row { IfOk result (λ row. row ≡ map decimal symbols.now) }
{
    let mut values = Vec::with_capacity(alloc, symbols.len())?;
    for symbol in symbols {
        values.push(decimal_value(alloc, *symbol)?)?;
    }
    Ok(Row::new(values))
}

// A symbol as a decimal text.
fn decimal_value(alloc: Global, symbol: u32) -> Result<Value, OutOfMemory>
    ensures value { IfOk result (λ value. value ≡ decimal symbol) }
{
    let digits = format!(in alloc; "{symbol}")?;
    Value::new(alloc, digits.as_bytes())
}
