ghost use Rattle.std.specs.Prelude.{◌≡◌, All, length, IfOk};
ghost use Rattle.dep_model.specs.Tuples.{IsOver};
ghost use Rattle.named_tables.specs.Choices.{HasRows};

use attr_sets::AttrSet;
use dep_model::{OutOfMemory, Row, Value};
use named_tables::{ChosenTable, ChosenTables};
use row_store::Rows;
use schema_model::Name;
use std::alloc::Global;

// A row of one value.
pub(crate) fn single(alloc: Global, value: &[u8]) -> Result<Row, OutOfMemory>
    ensures { IfOk result (λ row. length row ≡ 1) }
{
    let mut values = Vec::new(alloc);
    values.push(Value::new(alloc, value)?)?;
    Ok(Row::new(values))
}

// Those of these rows that are there, as a table of one column.
#[tactic(auto, using(crate::proofs::RowLemmas::one_more))]
fn table(
    alloc: Global,
    name: &[u8],
    rows: &Rows,
    chosen: &[u32],
) -> Result<ChosenTable, OutOfMemory>
    requires over { IsOver 1 rows.now }
    ensures even { IfOk result (λ table. HasRows rows.now table) }
{
    let (Some(name), Some(column)) = (Name::new(name), Name::new(b"A")) else {
        return Err(OutOfMemory);
    };
    let scheme = AttrSet::single(0);
    let columns = Vec::from_slice(alloc, &[column])?;
    let mut there = Vec::new(alloc);
    for row in chosen {
        if (*row as usize) < rows.len() {
            there.push(*row)?;
        }
    }
    Ok(ChosenTable {
        name,
        columns,
        nullable: Vec::from_slice(alloc, &[false])?,
        scheme,
        chosen: there,
    })
}

// Rows of one value.
#[tactic(auto, using(crate::proofs::RowLemmas::row_more))]
fn rows_of(alloc: Global, values: &[&[u8]]) -> Result<Rows, OutOfMemory>
    ensures over { IfOk result (λ rows. IsOver 1 rows) }
{
    let mut rows = Vec::new(alloc);
    for value in values {
        rows.push(single(alloc, value)?)?;
    }
    Rows::of(alloc, &rows)
}

// Three tables of one column, with two, three and three rows.
pub(crate) fn three_tables(alloc: Global) -> Result<ChosenTables, OutOfMemory> {
    let values: [&[u8]; 8] = [b"x", b"O'Hara", b"", b"a,b", b"\xff", b"1", b"2", b"3\0"];
    let rows = rows_of(alloc, &values)?;
    let tables = tables_of(alloc, &rows)?;
    Ok(ChosenTables { rows, tables })
}

// A table of one column with three rows of this value.
pub(crate) fn long_table(alloc: Global, value: &[u8]) -> Result<ChosenTables, OutOfMemory> {
    let rows = rows_of(alloc, &[value, value, value])?;
    let tables = one_table(alloc, &rows)?;
    Ok(ChosenTables { rows, tables })
}

#[tactic(auto, using(crate::proofs::RowLemmas::table_more))]
fn one_table(alloc: Global, rows: &Rows) -> Result<Vec<ChosenTable>, OutOfMemory>
    requires over { IsOver 1 rows.now }
    ensures even { IfOk result (λ tables. All (HasRows rows.now) tables.items) }
{
    let mut tables = Vec::new(alloc);
    tables.push(table(alloc, b"t1", rows, &[0, 1, 2])?)?;
    Ok(tables)
}

#[tactic(auto, using(crate::proofs::RowLemmas::table_more))]
fn tables_of(alloc: Global, rows: &Rows) -> Result<Vec<ChosenTable>, OutOfMemory>
    requires over { IsOver 1 rows.now }
    ensures even { IfOk result (λ tables. All (HasRows rows.now) tables.items) }
{
    let choices: [(&[u8], &[u32]); 3] = [
        (b"t1", &[0, 1]),
        (b"t2", &[2, 3, 4]),
        (b"t3", &[5, 6, 7]),
    ];
    let mut tables = Vec::new(alloc);
    for (name, chosen) in choices {
        tables.push(table(alloc, name, rows, chosen)?)?;
    }
    Ok(tables)
}
