//! The columns of rows of one width.

ghost use Rattle.std.specs.Prelude.{◌≡◌, ◌≤◌, All, length, IsTrue, IfOk};
ghost use Rattle.attr_sets.specs.Sets.{attributes};
ghost use Rattle.attr_sets.specs.declared.set.TheConstants.{MOST_ATTRIBUTES};
ghost use Rattle.column_types.specs.FirstTypes.{AreTypesOf, HaveEmpty};
ghost use Rattle.schema_model.specs.Columns.{is_column_type};
ghost use Rattle.dep_model.specs.Tuples.{IsOver};

use crate::columns::has_empty;
use crate::typing::type_of_column;
use attr_sets::{AttrSet, MOST_ATTRIBUTES};
use dep_model::OutOfMemory;
use row_store::Rows;
use schema_model::ColumnType;
use std::alloc::Global;

/// The type of each column of rows of this width.
pub fn types_of_columns(
    alloc: Global,
    width: u8,
    rows: &Rows,
) -> Result<Vec<ColumnType>, OutOfMemory>
    requires over { IsOver width rows.now }
    ensures count { IfOk result (λ columns. length columns.items ≡ width) }
    ensures types { IfOk result (λ columns. AreTypesOf rows.now columns.items) }
    ensures valid { IfOk result (λ columns. All (λ column. IsTrue (is_column_type column)) columns.items) }
{
    let mut columns = Vec::new(alloc);
    for position in 0..width {
        columns.push(type_of_column(rows, position as usize))?;
    }
    Ok(columns)
}

/// The columns of rows of this width in which a value is empty.
pub fn columns_with_empty(width: u8, rows: &Rows) -> AttrSet
    requires width { width ≤ MOST_ATTRIBUTES }
    requires over { IsOver width rows.now }
    ensures columns { HaveEmpty width rows.now (attributes result) }
{
    let mut columns = AttrSet::empty();
    for position in 0..width {
        if has_empty(rows, position as usize) {
            columns = columns.with(position);
        }
    }
    columns
}
