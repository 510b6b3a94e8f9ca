ghost use Rattle.std.specs.Prelude.{◌≡◌, length, IfOk, OnOk};
ghost use Rattle.csv.specs.Records.{fields_of};
ghost use Rattle.csv_text.specs.Rows.{csv_row, rows_text};
ghost use Rattle.attr_sets.specs.Attributes.{IsSubset};
ghost use Rattle.attr_sets.specs.Sets.{attributes};
ghost use Rattle.schema_model.specs.Schemas.{names_of, universe_of, width_of};
ghost use Rattle.dep_model.specs.Tuples.{IsOver};
ghost use Rattle.typed_rows.specs.Shown.{shown_relation, shown_tuples, shown_zeros};
ghost use Rattle.typed_rows.specs.Typed.{HoldsNumerals};

use crate::typed_rows;
use attr_sets::AttrSet;
use csv::ByteRecord;
use csv_rows::print_rows;
use csv_text::{fields_line, take_values};
use dep_basis::witness;
use dep_model::{OutOfMemory, Row};
use row_store::Rows;
use schema_model::Schema;
use std::alloc::Global;

/// The two rows that agree exactly on a set, below the names of the attributes.
pub fn print_two_rows(
    alloc: Global,
    schema: &Schema,
    agreement: AttrSet,
) -> Result<Vec<u8>, OutOfMemory>
    requires within { IsSubset (attributes agreement) (universe_of schema.now) }
    ensures text { IfOk result (λ text. text.items
        ≡ rows_text (names_of schema.now) (shown_tuples schema.now (attributes agreement))) }
{
    print_made_up(alloc, schema, &witness(alloc, &schema.theory(), agreement)?)
}

/// Rows of numbers with values of the columns' types in their place, below the names of the attributes.
pub fn print_made_up(alloc: Global, schema: &Schema, rows: &[Row]) -> Result<Vec<u8>, OutOfMemory>
    requires over { IsOver (width_of schema.now) rows.now }
    requires numerals { HoldsNumerals rows.now }
    ensures text { IfOk result (λ text. text.items
        ≡ rows_text (names_of schema.now) (shown_relation schema.now rows.now)) }
{
    let typed = typed_rows(alloc, schema, rows)?;
    print_rows(alloc, schema, &Rows::of(alloc, &typed)?)
}

/// The row that stands for `0` at each attribute.
pub fn print_zeros(alloc: Global, schema: &Schema) -> Result<Vec<u8>, OutOfMemory>
    ensures text { IfOk result (λ text. text.items ≡ csv_row (shown_zeros schema.now)) }
{
    let pair = witness(alloc, &schema.theory(), AttrSet::full(schema.width()))?;
    let rows = Rows::of(alloc, &typed_rows(alloc, schema, &pair)?)?;
    let mut fields = ByteRecord::new(alloc);
    take_values(&mut fields, &rows, 0)?;
    fields_line(alloc, &fields)
}
