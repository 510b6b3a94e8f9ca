ghost use Rattle.std.specs.Prelude.{◌≡◌, IfOk, OnOk};
ghost use Rattle.csv.specs.Records.{fields_of};
ghost use Rattle.csv_text.specs.Rows.{rows_text};
ghost use Rattle.schema_model.specs.Schemas.{names_of, width_of};
ghost use Rattle.dep_model.specs.Tuples.{IsOver};

use csv::{ByteRecord, Writer};
use csv_text::{take_values, write_row};
use dep_model::OutOfMemory;
use row_store::Rows;
use schema_model::Schema;
use std::alloc::Global;

/// A header of the declared names, and then the rows in their order.
pub fn print_rows(alloc: Global, schema: &Schema, rows: &Rows) -> Result<Vec<u8>, OutOfMemory>
    requires over { IsOver (width_of schema.now) rows.now }
    ensures text { IfOk result (λ v. v.items ≡ rows_text (names_of schema.now) rows.now) }
{
    let mut writer = Writer::from_writer(Vec::new(alloc));
    let mut fields = ByteRecord::new(alloc);
    take_names(&mut fields, schema)?;
    write_row(&mut writer, &fields)?;
    for row in 0..rows.len() {
        take_values(&mut fields, rows, row)?;
        write_row(&mut writer, &fields)?;
    }
    match writer.into_inner() {
        Ok(text) => Ok(text),
        Err(_) => Err(OutOfMemory),
    }
}

// The fields become the declared names.
#[tactic(auto, using(dep_model::proofs::ListLemmas::take_next))]
fn take_names(fields: &mut ByteRecord, schema: &Schema) -> Result<(), OutOfMemory>
    ensures names { OnOk result (fields_of fields.new ≡ names_of schema.now) }
{
    fields.clear();
    for i in 0..schema.width() {
        fields.push_field(schema.name(i).bytes())?;
    }
    Ok(())
}
