ghost use Rattle.std.specs.Prelude.{◌≡◌, ◌<◌, ◌≤◌, ℕ, List, [], ◌∷◌, length, nat_eq, position, IfOk, IfErr, Ok, Err};
ghost use Rattle.attr_sets.specs.Attributes.{count_below};
ghost use Rattle.attr_sets.specs.Sets.{attributes};
ghost use Rattle.attr_sets.specs.declared.set.TheConstants.{MOST_ATTRIBUTES};
ghost use Rattle.csv.specs.Records.{fields_of};
ghost use Rattle.csv_rows.specs.Columns.{attribute_of_column, columns_of_header, order_of, IsHeader};
ghost use Rattle.dep_model.specs.Failures.{RefusesAs};
ghost use Rattle.schema_model.specs.Schemas.{names_of, attribute_named, width_of};

use crate::RowRefusal;
use crate::records::field;
use attr_sets::AttrSet;
use csv::ByteRecord;
use dep_model::{Failure, OutOfMemory};
use schema_model::Schema;
use std::alloc::Global;

// An attribute and its column, from 0.
#[derive(Clone, Copy, Debug)]
pub struct ColumnOfAttribute {
    pub attribute: u8,
    pub column: usize,
}

// What rows want of a header: how many columns it has, which attributes have one, and these in the
// order of the schema, each with its column.
#[derive(Drop)]
pub struct Header {
    pub columns: usize,
    pub scheme: AttrSet,
    pub order: Vec<ColumnOfAttribute>,
}

impl Header {
    // The header of these fields.
    pub fn new(
        alloc: Global,
        schema: &Schema,
        fields: &ByteRecord,
    ) -> Result<Header, Failure<RowRefusal>>
        ensures ok { IfOk result
            (λ h. (columns : List ℕ)
            × (columns_of_header (names_of schema.now) (fields_of fields.now) ≡ Ok columns)
            × IsHeader (width_of schema.now) columns h) }
        ensures err { IfErr result
            (RefusesAs (λ e. columns_of_header (names_of schema.now) (fields_of fields.now) ≡ Err e)) }
    {
        let mut columns = Vec::new(alloc);
        let mut scheme = AttrSet::empty();
        for i in 0..fields.len() {
            let column = columns.len() as u32 + 1;
            let attribute = match attribute_of(schema, scheme, field(fields, i), column) {
                Ok(attribute) => attribute,
                Err(refusal) => return Err(Failure::Refused(refusal)),
            };
            scheme = scheme.with(attribute);
            columns.push(attribute)?;
        }
        Ok(Header {
            columns: columns.len(),
            scheme,
            order: columns_in_order(alloc, schema.width(), &columns)?,
        })
    }
}

// The attribute of a column, where the columns before it have those of `before`.
fn attribute_of(
    schema: &Schema,
    before: AttrSet,
    field: &[u8],
    column: u32,
) -> Result<u8, RowRefusal>
    ensures attribute { result
        ≡ attribute_of_column column (attributes before) (attribute_named (names_of schema.now) field.now) }
    ensures within { IfOk result (λ a. a < width_of schema.now) }
{
    match schema.attribute_named(field) {
        None => Err(RowRefusal::UnknownColumn { column }),
        Some(attribute) if before.contains(attribute) => Err(RowRefusal::DoubleColumn { column }),
        Some(attribute) => Ok(attribute),
    }
}

// The attributes that have a column, ascending, each with it.
fn columns_in_order(
    alloc: Global,
    width: u8,
    columns: &[u8],
) -> Result<Vec<ColumnOfAttribute>, OutOfMemory>
    ensures order { IfOk result (λ v. v.items ≡ order_of width columns.now) }
{
    let mut order = Vec::new(alloc);
    for attribute in 0..width {
        match first_column_of(columns, attribute) {
            Some(column) => order.push(ColumnOfAttribute { attribute, column })?,
            None => {}
        }
    }
    Ok(order)
}

// The first column of an attribute.
fn first_column_of(columns: &[u8], attribute: u8) -> Option<usize>
    ensures column { result ≡ position (nat_eq attribute) columns.now }
{
    columns.iter().position(|a| attribute == *a)
}
