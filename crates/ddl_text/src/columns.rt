ghost use Rattle.std.specs.Prelude.{◌≡◌, ◌<◌, ◌∷◌, ◌++◌, [], if◌then◌else◌, false, codes, decimal, IfOk, IsTrue, OnOk};
ghost use Rattle.attr_sets.specs.Sets.{attributes};
ghost use Rattle.schema_model.specs.Columns.{is_column_type};
ghost use Rattle.schema_model.specs.Schemas.{width_of};
ghost use Rattle.ddl_text.specs.Ddl.{column_made, columns_made, columns_of_set, sql_type};
ghost use Rattle.sql_syntax.specs.Names.{is_not_empty};
ghost use Rattle.sql_syntax.specs.Statements.{element_lines, element_text};

use crate::TableDesign;
use crate::elements::add_opening;
use attr_sets::AttrSet;
use byte_texts::{add, add_digit};
use dep_model::OutOfMemory;
use schema_model::{ColumnType, Schema};
use sql_syntax::add_quoted;

// Adds the columns of a table as the first elements, and says whether there are some.
pub fn add_columns(
    text: &mut Vec<u8>,
    schema: &Schema,
    table: &TableDesign,
) -> Result<bool, OutOfMemory>
    ensures added { OnOk result (text.new.items
        ≡ text.old.items ++ element_lines false (columns_made schema.now table.now)) }
    ensures any_written { IfOk result
        (λ any_before. any_before ≡ is_not_empty (columns_made schema.now table.now)) }
{
    let nullable = schema.nullable().difference(table.key);
    add_columns_of_set(text, schema, nullable, table.scheme)
}

// The same of a scheme, where a value of these attributes may be missing.
fn add_columns_of_set(
    text: &mut Vec<u8>,
    schema: &Schema,
    nullable: AttrSet,
    scheme: AttrSet,
) -> Result<bool, OutOfMemory>
    ensures added { OnOk result (text.new.items ≡ text.old.items
        ++ element_lines false (columns_of_set schema.now (attributes nullable) (attributes scheme))) }
    ensures any_written { IfOk result (λ any_before. any_before
        ≡ is_not_empty (columns_of_set schema.now (attributes nullable) (attributes scheme))) }
{
    let mut any_before = false;
    for attribute in 0..schema.width() {
        if scheme.contains(attribute) {
            add_opening(text, any_before)?;
            add_column(text, schema, nullable, attribute)?;
            any_before = true;
        }
    }
    Ok(any_before)
}

// Adds the column of an attribute.
fn add_column(
    text: &mut Vec<u8>,
    schema: &Schema,
    nullable: AttrSet,
    attribute: u8,
) -> Result<(), OutOfMemory>
    requires attribute { attribute < width_of schema.now }
    ensures added { OnOk result (text.new.items ≡ text.old.items
        ++ element_text (column_made schema.now (attributes nullable) attribute)) }
{
    add_quoted(text, schema.name(attribute))?;
    let column = schema.column(attribute);
    add_type(text, &column, nullable.contains(attribute))
}

// Adds the type of a column, and whether its values may be missing.
fn add_type(text: &mut Vec<u8>, column: &ColumnType, nullable: bool) -> Result<(), OutOfMemory>
    requires { IsTrue (is_column_type column.now) }
    ensures added { OnOk result (text.new.items ≡ text.old.items
        ++ 32 ∷ (sql_type column.now ++ (if nullable then [] else codes " NOT NULL"))) }
{
    add(text, b" ")?;
    add_sql_type(text, column)?;
    if nullable {
        Ok(())
    } else {
        add(text, b" NOT NULL")
    }
}

// Adds a type of columns.
fn add_sql_type(text: &mut Vec<u8>, column: &ColumnType) -> Result<(), OutOfMemory>
    requires { IsTrue (is_column_type column.now) }
    ensures added { OnOk result (text.new.items ≡ text.old.items ++ sql_type column.now) }
{
    match column {
        ColumnType::Text => add(text, b"TEXT"),
        ColumnType::Integer => add(text, b"BIGINT"),
        ColumnType::Date => add(text, b"DATE"),
        ColumnType::Timestamp => add(text, b"TIMESTAMP"),
        ColumnType::Decimal(scale) => add_decimal_type(text, *scale),
        ColumnType::Uuid => add(text, b"UUID"),
        ColumnType::Other(other) => add(text, other.bytes()),
    }
}

fn add_decimal_type(text: &mut Vec<u8>, scale: u8) -> Result<(), OutOfMemory>
    requires { scale < 10 }
    ensures added { OnOk result (text.new.items
        ≡ text.old.items ++ codes "DECIMAL(15, " ++ decimal scale ++ codes ")") }
{
    add(text, b"DECIMAL(15, ")?;
    add_digit(text, scale)?;
    add(text, b")")
}
