ghost use Rattle.std.specs.Prelude.{◌≡◌, ◌++◌, ℕ, List, IsTrue, IfOk, OnOk};
ghost use Rattle.schema_model.specs.Schemas.{width_of};
ghost use Rattle.dep_model.specs.Tuples.{Relation, IsOver};
ghost use Rattle.sql_evaluation.specs.Cells.{Cell};
ghost use Rattle.sql_evaluation.specs.Evaluation.{Engine};
ghost use Rattle.sql_check_laws.specs.HeldRelations.{Holds};
ghost use Rattle.sql_measure_laws.specs.Measured.{MeasuresRules};
ghost use Rattle.sql_scripts.specs.Naming.{is_table_name, quoted_table};
ghost use Rattle.sql_scripts.specs.Measuring.{measure_text, measured_rules_text};

use crate::measured::measured_rule_text;
use crate::naming::quote_table;
use byte_texts::add;
use dep_model::OutOfMemory;
use schema_model::Schema;
use std::alloc::Global;

/// A script that counts in a table what breaks each dependency of a schema. In an engine that holds a
/// relation as this table, its tuples as often as they stand, the query of a dependency ends without
/// an error; it gives no row exactly where the relation obeys the dependency, and else one row with
/// the numbers of its measure.
pub fn measure_script(alloc: Global, schema: &Schema, table: &[u8]) -> Result<Vec<u8>, OutOfMemory>
    requires name { IsTrue (is_table_name table.now) }
    ensures text { IfOk result
        (λ text. text.items ≡ measure_text schema.now (quoted_table table.now)) }
    ensures measures { (e : Engine) (cell : ℕ → List ℕ → Cell) (r : Relation)
        → Holds e (quoted_table table.now) schema.now cell r → IsOver (width_of schema.now) r
        → MeasuresRules e schema.now (quoted_table table.now) r }
{
    measure_text(alloc, schema, table)
}

// The text of the script.
fn measure_text(alloc: Global, schema: &Schema, table: &[u8]) -> Result<Vec<u8>, OutOfMemory>
    ensures text { IfOk result
        (λ text. text.items ≡ measure_text schema.now (quoted_table table.now)) }
{
    let table = quote_table(alloc, table)?;
    let mut text = Vec::new(alloc);
    add(
        &mut text,
        b"-- where a rule is broken, its query gives one row: broken groups, rows in them, ",
    )?;
    add(&mut text, b"and how many must change or are missing\n")?;
    add_measured_rules(alloc, &mut text, schema, &table)?;
    Ok(text)
}

// Adds each rule, in the order of the file.
fn add_measured_rules(
    alloc: Global,
    text: &mut Vec<u8>,
    schema: &Schema,
    table: &[u8],
) -> Result<(), OutOfMemory>
    ensures added { OnOk result (text.new.items
        ≡ text.old.items ++ measured_rules_text schema.now table.now) }
{
    for (k, dep) in schema.deps().iter().enumerate() {
        add(
            text,
            &measured_rule_text(alloc, schema, table, schema.line_of(k), *dep)?,
        )?;
    }
    Ok(())
}
