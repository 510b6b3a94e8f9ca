ghost use Rattle.std.specs.Prelude.{◌≡◌, ◌↔◌, ◌++◌, ℕ, List, IsTrue, IfOk, OnOk};
ghost use Rattle.schema_model.specs.Schemas.{width_of, LegalFor};
ghost use Rattle.dep_model.specs.Tuples.{Relation, IsOver};
ghost use Rattle.sql_evaluation.specs.Cells.{Cell};
ghost use Rattle.sql_evaluation.specs.Evaluation.{Engine};
ghost use Rattle.sql_check_laws.specs.HeldRelations.{Holds, CastsIntegers};
ghost use Rattle.sql_check_laws.specs.CheckedRules.{NoBreachShown, RulesHold, NothingShown};
ghost use Rattle.sql_scripts.specs.Naming.{is_table_name, quoted_table};
ghost use Rattle.sql_scripts.specs.Checking.{check_text, rules_text, NothingBreaks};

use crate::integers::add_integers;
use crate::missing::missing_text;
use crate::naming::quote_table;
use crate::rules::rule_text;
use byte_texts::add;
use dep_model::OutOfMemory;
use schema_model::Schema;
use std::alloc::Global;

/// A script that asks a table for the rows in which a value is missing that may not be, for what is no integer
/// in an integer column, and for what breaks each dependency of a schema. Over a relation its queries for the
/// dependencies give nothing exactly where the relation is legal; and in an engine that holds the relation as
/// this table they end without an error and give no row exactly there. So no query of the script gives a row,
/// and none ends with an error, exactly where all rules hold, in each engine that casts integers.
pub fn check_script(alloc: Global, schema: &Schema, table: &[u8]) -> Result<Vec<u8>, OutOfMemory>
    requires name { IsTrue (is_table_name table.now) }
    ensures text { IfOk result (λ text. text.items ≡ check_text schema.now (quoted_table table.now)) }
    ensures exact { (r : Relation) → IsOver (width_of schema.now) r
        → LegalFor schema.now r ↔ NothingBreaks schema.now r }
    ensures tells { (e : Engine) (cell : ℕ → List ℕ → Cell) (r : Relation)
        → Holds e (quoted_table table.now) schema.now cell r → IsOver (width_of schema.now) r
        → LegalFor schema.now r ↔ NoBreachShown e schema.now (quoted_table table.now) }
    ensures tells_all { (e : Engine) (cell : ℕ → List ℕ → Cell) (r : Relation)
        → Holds e (quoted_table table.now) schema.now cell r → IsOver (width_of schema.now) r
        → CastsIntegers e.cast → RulesHold schema.now cell r ↔ NothingShown e schema.now (quoted_table table.now) }
{
    check_text(alloc, schema, table)
}

// The text of the script.
fn check_text(alloc: Global, schema: &Schema, table: &[u8]) -> Result<Vec<u8>, OutOfMemory>
    ensures text { IfOk result (λ text. text.items ≡ check_text schema.now (quoted_table table.now)) }
{
    let table = quote_table(alloc, table)?;
    let mut text = Vec::new(alloc);
    add(
        &mut text,
        b"-- where all rules hold, no query gives a row\n",
    )?;
    add(&mut text, &missing_text(alloc, schema, &table)?)?;
    add_integers(alloc, &mut text, schema, &table)?;
    add_rules(alloc, &mut text, schema, &table)?;
    Ok(text)
}

// Adds each rule, in the order of the file.
fn add_rules(
    alloc: Global,
    text: &mut Vec<u8>,
    schema: &Schema,
    table: &[u8],
) -> Result<(), OutOfMemory>
    ensures added { OnOk result (text.new.items ≡ text.old.items ++ rules_text schema.now table.now) }
{
    for (k, dep) in schema.deps().iter().enumerate() {
        add(
            text,
            &rule_text(alloc, schema, table, schema.line_of(k), *dep)?,
        )?;
    }
    Ok(())
}
