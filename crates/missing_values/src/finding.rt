ghost use Rattle.std.specs.Prelude.{length, IfSome};
ghost use Rattle.attr_sets.specs.Sets.{attributes};
ghost use Rattle.schema_model.specs.Schemas.{width_of, nullable_of};
ghost use Rattle.optional_tables.specs.Hindrances.{IsStuckAt};
ghost use Rattle.missing_values.specs.Missing.{FindsMissing, IsLeastInKey};
ghost use Rattle.missing_values.specs.Refusals.{IsWithin};

use crate::MissingRefusal;
use attr_sets::AttrSet;
use optional_tables::{KeyedScheme, first_shared, first_stuck};
use schema_model::Schema;

/// What keeps the tables of a design from being read back: the first optional table that cannot be looked up, with the
/// least attribute of its key of which a value may be missing; where there is none, the first table that is a home of
/// an attribute of which an earlier table is one too, with its least such attribute and the first home of that.
pub fn missing_refusal(schema: &Schema, tables: &[KeyedScheme]) -> Option<MissingRefusal>
    ensures finds { FindsMissing (nullable_of schema.now) tables.now result }
    ensures within { IfSome result (IsWithin (width_of schema.now) (length tables.now)) }
{
    refusal_of(schema.nullable(), tables)
}

// The same, where these attributes may be missing.
fn refusal_of(nullable: AttrSet, tables: &[KeyedScheme]) -> Option<MissingRefusal>
    ensures finds { FindsMissing (attributes nullable) tables.now result }
{
    match first_stuck(nullable, tables) {
        Some(table) => Some(MissingRefusal::InKey {
            attribute: least_in_key(nullable, tables, table),
            table,
        }),
        None => match first_shared(nullable, tables) {
            Some(shared) => Some(MissingRefusal::InTwo {
                attribute: shared.attribute,
                earlier: shared.earlier,
                table: shared.table,
            }),
            None => None,
        },
    }
}

// The least attribute of the key of an optional table of which a value may be missing.
fn least_in_key(nullable: AttrSet, tables: &[KeyedScheme], k: usize) -> u8
    requires stuck { IsStuckAt (attributes nullable) tables.now k }
    ensures least { IsLeastInKey (attributes nullable) tables.now k result }
{
    match tables[k].key.intersection(nullable).first() {
        Some(attribute) => attribute,
        None => unreachable!(),
    }
}
