//! The schemes of tables with their primary keys.

ghost use Rattle.std.specs.Prelude.{◌≡◌, ◌≤◌, length, map, All, IfOk};
ghost use Rattle.attr_sets.specs.Attributes.{IsSubset};
ghost use Rattle.attr_sets.specs.Sets.{attributes};
ghost use Rattle.dep_model.specs.Projections.{IsLossless};
ghost use Rattle.optional_tables.specs.LookUps.{schemes_of_tables};
ghost use Rattle.plans.specs.Plans.{IsPlanOver, plan_of};
ghost use Rattle.schema_model.specs.Schemas.{theory_in, theory_of, universe_of, width_of};
ghost use Rattle.desk_tables.specs.Tidiness.{HasPrimaryKey, IsKeyedDesign};

use attr_sets::AttrSet;
use dep_model::OutOfMemory;
use design_order::in_design_order;
use optional_tables::KeyedScheme;
use plans::Plan;
use primary_keys::primary_key;
use schema_model::Schema;
use std::alloc::Global;
use table_names::MOST_TABLES;

/// The schemes of a plan in the order of a design, each with its primary key. No memory holds a plan of more tables
/// than have a name.
pub fn keyed_design(
    alloc: Global,
    schema: &Schema,
    plan: &Plan,
) -> Result<Vec<KeyedScheme>, OutOfMemory>
    requires universe { IsPlanOver (theory_in schema.now) plan.now }
    ensures keyed { IfOk result (λ design. IsKeyedDesign schema.now (plan_of plan.now) design.items) }
    ensures within_limit { IfOk result (λ design. length design.items ≤ MOST_TABLES) }
    ensures schemes_within { IfOk result (λ design.
        All (λ table. IsSubset (attributes table.scheme) (universe_of schema.now)) design.items) }
    ensures lossless { IsLossless (width_of schema.now) (theory_of schema.now) (plan_of plan.now)
        → IfOk result (λ design.
        IsLossless (width_of schema.now) (theory_of schema.now) (schemes_of_tables design.items)) }
{
    let ordered = in_design_order(alloc, &schema.theory(), plan)?;
    if ordered.schemes().len() > MOST_TABLES as usize {
        return Err(OutOfMemory);
    }
    keyed_schemes(alloc, schema, ordered.schemes())
}

/// Schemes, each with its primary key.
pub fn keyed_schemes(
    alloc: Global,
    schema: &Schema,
    schemes: &[AttrSet],
) -> Result<Vec<KeyedScheme>, OutOfMemory>
    requires within { All (λ scheme. IsSubset (attributes scheme) (universe_of schema.now)) schemes.now }
    ensures schemes { IfOk result (λ keyed. map (λ table. table.scheme) keyed.items ≡ schemes.now) }
    ensures keys { IfOk result (λ keyed. All (HasPrimaryKey schema.now) keyed.items) }
{
    let mut keyed = Vec::with_capacity(alloc, schemes.len())?;
    for scheme in schemes {
        keyed.push(keyed_scheme(schema, *scheme))?;
    }
    Ok(keyed)
}

// A scheme with its primary key.
fn keyed_scheme(schema: &Schema, scheme: AttrSet) -> KeyedScheme
    requires within { IsSubset (attributes scheme) (universe_of schema.now) }
    ensures scheme { result.scheme ≡ scheme }
    ensures key { HasPrimaryKey schema.now result }
{
    let key = primary_key(&schema.theory(), schema.nullable(), scheme);
    KeyedScheme { scheme, key }
}
