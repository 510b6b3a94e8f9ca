ghost use Rattle.std.specs.Prelude.{◌≡◌, not, IfOk};
ghost use Rattle.attr_sets.specs.Attributes.{IsSubset};
ghost use Rattle.attr_sets.specs.Sets.{attributes};
ghost use Rattle.schema_model.specs.Schemas.{universe_of};
ghost use Rattle.ddl_text.specs.Ddl.{is_never_missing};
ghost use Rattle.ddl_text.specs.Designs.{without_key, AreOtherKeys};

use attr_sets::AttrSet;
use dep_model::{Failure, OutOfMemory};
use key_listing::keys_of_scheme;
use schema_model::Schema;
use std::alloc::Global;

// The keys of a scheme beside this one, ascending; none where they are not looked for.
pub fn other_keys(
    alloc: Global,
    schema: &Schema,
    scheme: AttrSet,
    key: AttrSet,
) -> Result<Option<Vec<AttrSet>>, OutOfMemory>
    requires scheme { IsSubset (attributes scheme) (universe_of schema.now) }
    ensures keys { IfOk result (AreOtherKeys schema.now (attributes scheme) (attributes key)) }
{
    if key.is_empty() {
        return Ok(Some(Vec::new(alloc)));
    }
    match keys_of_scheme(alloc, &schema.theory(), scheme) {
        Ok(keys) => Ok(Some(without_key(alloc, &keys, key)?)),
        Err(Failure::Refused(_)) => Ok(None),
        Err(Failure::OutOfMemory) => Err(OutOfMemory),
    }
}

// These keys but for one.
fn without_key(alloc: Global, keys: &[AttrSet], key: AttrSet) -> Result<Vec<AttrSet>, OutOfMemory>
    ensures others { IfOk result (λ others. others.items ≡ without_key (attributes key) keys.now) }
{
    let mut others = Vec::new(alloc);
    for other in keys {
        let is_the_key = *other == key;
        if !is_the_key {
            others.push(*other)?;
        }
    }
    Ok(others)
}

// Whether a value of a key may be missing.
pub fn may_be_missing(schema: &Schema, key: AttrSet) -> bool
    ensures missing { result ≡ not (is_never_missing schema.now (attributes key)) }
{
    key.intersects(schema.nullable())
}
