ghost use Rattle.std.specs.Prelude.{◌≡◌};
ghost use Rattle.attr_sets.specs.Sets.{attributes};
ghost use Rattle.optional_tables.specs.Homes.{is_optional, is_home_of, has_home, has_outside_key};

use crate::KeyedScheme;
use attr_sets::AttrSet;

/// Whether a table is optional: whether a value of its key may be missing.
pub fn is_optional(nullable: AttrSet, table: KeyedScheme) -> bool
    ensures optional { result ≡ is_optional (attributes nullable) table }
{
    table.key.intersects(nullable)
}

/// Whether another table is a home of an optional one.
pub fn is_home_of(nullable: AttrSet, table: KeyedScheme, home: KeyedScheme) -> bool
    ensures home { result ≡ is_home_of (attributes nullable) table home }
{
    let missing = nullable.intersection(table.key);
    table.key.is_subset(home.scheme) && !missing.intersects(home.key)
}

/// Whether a home of a table is among some tables.
pub fn has_home(nullable: AttrSet, tables: &[KeyedScheme], table: KeyedScheme) -> bool
    ensures home { result ≡ has_home (attributes nullable) tables.now table }
{
    tables.iter().any(|home| is_home_of(nullable, table, *home))
}

// The attributes of a table outside its key.
pub fn beside_key(table: KeyedScheme) -> AttrSet
    ensures beside { attributes result ≡ has_outside_key table }
{
    table.scheme.difference(table.key)
}
