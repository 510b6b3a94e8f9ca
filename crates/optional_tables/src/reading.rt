ghost use Rattle.std.specs.Prelude.{◌≡◌, ◌↔◌, ◌<◌, ℕ, length, IsTrue, IfNone, IfSome};
ghost use Rattle.attr_sets.specs.Sets.{attributes};
ghost use Rattle.optional_tables.specs.Readable.{CanBeLookedUp, IsReadable};
ghost use Rattle.optional_tables.specs.Hindrances.{IsFirstStuck, IsStuckAt};

use crate::KeyedScheme;
use crate::homes::{beside_key, has_home, is_optional};
use crate::sharing::{first_shared, with_home};
use attr_sets::AttrSet;

/// Whether an optional table can be looked up.
pub fn can_be_looked_up(nullable: AttrSet, tables: &[KeyedScheme], table: KeyedScheme) -> bool
    ensures looked_up { IsTrue result ↔ CanBeLookedUp (attributes nullable) tables.now table }
{
    beside_key(table).is_subset(nullable) && has_home(nullable, tables, table)
}

/// The position of the first optional table that cannot be looked up.
pub fn first_stuck(nullable: AttrSet, tables: &[KeyedScheme]) -> Option<usize>
    ensures none { IfNone result ((k : ℕ) → IsStuckAt (attributes nullable) tables.now k → ⊥) }
    ensures first { IfSome result (IsFirstStuck (attributes nullable) tables.now) }
{
    for k in 0..tables.len() {
        if is_stuck(nullable, tables, k) {
            return Some(k);
        }
    }
    None
}

// Whether the table at a position is optional and cannot be looked up.
fn is_stuck(nullable: AttrSet, tables: &[KeyedScheme], k: usize) -> bool
    requires position { k < length tables.now }
    ensures stuck { IsTrue result ↔ IsStuckAt (attributes nullable) tables.now k }
{
    is_optional(nullable, tables[k]) && !can_be_looked_up(nullable, tables, tables[k])
}

/// Whether tables can be read back.
pub fn is_readable(nullable: AttrSet, tables: &[KeyedScheme]) -> bool
    ensures readable { IsTrue result ↔ IsReadable (attributes nullable) tables.now }
{
    first_stuck(nullable, tables).is_none()
        && first_shared(nullable, tables).is_none()
        && nullable.is_subset(with_home(tables))
}
