//! Laws of tables that can be read back, and of the order of look-ups. Each is a function that does nothing, whose
//! clause is the law; so the gate asks for its proof.

ghost use Rattle.std.specs.Prelude.{◌≡◌, ◌↔◌, ℕ, true, not, List, Any, filter, IsPermutation};
ghost use Rattle.attr_sets.specs.Attributes.{Attributes};
ghost use Rattle.attr_sets.specs.Sets.{attributes};
ghost use Rattle.optional_tables.specs.declared.keyed.KeyedScheme.{KeyedScheme};
ghost use Rattle.optional_tables.specs.Homes.{is_optional};
ghost use Rattle.optional_tables.specs.Readable.{IsReadable};
ghost use Rattle.optional_tables.specs.Hindrances.{IsUnhindered};
ghost use Rattle.optional_tables.specs.Order.{always_filled, optional_positions, look_up_order, members_at};

/// Tables can be read back exactly where nothing keeps them from it and each attribute of which a value may be missing
/// is in one of them.
pub fn readable_where_unhindered()
    ensures law { (nullable : Attributes) (tables : List KeyedScheme)
        → IsReadable nullable tables
        ↔ (IsUnhindered nullable tables
        × ((a : ℕ) → nullable a ≡ true → Any (λ table. attributes table.scheme a ≡ true) tables)) }
{}

/// The order of look-ups has the position of each optional table, and each once.
pub fn order_has_each()
    ensures law { (nullable : Attributes) (tables : List KeyedScheme)
        → IsPermutation (optional_positions nullable tables) (look_up_order nullable tables) }
{}

/// The tables at the positions of those that are not optional are these tables, in order.
pub fn filled_are_the_others()
    ensures law { (nullable : Attributes) (tables : List KeyedScheme)
        → members_at tables (always_filled nullable tables)
        ≡ filter (λ table. not (is_optional nullable table)) tables }
{}
