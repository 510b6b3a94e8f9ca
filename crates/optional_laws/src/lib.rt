//! Laws of the order in which optional tables are looked up, where their keys are primary keys. No
//! code.
//!
//! Each law is a function that does nothing, whose clause is the law; so the gate asks for its
//! proof.
//!
//! Promises: a primary key comes first among the sets that determine its scheme; in tables that can
//! be read back each optional table is looked up after its home; whether they can be does not
//! depend on their order.
#![tactic(auto)]

ghost use Rattle.std.specs.Prelude.{◌≡◌, ℕ, ◌⊎◌, List, Contains, IsPermutation};
ghost use Rattle.attr_sets.specs.Attributes.{Attributes, below, IsSubset};
ghost use Rattle.dep_model.specs.Dependencies.{Dependency};
ghost use Rattle.dep_model.specs.Keys.{IsSuperkey};
ghost use Rattle.primary_keys.specs.PrimaryKeys.{IsPrimaryKey};
ghost use Rattle.optional_tables.specs.declared.keyed.KeyedScheme.{KeyedScheme};
ghost use Rattle.optional_tables.specs.Order.{HomesComeFirst, always_filled, look_up_order, members_at};
ghost use Rattle.optional_tables.specs.Readable.{IsReadable};
ghost use Rattle.optional_laws.specs.KeyOrder.{HasPrimaryKey, IsLess};

/// Among the sets that determine a scheme its primary key comes first: it has less that may be missing than each other
/// one, by the greatest such attribute in which they differ, or as much and less of the rest.
pub fn primary_keys_come_first()
    ensures law { (n : ℕ) (ds : List Dependency) (nullable scheme key other : Attributes)
        → IsSubset scheme (below n) → IsPrimaryKey n ds nullable scheme key
        → IsSuperkey n ds scheme other → (key ≡ other) ⊎ IsLess nullable key other }
{}

/// Where tables with primary keys can be read back, homes are never circular: in the order of look-ups each optional
/// table comes after its home, or that is not optional.
pub fn homes_come_first()
    ensures law { (n : ℕ) (ds : List Dependency) (nullable : Attributes) (tables : List KeyedScheme)
        → ((table : KeyedScheme) → Contains tables table → HasPrimaryKey n ds nullable table)
        → IsReadable nullable tables
        → HomesComeFirst nullable (members_at tables (always_filled nullable tables))
        (members_at tables (look_up_order nullable tables)) }
{}

/// Whether tables can be read back does not depend on their order.
pub fn readable_in_any_order()
    ensures law { (nullable : Attributes) (tables others : List KeyedScheme) → IsPermutation tables others
        → IsReadable nullable tables → IsReadable nullable others }
{}
