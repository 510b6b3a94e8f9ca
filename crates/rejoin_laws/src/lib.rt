//! What comes of tables that are joined and looked up: the tuples that are read back. No code.
//!
//! Each law is a function that does nothing, whose clause is the law; so the gate asks for its
//! proof.
//!
//! Promises: where each table that is looked up shares its key and no more with those before it,
//! the rows are exactly the tuples that are read back from all.
#![tactic(auto)]

ghost use Rattle.std.specs.Prelude.{◌≡◌, ◌↔◌, ◌++◌, ℕ, true, false, List, All, Contains};
ghost use Rattle.std.specs.List.{AllZip};
ghost use Rattle.attr_sets.specs.Attributes.{Attributes};
ghost use Rattle.dep_model.specs.Projections.{Covers};
ghost use Rattle.dep_model.specs.Tuples.{Relation, Tuple};
ghost use Rattle.optional_tables.specs.Homes.{is_optional};
ghost use Rattle.optional_tables.specs.LookUps.{IsReadBack, empty_values};
ghost use Rattle.optional_tables.specs.declared.keyed.KeyedScheme.{KeyedScheme};
ghost use Rattle.table_join.specs.Factors.{covered_by};
ghost use Rattle.table_join.specs.LookUps.{AreJoinedAndLookedUp};
ghost use Rattle.table_join.specs.Tables.{IsTable, PartialRelation, plan_of_tables, rows_of_tables};
ghost use Rattle.rejoin_laws.specs.ByKeys.{AreLookedUpByKeys, IsOver};

/// The rows of tables that are joined, and of others that are looked up by their keys, are the tuples that are read back
/// from all.
pub fn looked_up_rows_are_read_back()
    ensures law { (n limit : ℕ) (nullable : Attributes) (filled optional : List KeyedScheme)
        (tables others : List PartialRelation) (rows : Relation) → All (IsTable n) tables → All (IsTable n) others
        → Covers n (plan_of_tables (tables ++ others)) → AllZip IsOver filled tables → AllZip IsOver optional others
        → All (λ table. is_optional nullable table ≡ false) filled
        → All (λ table. is_optional nullable table ≡ true) optional
        → AreLookedUpByKeys nullable (covered_by (plan_of_tables tables)) optional
        → AreJoinedAndLookedUp n nullable limit tables others rows → (t : Tuple) → Contains rows t
        ↔ IsReadBack n nullable (empty_values nullable) (filled ++ optional) (rows_of_tables (tables ++ others)) t }
{}
