//! What is read back from tables of which some may lack a row for one of the whole: the natural
//! join of those that have each, and what is looked up in the others. No code.
//!
//! Each law is a function that does nothing, whose clause is the law; so the gate asks for its
//! proof.
//!
//! Promises: exactly the rows are read back from the tables that are made of them, where the rows
//! are legal, the tables lose nothing and can be looked up, and a row that is left out of a table
//! has nothing there; where no table is optional, what is read back is the natural join, and the
//! rows of a table are all projections.
#![tactic(auto)]

ghost use Rattle.std.specs.Prelude.{◌≡◌, ◌↔◌, ℕ, false, List, map, All, Contains};
ghost use Rattle.attr_sets.specs.Attributes.{Attributes};
ghost use Rattle.attr_sets.specs.Sets.{attributes};
ghost use Rattle.dep_model.specs.Dependencies.{Dependency};
ghost use Rattle.dep_model.specs.Implication.{IsLegal};
ghost use Rattle.dep_model.specs.Projections.{ordered_projection, InJoin};
ghost use Rattle.dep_model.specs.Tuples.{Tuple, Relation};
ghost use Rattle.optional_tables.specs.declared.keyed.KeyedScheme.{KeyedScheme};
ghost use Rattle.optional_tables.specs.Homes.{is_optional};
ghost use Rattle.optional_tables.specs.LookUps.{CanBeReadBack, IsReadBack, IsTidyFor, Missing, AreMissingValues, empty_values, rows_for, schemes_of_tables};

/// From the tables that are made of legal rows exactly the rows are read back, where these tables
/// can be read back and each row that is not complete for one misses all that it has beside its key.
pub fn exactly_the_rows_are_read_back()
    ensures law { (n : ℕ) (ds : List Dependency) (nullable : Attributes) (missing : Missing) (tables : List KeyedScheme)
        (r : Relation) → AreMissingValues nullable missing → IsLegal n ds r → CanBeReadBack n ds nullable tables
        → All (IsTidyFor missing r) tables → (t : Tuple)
        → IsReadBack n nullable missing tables (map (rows_for missing r) tables) t ↔ Contains r t }
{}

/// Where no table is optional, what is read back is the natural join.
pub fn without_optional_tables_the_join_is_read_back()
    ensures law { (n : ℕ) (nullable : Attributes) (missing : Missing) (tables : List KeyedScheme)
        (relations : List Relation) (t : Tuple) → All (λ table. is_optional nullable table ≡ false) tables
        → IsReadBack n nullable missing tables relations t ↔ InJoin n (schemes_of_tables tables) relations t }
{}

/// The rows of a table that is not optional are the projections of all.
pub fn tables_that_are_not_optional_have_all_rows()
    ensures law { (nullable : Attributes) (missing : Missing) (r : Relation) (table : KeyedScheme)
        → AreMissingValues nullable missing → is_optional nullable table ≡ false
        → rows_for missing r table ≡ ordered_projection (attributes table.scheme) r }
{}

/// In files the empty value is the one that may be missing.
pub fn the_empty_value_is_missing()
    ensures law { (nullable : Attributes) → AreMissingValues nullable (empty_values nullable) }
{}
