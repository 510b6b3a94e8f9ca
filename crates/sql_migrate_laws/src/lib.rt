//! Laws of what the script of `sql migrate` does in an engine, which may refuse any statement for
//! any reason of its own: what a run leaves, when it ends without an error, and the order in which
//! its view joins the tables. No code.
//!
//! Each law is a function that does nothing, whose clauses are the law; so the gate asks for its
//! proof.
//!
//! Promises: where a run ends without an error, each table of the design holds the projection on its
//! scheme of those rows of the user's table that miss no value of its key, the view on the join of
//! the tables, from which the optional ones are looked up, has exactly the rows of the user's table,
//! which has no other columns, and everything else is as it was; where it ends with an error, nothing
//! is changed. Over a table that holds a relation of which no rule is broken, and in which what an
//! optional table has beside its key is missing wherever a value of the key is, for a design that
//! loses nothing and fits, it ends without an error in an engine that casts integers and refuses
//! nothing but what breaks a key, a reference, or a column in which no value may be missing. Of the
//! tables that are not optional, a cross join stands only between parts that share nothing.
#![tactic(auto)]

mod crossing;
mod ending;
mod moving;

pub use crossing::cross_joins_part_the_plan;
pub use ending::sound_migrations_end;
pub use moving::runs_move_all_or_nothing;
