//! Names, types of columns and schemas: what a schema declares beside its dependencies.
//!
//! A `Schema` is the value that it declares: the names of its attributes, the types of their
//! columns, those of which a value may be missing, and its dependencies with the lines on which
//! they stand. `Schema::theory` is what reasoning on its dependencies asks for.
//!
//! Promises: every `Schema` is valid: its names differ, its types fit its names, and its dependencies
//! lie within its universe; two schemas that declare the same are one value.
#![tactic(auto)]

mod column_type;
mod held_bytes;
mod integer;
mod laws;
mod name;
mod naming;
mod schema;
mod type_name;

pub use column_type::{ColumnType, MOST_SCALE};
pub use integer::is_integer_text;
pub use laws::declarations_make_a_schema;
pub use name::{MOST_BARE_NAME_BYTES, MOST_NAME_BYTES, Name, is_bare_name};
pub use naming::Naming;
pub use schema::Schema;
pub use type_name::{MOST_TYPE_BYTES, TypeName};
