//! The tables of a design as a picture: a Graphviz text with a node for each table, whose rows are
//! its attributes, those of the key underlined, and an edge for each reference.
//!
//! Names stand in it as the language of Graphviz wants them, whatever bytes they have.
//!
//! Promises: the text of the definition.
#![tactic(auto)]

mod drawing;
mod edges;
mod escapes;
mod nodes;

pub use drawing::draw;
