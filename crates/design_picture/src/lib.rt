//! The tables of a design as a picture in SVG: a box for each table, with a row for its name and
//! one for each attribute, and a line for each reference.
//!
//! A table stands right of those that it refers to. `draw_design` gives the text; `place_tables`
//! says where the boxes stand.
//!
//! Promises: the text of the definition, to the pixel.
#![tactic(auto)]

mod boxes;
mod drawing;
mod lines;
mod places;
mod points;
mod rows;
mod sizes;
mod sums;

pub use drawing::draw_design;
pub use places::{TablePlace, place_tables};
pub use sizes::{TableSize, measure_tables};
