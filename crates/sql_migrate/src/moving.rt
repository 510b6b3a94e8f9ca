/// How a column goes from table to table.
#[derive(Clone, Copy)]
pub enum Move {
    /// Of the copy, into a table of the design.
    Entering,
    /// Of the view, by its text.
    Returning,
}
