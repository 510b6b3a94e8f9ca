ghost use Rattle.std.specs.Prelude.{All};
ghost use Rattle.named_tables.specs.Choices.{HasRows};

use attr_sets::AttrSet;
use row_store::Rows;
use schema_model::Name;

/// A table that is held in memory.
#[derive(Debug, Drop)]
pub struct HeldTable {
    pub name: Name,
    /// The names of its columns.
    pub columns: Vec<Name>,
    /// Whether a value of each column may be missing, as the empty text is there.
    pub nullable: Vec<bool>,
    /// Its rows, with a value for each column.
    pub rows: Rows,
}

/// A table whose rows are chosen among others, each projected on a scheme.
#[derive(Debug, Drop)]
pub struct ChosenTable {
    pub name: Name,
    /// The names of its columns.
    pub columns: Vec<Name>,
    /// Whether a value of each column may be missing, as the empty text is there.
    pub nullable: Vec<bool>,
    /// The attributes of its columns.
    pub scheme: AttrSet,
    /// The numbers of the rows that are chosen, counted from 0.
    pub chosen: Vec<u32>,
}

/// Tables for the destinations, with the rows that they all choose from.
#[derive(Debug, Drop)]
pub struct ChosenTables {
    pub rows: Rows,
    pub tables: Vec<ChosenTable>,
    pub ghost even: { All (HasRows rows) tables.items },
}
