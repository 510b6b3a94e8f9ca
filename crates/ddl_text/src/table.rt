use attr_sets::AttrSet;
use schema_model::Name;

/// A table for a scheme.
#[derive(Debug, Drop)]
pub struct TableDesign {
    /// Its number in the design, from 1.
    pub number: u32,
    pub name: Name,
    /// The attributes of its columns.
    pub scheme: AttrSet,
    /// A key of the scheme. Where it is empty, the table has one row at most.
    pub key: AttrSet,
    /// The other keys of the scheme, ascending; none where they are not looked for.
    pub other_keys: Option<Vec<AttrSet>>,
    /// The positions, from 0 and ascending, of the tables that it refers to by their keys.
    pub refs: Vec<u32>,
}
