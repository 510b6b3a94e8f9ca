use attr_sets::AttrSet;
use schema_model::Name;

/// A table that a view joins.
#[derive(Clone, Copy)]
pub struct JoinedTable {
    pub name: Name,
    /// The attributes of its columns.
    pub scheme: AttrSet,
}
