use attr_sets::AttrSet;

/// The scheme of a table, and its key.
#[derive(Clone, Copy, Debug, PartialEq, Eq)]
pub struct KeyedScheme {
    pub scheme: AttrSet,
    pub key: AttrSet,
}
