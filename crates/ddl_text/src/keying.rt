ghost use Rattle.std.specs.Prelude.{◌≡◌, map, IfOk};
ghost use Rattle.ddl_text.specs.Designs.{keyed};

use crate::TableDesign;
use dep_model::OutOfMemory;
use optional_tables::KeyedScheme;
use std::alloc::Global;

impl TableDesign {
    /// The scheme of a table, and its key.
    pub fn keyed(&self) -> KeyedScheme
        ensures keyed { result ≡ keyed self.now }
    {
        KeyedScheme {
            scheme: self.scheme,
            key: self.key,
        }
    }
}

/// The schemes of tables with their keys, in order.
pub fn keyed_tables(alloc: Global, tables: &[TableDesign]) -> Result<Vec<KeyedScheme>, OutOfMemory>
    ensures keyed { IfOk result (λ found. found.items ≡ map keyed tables.now) }
{
    let mut keyed = Vec::new(alloc);
    for table in tables {
        keyed.push(table.keyed())?;
    }
    Ok(keyed)
}
