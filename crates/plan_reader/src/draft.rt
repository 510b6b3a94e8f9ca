//! What is read of a plan so far.

ghost use Rattle.std.specs.Prelude.{◌≡◌, OnOk};
ghost use Rattle.plan_printer.specs.NamedPlans.{no_tables, with_table};
ghost use Rattle.plan_reader.specs.Drafts.{drafted, table_read};

use attr_sets::AttrSet;
use dep_model::OutOfMemory;
use schema_model::Name;
use std::alloc::Global;

// The schemes, and beside each the name of its table, where one is given.
#[derive(Debug, Drop)]
pub struct Draft {
    pub schemes: Vec<AttrSet>,
    pub names: Vec<Option<Name>>,
}

impl Draft {
    pub fn new(alloc: Global) -> Draft
        ensures nothing { drafted result ≡ no_tables }
    {
        Draft {
            schemes: Vec::new(alloc),
            names: Vec::new(alloc),
        }
    }

    // Adds a table at the end.
    pub fn add(&mut self, name: Option<Name>, scheme: AttrSet) -> Result<(), OutOfMemory>
        ensures added { OnOk result (drafted self.new ≡ with_table (drafted self.old) (table_read name scheme)) }
    {
        self.schemes.push(scheme)?;
        self.names.push(name)?;
        Ok(())
    }
}
