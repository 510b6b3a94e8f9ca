//! Laws that what `ddl` prints `import` reads back.

ghost use Rattle.desk_laws.specs.ImportedAgain.{TablesOfAPlanAreImported, TablesOfAFormAreImported};

/// What `ddl plan` prints after yes, kept in a file, is imported table by table: the schema of a table of the design
/// has its columns, those of which a value may be missing, and its keys.
pub fn tables_of_a_plan_are_imported()
    ensures law { TablesOfAPlanAreImported }
{}

/// The same of what `ddl` prints for a normal form.
pub fn tables_of_a_form_are_imported()
    ensures law { TablesOfAFormAreImported }
{}
