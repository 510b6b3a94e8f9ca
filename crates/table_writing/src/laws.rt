//! Laws of what writing leaves.
ghost use Rattle.std.specs.Prelude.{◌≡◌, ◌≢◌, ℕ, [], List, AllPairs};
ghost use Rattle.named_tables.specs.Tables.{TableValue};
ghost use Rattle.destinations.specs.Formats.{table_files};
ghost use Rattle.destinations.specs.Writing.{with_all_stored};
ghost use Rattle.destinations.specs.declared.format.TableFormat.{TableFormat};

/// The files of tables of different names all stand, where none stood before.
pub fn tables_of_different_names_all_stand()
    ensures law { (front : List ℕ) (format : TableFormat) (tables : List TableValue)
        → AllPairs (λ one other. one.name ≢ other.name) tables
        → with_all_stored (table_files front format tables) [] ≡ table_files front format tables }
{}
