//! Laws of tables and their files. No code.
//!
//! Promises: the CSV file of a table means the table's rows, and so does that of each table of a
//! migration, whatever the names; what stands for a value in its SQL determines the value, also that
//! it is missing; a design in its order states each reference that it can.
#![tactic(auto)]

ghost use Rattle.std.specs.Prelude.{◌≡◌, ◌<◌, ◌≤◌, ℕ, Bool, true, List, length, slice_get, Some, All, Ok};
ghost use Rattle.attr_sets.specs.Attributes.{Attributes, count_below};
ghost use Rattle.attr_sets.specs.Sets.{attributes};
ghost use Rattle.attr_sets.specs.declared.set.AttrSet.{AttrSet};
ghost use Rattle.csv_migrate.specs.Migration.{column_names, tables_of_migration};
ghost use Rattle.csv_rows.specs.Reading.{RowsOf, PartOf};
ghost use Rattle.csv_rows.specs.declared.reading.TheConstants.{MOST_ROWS};
ghost use Rattle.dep_model.specs.OnSchemes.{value_in};
ghost use Rattle.dep_model.specs.Plans.{IsPlan, schemes_of};
ghost use Rattle.column_values.specs.Values.{FitsColumn, FitsColumns};
ghost use Rattle.schema_model.specs.Names.{IsName};
ghost use Rattle.schema_model.specs.Schemas.{names_of, nullable_of, width_of, types_of, theory_of};
ghost use Rattle.dep_model.specs.Tuples.{Relation, IsOver};
ghost use Rattle.schema_model.specs.declared.column_type.ColumnType.{ColumnType};
ghost use Rattle.schema_model.specs.Schemas.{Schema};
ghost use Rattle.ddl_text.specs.Designs.{IsDesign};
ghost use Rattle.ddl_text.specs.declared.table.TableDesign.{TableDesign};
ghost use Rattle.optional_tables.specs.declared.keyed.KeyedScheme.{KeyedScheme};
ghost use Rattle.table_names.specs.TableNames.{GivenNames};
ghost use Rattle.design_order.specs.Order.{IsInDesignOrder};
ghost use Rattle.hex.specs.Hex.{IsBytes};
ghost use Rattle.named_tables.specs.Tables.{TableValue};
ghost use Rattle.destinations.specs.Formats.{table_text};
ghost use Rattle.destinations.specs.Sql.{quoted_text, sql_value, sql_cell};
ghost use Rattle.destinations.specs.declared.format.TableFormat.TheVariants.{Csv};
ghost use Rattle.table_laws.specs.References.{ReferencesAreStated};

/// The CSV file of a table means its rows, where they fit the types of the columns and are no more than
/// a file may have, whatever the names: of a table with all attributes of a schema, and of one with
/// some of them, at least one. So does that of each table of a migration, where the rows that were
/// migrated do so, and no scheme of the design is empty.
pub fn files_of_tables_are_read_back()
    ensures whole { (s : Schema) (table : TableValue) → All IsName (names_of s)
        → table.columns ≡ names_of s → IsOver (width_of s) table.rows → FitsColumns s table.rows
        → length table.rows ≤ MOST_ROWS → RowsOf s (table_text Csv table) (Ok table.rows) }
    ensures part { (s : Schema) (x : Attributes) (table : TableValue)
        → All IsName (names_of s) → 0 < count_below x (width_of s)
        → table.columns ≡ column_names s x → IsOver (count_below x (width_of s)) table.rows
        → All (λ t. (k : ℕ) (column : ColumnType) → x k ≡ true → slice_get (types_of s) k ≡ Some column
        → FitsColumn column (nullable_of s k) (value_in x t k)) table.rows
        → length table.rows ≤ MOST_ROWS → PartOf s (table_text Csv table) (Ok table.rows) }
    ensures migrated { (s : Schema) (names : GivenNames) (design : List KeyedScheme) (rows : Relation)
        → All IsName (names_of s) → IsOver (width_of s) rows → FitsColumns s rows
        → length rows ≤ MOST_ROWS → All (λ table. 0 < count_below (attributes table.scheme) (width_of s)) design
        → All (λ table. PartOf s (table_text Csv table) (Ok table.rows))
        (tables_of_migration s names design rows) }
{}

/// A text between single quotes determines the text: two values with the same one are the same. What
/// stands for a value in an INSERT line determines the value, also that it is missing: in one column
/// two values with the same text are the same. So nothing is lost in an INSERT line.
pub fn cells_of_values_differ()
    ensures texts { (one other : List ℕ) → quoted_text one ≡ quoted_text other → one ≡ other }
    ensures values { (one other : List ℕ) → IsBytes one → IsBytes other
        → sql_value one ≡ sql_value other → one ≡ other }
    ensures cells { (nullable : Bool) (one other : List ℕ) → IsBytes one
        → IsBytes other → sql_cell nullable one ≡ sql_cell nullable other → one ≡ other }
{}

/// In the design of a plan in its order each table refers to every other one whose key, not empty, lies
/// within it, but for later ones that determine the same attributes.
pub fn references_are_stated()
    ensures law { (s : Schema) (names : GivenNames) (plan : List Attributes) (schemes : List AttrSet)
        (tables : List TableDesign) → IsPlan (width_of s) plan
        → IsInDesignOrder (width_of s) (theory_of s) plan (schemes_of schemes)
        → IsDesign s names schemes tables → ReferencesAreStated s tables }
{}
