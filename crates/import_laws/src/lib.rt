//! Laws of what `import` reads of the SQL of a design, which `ddl` prints. No code.
//!
//! Each law is a function that does nothing, whose clause is the law; so the gate asks for its
//! proof.
//!
//! Promises: of each table its columns, those of which a value may be missing, and the keys that
//! the SQL states, but one of all columns, are read back.
#![tactic(auto)]

ghost use Rattle.std.specs.Prelude.{◌≡◌, ℕ, false, IsTrue, List, Ok, Some, slice_get};
ghost use Rattle.attr_sets.specs.declared.set.AttrSet.{AttrSet};
ghost use Rattle.schema_model.specs.Columns.{is_column_type};
ghost use Rattle.schema_model.specs.declared.column_type.ColumnType.{ColumnType};
ghost use Rattle.schema_model.specs.declared.column_type.ColumnType.TheVariants as type;
ghost use Rattle.schema_model.specs.Schemas.{Schema};
ghost use Rattle.schema_grammar.specs.Schemas.{MeansSchema};
ghost use Rattle.table_names.specs.TableNames.{GivenNames};
ghost use Rattle.ddl_text.specs.Ddl.{ddl_text};
ghost use Rattle.ddl_text.specs.declared.table.TableDesign.{TableDesign};
ghost use Rattle.sql_lexemes.specs.declared.dialect.Dialect.{Dialect};
ghost use Rattle.ddl_pieces.specs.Pieces.{is_own_type};
ghost use Rattle.sql_definitions.specs.Definitions.{definition_of};
ghost use Rattle.sql_definitions.specs.Facts.{Facts};
ghost use Rattle.sql_schemas.specs.Texts.{imported_text};
ghost use Rattle.import_laws.specs.ImportedTables.{imported_table};
ghost use Rattle.import_laws.specs.PrintedDesigns.{IsPrintedDesign};
ghost use Rattle.import_laws.specs.ReadTables.{StatesTable, named};
ghost use Rattle.import_laws.specs.StatedTypes.{IsWrittenType, read_type, states_a_type};
ghost use Rattle.import_laws.specs.StatedTypes.{is_serial_type};

/// A type of columns that a schema states by a word of its own is stated by its text, as the laws of
/// designs ask; it is not serial. A type with a text of its own that has the form in which `import`
/// writes types is read back as it is, or as one that a schema states by a word of its own; and what
/// `import` reads of any type, if it has a text of its own, has this form: so it is read again.
pub fn types_are_read_back()
    ensures stated { (d : Dialect) (column : ColumnType) → IsTrue (is_own_type column)
        → IsTrue (states_a_type d column) × (is_serial_type d column ≡ false) }
    ensures written { (d : Dialect) (text : List ℕ) → IsTrue (is_column_type (type.Other text)) → IsWrittenType text
        → is_own_type (read_type d (type.Other text)) ≡ false
        → read_type d (type.Other text) ≡ type.Other text }
    ensures read_again { (d : Dialect) (column : ColumnType) (text : List ℕ) → IsTrue (is_column_type column)
        → read_type d column ≡ type.Other text
        → IsWrittenType text × IsTrue (is_column_type (type.Other text)) }
{}

/// The SQL of a design defines each of its tables: the columns of its scheme, its key, if it is not
/// empty, and those other keys of which no value may be missing. The schema that is imported of a table
/// of a design has its columns, those outside its key of which a value may be missing, and the keys
/// that are stated, but for one of all columns.
pub fn designs_are_read_back()
    ensures defined { (d : Dialect) (s : Schema) (given : GivenNames) (schemes : List AttrSet)
        (tables : List TableDesign) (k : ℕ) (table : TableDesign) → IsPrintedDesign d s given schemes tables → slice_get tables k ≡ Some table
        → (f : Facts) × (definition_of d (named table.name) (ddl_text s tables) ≡ Ok f) × StatesTable d s table f }
    ensures imported { (d : Dialect) (s : Schema) (given : GivenNames) (schemes : List AttrSet)
        (tables : List TableDesign) (k : ℕ) (table : TableDesign) → IsPrintedDesign d s given schemes tables
        → slice_get tables k ≡ Some table
        → (printed : List ℕ) × (lines : List ℕ) × (imported_text d (named table.name) (ddl_text s tables) ≡ Ok printed)
        × MeansSchema printed (imported_table d s table lines) }
{}
