//! The statements that create the tables of a design, piece by piece, as the lexemes that stand in
//! them, and the law of its text. No code.
//!
//! Each law is a function that does nothing, whose clause is the law; so the gate asks for its
//! proof.
//!
//! Promises: the text of a design is cut into statements that create exactly its tables, one each,
//! in order: which lexemes each has.
#![tactic(auto)]

ghost use Rattle.std.specs.Prelude.{List, All, IsTrue};
ghost use Rattle.schema_model.specs.Names.{IsName};
ghost use Rattle.schema_model.specs.Schemas.{names_of, types_of};
ghost use Rattle.schema_model.specs.Schemas.{Schema};
ghost use Rattle.ddl_text.specs.Ddl.{ddl_text};
ghost use Rattle.ddl_text.specs.declared.table.TableDesign.{TableDesign};
ghost use Rattle.sql_lexemes.specs.Statements.{statements_of};
ghost use Rattle.sql_lexemes.specs.declared.dialect.Dialect.{Dialect};
ghost use Rattle.ddl_pieces.specs.Created.{AreCreated};
ghost use Rattle.ddl_pieces.specs.Pieces.{is_sound_type};

/// The statements of the text of a design create its tables, one each, in order.
pub fn statements_create_the_tables()
    ensures law { (d : Dialect) (s : Schema) (tables : List TableDesign)
        → All IsName (names_of s)
        → All (λ column. IsTrue (is_sound_type d column)) (types_of s)
        → AreCreated s tables tables (statements_of d (ddl_text s tables)) }
{}
