//! The laws that the scripts which are printed are read back from their texts. No code.
//!
//! Each law is a function that does nothing, whose clauses are the law; so the gate asks for its
//! proof.
//!
//! Promises: what `sql check`, `sql measure`, `ddl` and `sql migrate` print is the text of a script
//! that can be read back, and of no other: of the latter two where no type of a column says itself
//! that no value may be missing.
#![tactic(auto)]

ghost use Rattle.std.specs.Prelude.{◌≡◌, ◌<◌, ◌^◌, ℕ, All, List, length};
ghost use Rattle.schema_model.specs.Names.{IsName};
ghost use Rattle.schema_model.specs.Schemas.{Schema, names_of};
ghost use Rattle.lexer.specs.Lines.{line_texts, without_mark};
ghost use Rattle.schema_grammar.specs.Schemas.{MeansSchema};
ghost use Rattle.schema_grammar.specs.Texts.{declarations_of};
ghost use Rattle.sql_syntax.specs.Syntax.{Query};
ghost use Rattle.sql_syntax.specs.Printing.{query_text};
ghost use Rattle.sql_syntax.specs.Statements.{Statement, script_text};
ghost use Rattle.script_texts.specs.Queries.{IsTableName, IsQuery};
ghost use Rattle.script_texts.specs.Scripts.{IsScript};
ghost use Rattle.ddl_text.specs.declared.table.TableDesign.{TableDesign};
ghost use Rattle.ddl_text.specs.Ddl.{tables_made, ddl_text};
ghost use Rattle.sql_migrate.specs.Script.{migration};
ghost use Rattle.sql_scripts.specs.Checking.{check_text};
ghost use Rattle.sql_scripts.specs.Measuring.{measure_text};
ghost use Rattle.sql_scripts.specs.Migrating.{migrate_text};
ghost use Rattle.sql_scripts.specs.Naming.{quoted_table};
ghost use Rattle.script_laws.specs.Premises.{HasPlainTypes, HasLaterLines};
ghost use Rattle.script_laws.specs.Printed.{check_script, measure_script};

/// Two queries that can be read back have one text only where they are one.
pub fn texts_determine_queries()
    ensures law { (q other : Query) → IsQuery q → IsQuery other → query_text q ≡ query_text other → q ≡ other }
{}

/// What `sql check` prints is the text of a script that can be read back, and of no other, where the rules that may be
/// broken stand after the first line.
pub fn check_scripts_are_read_back()
    ensures text { (s : Schema) (table : List ℕ) → check_text s table ≡ script_text (check_script s table) }
    ensures back { (s : Schema) (table : List ℕ) → IsTableName table → All IsName (names_of s) → HasLaterLines s
        → IsScript (check_script s table) }
    ensures one { (s : Schema) (table : List ℕ) (script : List Statement) → IsTableName table → All IsName (names_of s)
        → HasLaterLines s → IsScript script → script_text script ≡ check_text s table → script ≡ check_script s table }
{}

/// So is what `sql measure` prints, wherever the rules stand.
pub fn measure_scripts_are_read_back()
    ensures text { (s : Schema) (table : List ℕ) → measure_text s table ≡ script_text (measure_script s table) }
    ensures back { (s : Schema) (table : List ℕ) → IsTableName table → All IsName (names_of s)
        → IsScript (measure_script s table) }
    ensures one { (s : Schema) (table : List ℕ) (script : List Statement) → IsTableName table → All IsName (names_of s)
        → IsScript script → script_text script ≡ measure_text s table → script ≡ measure_script s table }
{}

/// What `ddl` prints is the text of such a script, and of no other, where no type of a column says itself that no value
/// may be missing.
pub fn design_scripts_are_read_back()
    ensures back { (s : Schema) (tables : List TableDesign) → All IsName (names_of s) → HasPlainTypes s
        → IsScript (tables_made s tables tables) }
    ensures one { (s : Schema) (tables : List TableDesign) (script : List Statement) → All IsName (names_of s)
        → HasPlainTypes s → IsScript script → script_text script ≡ ddl_text s tables
        → script ≡ tables_made s tables tables }
{}

/// So is what `sql migrate` prints.
pub fn migration_scripts_are_read_back()
    ensures back { (s : Schema) (table : List ℕ) (tables : List TableDesign) → IsTableName table
        → All IsName (names_of s) → HasPlainTypes s → IsScript (migration s table tables) }
    ensures one { (s : Schema) (table : List ℕ) (tables : List TableDesign) (script : List Statement)
        → IsTableName table → All IsName (names_of s) → HasPlainTypes s → IsScript script
        → script_text script ≡ migrate_text s table tables → script ≡ migration s table tables }
{}

/// What these laws ask holds of what a command reads: in each schema that a text means names are names, and the rules that
/// may be broken stand after the first line; and the word for a user's table has in a script the text of a name.
pub fn inputs_fit_scripts()
    ensures names { (text : List ℕ) (s : Schema) → MeansSchema text (declarations_of s) → All IsName (names_of s) }
    ensures lines { (text : List ℕ) (s : Schema) → MeansSchema text (declarations_of s)
        → length (line_texts (without_mark text)) < 2 ^ 63 → HasLaterLines s }
    ensures tables { (word : List ℕ) → IsTableName (quoted_table word) }
{}
