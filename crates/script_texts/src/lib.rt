//! The law of the texts of scripts: a script that can be read back from its text is the only one with it. No code.
//!
//! Each law is a function that does nothing, whose clause is the law; so the gate asks for its
//! proof.
//!
//! Promises: two scripts whose names, values and tests need no brackets have one text only where they are one script.
#![tactic(auto)]

ghost use Rattle.std.specs.Prelude.{◌≡◌, List};
ghost use Rattle.sql_syntax.specs.Statements.{Statement, script_text};
ghost use Rattle.script_texts.specs.Scripts.{IsScript};

/// Two scripts that can be read back have one text only where they are one.
pub fn texts_determine_scripts()
    ensures law { (script other : List Statement) → IsScript script → IsScript other
        → script_text script ≡ script_text other → script ≡ other }
{}
