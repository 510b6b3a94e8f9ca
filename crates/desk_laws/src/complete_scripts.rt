//! Where its files have their meaning and nothing fails, a call ends with yes or no, or runs out of
//! memory (`complete` says it of every call): the laws of the commands that print scripts and
//! pictures.

ghost use Rattle.desk_laws.specs.AnsweredScripts.{SqlCheckIsAnswered, SqlMeasureIsAnswered, SqlMigrateIsAnsweredInForm, SqlMigrateIsAnsweredPlan, DrawIsAnsweredInForm, DrawIsAnsweredPlan};

/// `sql check` and `sql measure` are answered where the schema file means a schema and the word names a table; `sql
/// migrate` where also its design can be read back, and names no table as the word does; and `draw` where a plan in the
/// form is found within the limits, or the plan file means a plan.
pub fn scripts_are_answered()
    ensures check { SqlCheckIsAnswered }
    ensures measure { SqlMeasureIsAnswered }
    ensures migrate_in_form { SqlMigrateIsAnsweredInForm }
    ensures migrate_by_plan { SqlMigrateIsAnsweredPlan }
    ensures draw_in_form { DrawIsAnsweredInForm }
    ensures draw_plan { DrawIsAnsweredPlan }
{}
