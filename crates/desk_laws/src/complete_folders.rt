//! Where its files have their meaning, nothing fails and nothing else has the folder's name, `migrate .. into` ends
//! with yes or no, or runs out of memory (`complete` says it of every call).

ghost use Rattle.desk_laws.specs.AnsweredFolders.{MigrateIntoIsAnsweredInForm, MigrateIntoIsAnsweredPlan};

/// `migrate .. into` is answered where the schema file means a schema of which no value may be missing, the CSV
/// file has rows, a plan in the form is found within the limits, or the plan file means a plan whose chase keeps
/// within its limit, and a look finds that the folder's name is free.
pub fn migrate_into_is_answered()
    ensures in_form { MigrateIntoIsAnsweredInForm }
    ensures plan { MigrateIntoIsAnsweredPlan }
{}
