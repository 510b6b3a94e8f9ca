//! Where its files have their meaning and nothing fails, a call ends with yes or no, or runs out of
//! memory (`complete` says it of every call): the laws of the commands on normal forms, plans and
//! tables.

ghost use Rattle.desk_laws.specs.AnsweredTables.{CheckFormIsAnsweredInForm, FormIsAnsweredOfAll, FormIsAnsweredOfPlan, SynthesizeFewestIsAnswered, CheckKeepsIsAnswered, SplitIsAnsweredBcnf, SplitIsAnsweredFourth, SplitIsAnsweredWide, ExhibitIsAnswered, DdlIsAnsweredInForm, DdlIsAnsweredPlan, MigrateIsAnsweredInForm, MigrateIsAnsweredPlan, SmallUniversesAreSplitBcnf, SmallUniversesAreSplitFourth, SampleIsAnswered, DiscoverIsAnswered, DiscoverIsAnsweredSmall, DiscoverIsAnsweredKeys, DiscoverNearIsAnswered, DiscoverAllIsAnswered, ImportCsvIsAnswered, ImportSqlIsAnsweredSqlite, ImportSqlIsAnsweredPostgres, RejoinIsAnswered, RejoinIsAnsweredLookingUp};

/// `check form`, `form`, `synthesize fewest`, `check keeps`, `split` and `exhibit` are answered where the files mean a schema
/// and a plan, and no limit is met.
pub fn forms_are_answered()
    ensures check_form { CheckFormIsAnsweredInForm }
    ensures form { FormIsAnsweredOfAll }
    ensures form_of_plan { FormIsAnsweredOfPlan }
    ensures fewest { SynthesizeFewestIsAnswered }
    ensures check_keeps { CheckKeepsIsAnswered }
    ensures split_bcnf { SplitIsAnsweredBcnf }
    ensures split_fourth { SplitIsAnsweredFourth }
    ensures split_wide { SplitIsAnsweredWide }
    ensures exhibit { ExhibitIsAnswered }
{}

/// `ddl` is answered where the schema file means a schema of which no value may be missing, and a plan in the
/// form is found within the limits, or the plan file means a plan whose chase keeps within its limit.
pub fn ddl_is_answered()
    ensures in_form { DdlIsAnsweredInForm }
    ensures plan { DdlIsAnsweredPlan }
{}

/// `migrate` is answered where also the CSV file has rows, and no file that is read has the name of a
/// table's.
pub fn migrate_is_answered()
    ensures in_form { MigrateIsAnsweredInForm }
    ensures plan { MigrateIsAnsweredPlan }
{}

/// Splitting a universe of at most 13 attributes meets no limit.
pub fn small_universes_are_split()
    ensures bcnf { SmallUniversesAreSplitBcnf }
    ensures fourth { SmallUniversesAreSplitFourth }
{}

/// `sample` is answered with every number of persons that it takes.
pub fn sample_is_answered()
    ensures law { SampleIsAnswered }
{}

/// `discover`, with a bound or without, for keys, near and all, is answered where the CSV file has a header that names
/// its columns, and rows under it, and no limit of the search is met.
pub fn discoveries_are_answered()
    ensures rules { DiscoverIsAnswered }
    ensures small_rules { DiscoverIsAnsweredSmall }
    ensures keys { DiscoverIsAnsweredKeys }
    ensures near { DiscoverNearIsAnswered }
    ensures all { DiscoverAllIsAnswered }
{}

/// `import csv` is answered where the CSV file has a header that names its columns, and rows under it; `import sqlite` and
/// `import postgres` where a word wants a table, and the SQL of the file defines it.
pub fn imports_are_answered()
    ensures csv { ImportCsvIsAnswered }
    ensures sqlite { ImportSqlIsAnsweredSqlite }
    ensures postgres { ImportSqlIsAnsweredPostgres }
{}

/// `rejoin` is answered where the schema file means a schema, from one to 64 files are tables, each
/// attribute has a column in one of them, and in their own order or from the last the joins of the first
/// tables keep within their limit; where they are a readable design that has an optional table, this holds
/// of the others, and what is looked up keeps within it too.
pub fn rejoin_is_answered()
    ensures law { RejoinIsAnswered }
    ensures looking_up { RejoinIsAnsweredLookingUp }
{}
