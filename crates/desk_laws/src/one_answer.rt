//! Laws that what is asked has one answer over known files.

ghost use Rattle.desk_laws.specs.OneAnswers.{TextsOfFilesHaveOneReadingSchema, TextsOfFilesHaveOneReadingPlan, TextsOfFilesHaveOneReadingProof, TextsOfFilesHaveOneReadingDerivation, TextsOfFilesHaveOneReadingRows, TasksHaveOneAnswer, WordsHaveOneAnswer};

/// The text of a file has one reading: of a schema, of a plan, of a certificate, of a derivation, and of
/// rows.
pub fn texts_of_files_have_one_reading()
    ensures schema { TextsOfFilesHaveOneReadingSchema }
    ensures plan { TextsOfFilesHaveOneReadingPlan }
    ensures proof { TextsOfFilesHaveOneReadingProof }
    ensures derivation { TextsOfFilesHaveOneReadingDerivation }
    ensures rows { TextsOfFilesHaveOneReadingRows }
{}

/// What is asked of a schema, with the files after it, has one answer, which rests on what a look at a name is
/// answered: two answers are equal, but for the derivation of a goal that is not fixed, and for a page, which shows
/// derivations.
pub fn tasks_have_one_answer()
    ensures law { TasksHaveOneAnswer }
{}

/// Any two answers that words have over known files, where a look at a name has one answer, are equal,
/// unless the words ask whether a goal is implied which is: then both answers are yes, and equal where the
/// derivation is fixed; or unless they ask for a page, which shows derivations: then both answers are yes; or unless
/// they ask for the rules of a file's rows: then one of the answers is the refusal of a column that has too many left
/// sides.
pub fn words_have_one_answer()
    ensures law { WordsHaveOneAnswer }
{}
