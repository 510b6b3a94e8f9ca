//! Each of the commands that tell what is wrong with rows has one answer.

ghost use Rattle.desk_laws.specs.OneMeasures.{OneAnswerOfMeasure, OneAnswerOfOffencesClasses, OneAnswerOfOffencesRows, OneAnswerOfKept, OneSchemaOfTexts};

/// `measure`, `offences`, by classes and row by row, and `kept` have one answer; and there is one schema of text
/// columns alone that declares what a schema does.
pub fn measures_have_one_answer()
    ensures measure { OneAnswerOfMeasure }
    ensures classes { OneAnswerOfOffencesClasses }
    ensures offending_rows { OneAnswerOfOffencesRows }
    ensures kept { OneAnswerOfKept }
    ensures schema_of_texts { OneSchemaOfTexts }
{}
