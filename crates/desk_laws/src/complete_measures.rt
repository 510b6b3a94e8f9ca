//! Where its files have their meaning and nothing fails, a call ends with yes or no, or runs out of
//! memory (`complete` says it of every call): the laws of what is wrong with rows.

ghost use Rattle.desk_laws.specs.AnsweredMeasures.{MeasureIsAnswered, OffencesIsAnsweredByClass, OffencesIsAnsweredByRow, KeptIsAnswered};

/// `measure` is answered where the schema file means a schema and the CSV file rows, of whatever values; `offences`
/// where these are rows of its columns; and `kept` where also no dependency is multivalued.
pub fn measures_are_answered()
    ensures measure { MeasureIsAnswered }
    ensures offences_by_class { OffencesIsAnsweredByClass }
    ensures offences_by_row { OffencesIsAnsweredByRow }
    ensures kept { KeptIsAnswered }
{}
