//! Where its files have their meaning and nothing fails, a call ends with yes or no, or runs out of
//! memory (`complete` says it of every call): the law of derivations.

ghost use Rattle.desk_laws.specs.AnsweredDerivations.{CheckDerivationIsAnswered};

/// `check derivation` is answered where the schema file means a schema, the derivation file lines, and the goal a
/// dependency.
pub fn check_derivation_is_answered()
    ensures law { CheckDerivationIsAnswered }
{}
