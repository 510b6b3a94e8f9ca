//! Where its files have their meaning and nothing fails, a call ends with yes or no, or runs out of
//! memory (`complete` says it of every call): the laws of the commands on sets, keys of a plan, and
//! two schemas.

ghost use Rattle.desk_laws.specs.AnsweredQuestions.{BasisIsAnswered, ClosureIsAnswered, ProjectIsAnswered, CheckKeyIsAnswered, KeysOfPlanIsAnswered, CheckSameIsAnswered, CheckCoverIsAnswered, CheckCoverCanonicalIsAnswered};

/// `basis`, `closure`, `project` and `check key` are answered where the schema file means a schema and the text a
/// set, of which `project` wants an attribute, and both no limit; `keys` of a plan where the plan file means a plan
/// within the limits; and `check same`, `check cover` and `check cover canonical` where two schema files mean schemas
/// over the same names.
pub fn questions_are_answered()
    ensures basis { BasisIsAnswered }
    ensures closure { ClosureIsAnswered }
    ensures project { ProjectIsAnswered }
    ensures check_key { CheckKeyIsAnswered }
    ensures keys_of_plan { KeysOfPlanIsAnswered }
    ensures check_same { CheckSameIsAnswered }
    ensures check_cover { CheckCoverIsAnswered }
    ensures check_canonical_cover { CheckCoverCanonicalIsAnswered }
{}
