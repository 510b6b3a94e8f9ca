//! Where its files have their meaning and nothing fails, a call ends with yes or no, or runs out of
//! memory (`complete` says it of every call): the laws of explanations.

ghost use Rattle.desk_laws.specs.AnsweredReasons.{ExplainImpliesIsAnswered, ExplainCoverIsAnswered, ExplainKeysIsAnswered, ExplainSynthesizeIsAnswered, ExplainFewestIsAnswered, ExplainSplitIsAnsweredBcnf, ExplainSplitIsAnsweredFourth};

/// `explain` is answered where what it explains is: `explain implies` where the goal is a dependency, `explain cover`,
/// `explain synthesize` and `explain synthesize fewest` where the schema file means a schema, `explain keys` and
/// `explain split` where also no limit is met.
pub fn explanations_are_answered()
    ensures implies { ExplainImpliesIsAnswered }
    ensures cover { ExplainCoverIsAnswered }
    ensures keys { ExplainKeysIsAnswered }
    ensures synthesize { ExplainSynthesizeIsAnswered }
    ensures fewest { ExplainFewestIsAnswered }
    ensures split_bcnf { ExplainSplitIsAnsweredBcnf }
    ensures split_fourth { ExplainSplitIsAnsweredFourth }
{}
