//! What the lines of derivations come to. A law is a function that does nothing, whose clauses are the law;
//! so the gate asks for its proof.

ghost use Rattle.derivation_mistakes.specs.Laws.{OneMistake, OneListOfMistakenLines, DerivesWithoutMistakes};

/// One thing at most is wrong with a line, and none where its rule gives what it states. The wrong ones of
/// lines are one list. A text derives something exactly where it is a derivation of lines of which none is
/// wrong and the last states that.
pub fn mistakes_are_exact()
    ensures one_mistake { OneMistake }
    ensures one_list { OneListOfMistakenLines }
    ensures no_mistake { DerivesWithoutMistakes }
{}
