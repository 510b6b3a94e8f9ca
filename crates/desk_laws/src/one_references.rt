//! Each of the commands on references between files has one answer, and what the one lists the other confirms.

ghost use Rattle.desk_laws.specs.OneReferences.{OneAnswerOfCheckReferences, OneAnswerOfDiscoverReferences, ReferencesAreChecked};

/// `discover references` and `check references` have one answer; and the first lists a source with a target exactly
/// where the second says yes of them, and some row misses none of the source's values.
pub fn references_have_one_answer()
    ensures discover { OneAnswerOfDiscoverReferences }
    ensures check { OneAnswerOfCheckReferences }
    ensures checked { ReferencesAreChecked }
{}
