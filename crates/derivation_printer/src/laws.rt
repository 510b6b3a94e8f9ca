//! What printed derivations derive. The law is a function that does nothing, whose clause it is.

ghost use Rattle.derivation_printer.specs.Laws.{PrintedDerives};

/// What is printed of a derivation after the answer `yes` derives what its last line states, however the
/// schema names attributes.
pub fn printed_derives()
    ensures law { PrintedDerives }
{}
