//! Laws that what one command prints after yes, kept in a file, another accepts.

ghost use Rattle.desk_laws.specs.AcceptedTexts.{PrintedCanonicalCoverIsConfirmed, PrintedCoverIsConfirmed, PrintedDerivationIsAccepted, PrintedProofIsAccepted};

/// What `implies` prints after yes, kept in a file, is accepted by `check proof` for the same schema and
/// goal, where the text is within the limit of certificate files.
pub fn printed_proof_is_accepted()
    ensures law { PrintedProofIsAccepted }
{}

/// What `explain implies` prints after yes, kept in a file, is accepted by `check derivation` for the same
/// schema and goal, where the text is within the limit of certificate files.
pub fn printed_derivation_is_accepted()
    ensures law { PrintedDerivationIsAccepted }
{}

/// What `cover` prints, kept in a file, is confirmed by `check cover` for the same schema, and what
/// `cover canonical` prints by `check cover canonical`, where the text is within the limits of schema files.
pub fn printed_covers_are_confirmed()
    ensures minimal { PrintedCoverIsConfirmed }
    ensures canonical { PrintedCanonicalCoverIsConfirmed }
{}
