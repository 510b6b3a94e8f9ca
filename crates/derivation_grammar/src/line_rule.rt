use derivation_rules::FurtherRule;
use proof_grammar::RuleName;

/// The rule that a line of a derivation names.
#[derive(Clone, Copy, Debug, PartialEq, Eq)]
pub enum LineRule {
    /// One of those that certificates have.
    Certificate(RuleName),
    /// Decomposition.
    Decomposition,
    /// One of the further rules with two premises.
    Further(FurtherRule),
}
