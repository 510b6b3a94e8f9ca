use dep_model::Dep;
use derivation::{LeafRule, PairRule, StepRule};
use derivation_rules::FurtherRule;

/// The rule that gives a line, with the lines of its premises, from 0.
#[derive(Clone, Copy, Debug)]
pub enum Reason {
    Leaf(LeafRule),
    Step(StepRule, u32),
    Pair(PairRule, u32, u32),
    Decomposition(u32),
    Further(FurtherRule, u32, u32),
}

/// A line of a derivation: what it states, and why.
#[derive(Clone, Copy, Debug)]
pub struct Inference {
    pub stated: Dep,
    pub reason: Reason,
}
