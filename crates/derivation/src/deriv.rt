use crate::{LeafRule, PairRule, StepRule};

/// A derivation: a tree of rules over the dependencies of a schema, each after its premises.
#[derive(Debug, Drop)]
pub enum Deriv {
    Leaf(LeafRule),
    Step(StepRule, Box<Deriv>),
    Pair(PairRule, Box<Deriv>, Box<Deriv>),
}
