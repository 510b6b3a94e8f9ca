/// The names of the rules.
#[derive(Clone, Copy, Debug, PartialEq, Eq)]
pub enum RuleName {
    Given,
    Reflexivity,
    Augmentation,
    Transitivity,
    Complementation,
    MReflexivity,
    MAugmentation,
    MTransitivity,
    Replication,
    Coalescence,
}
