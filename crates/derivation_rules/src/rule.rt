/// A further rule with two premises. In the comments `X -> Y` is a functional dependency, `X ->> Y` a
/// multivalued one, and `YZ` the union of `Y` and `Z`.
#[derive(Clone, Copy, Debug, PartialEq, Eq, Hash)]
pub enum FurtherRule {
    /// From `X -> Y` and `X -> Z`: `X -> YZ`; from `X ->> Y` and `X ->> Z`: `X ->> YZ`.
    Union,
    /// From `X -> Y` and `V -> Z`, where `Y` is within `V`: `X` with `V - Y`, `-> Z`.
    Pseudotransitivity,
    /// From `X ->> Y` and `X ->> Z`: `X ->>` what `Y` and `Z` share.
    Intersection,
    /// From `X ->> Y` and `X ->> Z`: `X ->> Y - Z`.
    Difference,
    /// From `X ->> Y` and `V ->> Z`, where `Y` is within `V`: `X` with `V - Y`, `->> Z - V`.
    MPseudotransitivity,
}
