use derivation::FaultKind;

/// The first reason why the rule of a line does not apply. The numbers are those of the lines that it
/// names.
#[derive(Clone, Copy, Debug, PartialEq, Eq)]
pub enum Misuse {
    /// This premise is the first of another kind than the rule takes there, functional or multivalued;
    /// of two that differ in a union it is the second.
    AnotherKind(u32),
    /// The right side of the one is not the left side of the other.
    NotTheLeftSide(u32, u32),
    /// The left sides of both differ.
    LeftSidesDiffer(u32, u32),
    /// The right side of the one does not lie within the left side of the other.
    NotWithinLeftSide(u32, u32),
    /// The left side that is stated is not that of the premise.
    AnotherLeftSide(u32),
    /// The right side that is stated does not lie within that of the premise.
    NotWithinRightSide(u32),
    /// Another fault of the rule table.
    Fault(FaultKind),
}
