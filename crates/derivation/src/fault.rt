ghost use Rattle.std.specs.Prelude.{◌≡◌, Some};
ghost use Rattle.derivation.specs.FaultTexts.{fault_number, fault_text};

use std::error::Error;
use std::fmt;

/// Why the rule of a node gives no conclusion from those of its premises.
#[derive(Clone, Copy, Debug, PartialEq, Eq, Hash)]
pub enum FaultKind {
    /// The schema has no dependency of this number.
    NoSuchGiven = 1,
    /// A set is not within the universe, or the rule's inclusion fails.
    NotWithin = 2,
    /// A premise is functional where the rule wants a multivalued dependency, or the other way round.
    WrongKind = 3,
    /// The right side of the first premise is not the left side of the second.
    MiddleDiffers = 4,
    /// The left side of the second premise of a coalescence intersects the right side of the first.
    NotDisjoint = 5,
}

/// The first node of a derivation at which a rule gives no conclusion.
#[derive(Clone, Copy, Debug, PartialEq, Eq, Hash)]
pub struct Fault {
    /// The node's number in post-order, from 1: the nodes of the first premise, those of the
    /// second, the node.
    pub node: u32,
    pub kind: FaultKind,
}

impl FaultKind {
    /// The number by which the documents and the program name it.
    pub fn number(self) -> u32
        ensures number { result ≡ fault_number self }
    {
        match self {
            FaultKind::NoSuchGiven => 1,
            FaultKind::NotWithin => 2,
            FaultKind::WrongKind => 3,
            FaultKind::MiddleDiffers => 4,
            FaultKind::NotDisjoint => 5,
        }
    }
}

impl fmt::Display for FaultKind {
    ghost output = { λ kind. Some (fault_text kind) };

    fn fmt<W: fmt::Write>(&self, f: &mut fmt::Formatter<W>) -> fmt::Result {
        match self {
            FaultKind::NoSuchGiven => f.write_str("no such given"),
            FaultKind::NotWithin => f.write_str("not within"),
            FaultKind::WrongKind => f.write_str("wrong kind"),
            FaultKind::MiddleDiffers => f.write_str("middle differs"),
            FaultKind::NotDisjoint => f.write_str("not disjoint"),
        }
    }
}

impl Error for FaultKind {}
