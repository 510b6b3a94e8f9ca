//! The functional dependencies that a chain follows.

ghost use Rattle.std.specs.Prelude.{◌≡◌, ◌++◌, ◌↔◌, All, IsTrue, OnOk, IsNone, IfSome, Contains};
ghost use Rattle.attr_sets.specs.Attributes.{union, IsSubset};
ghost use Rattle.attr_sets.specs.Sets.{attributes};
ghost use Rattle.short_derivations.specs.Links.{dep_of_link, deps_of_links, LinksOut};

use attr_sets::AttrSet;
use dep_model::{Dep, OutOfMemory};

/// A functional dependency of a theory: its position, from 0, and its sides.
#[derive(Clone, Copy, Debug)]
pub struct Link {
    pub position: u16,
    pub lhs: AttrSet,
    pub rhs: AttrSet,
}

impl Link {
    // What it says.
    pub fn said(self) -> Dep
        ensures dep { result ≡ dep_of_link self }
    {
        Dep::Fd {
            lhs: self.lhs,
            rhs: self.rhs,
        }
    }

    // Whether both sides hold a set.
    pub fn holds(self, set: AttrSet) -> bool
        ensures both { IsTrue result ↔ (IsSubset (attributes set) (attributes self.lhs)
            × IsSubset (attributes set) (attributes self.rhs)) }
    {
        set.is_subset(self.lhs) && set.is_subset(self.rhs)
    }

    // Whether this link alone leads from a left side beyond a set.
    pub fn replaces(self, lhs: AttrSet, closed: AttrSet) -> bool
        ensures replaces { IsTrue result ↔ (IsSubset (attributes self.lhs) (attributes lhs)
            × IsSubset (attributes closed) (union (attributes self.rhs) (attributes lhs))) }
    {
        self.lhs.is_subset(lhs) && closed.is_subset(self.rhs.union(lhs))
    }
}

// Adds the dependencies of links.
pub fn add_link_deps(deps: &mut Vec<Dep>, links: &[Link]) -> Result<(), OutOfMemory>
    ensures added { OnOk result (deps.new.items ≡ deps.old.items ++ deps_of_links links.now) }
{
    for link in links {
        deps.push(Dep::Fd {
            lhs: link.lhs,
            rhs: link.rhs,
        })?;
    }
    Ok(())
}

// The first link that leads out of a set.
pub fn next_out(links: &[Link], closed: AttrSet) -> Option<Link>
    ensures none { IsNone result → All (λ link. IsSubset (attributes link.lhs) (attributes closed)
        → IsSubset (attributes link.rhs) (attributes closed)) links.now }
    ensures out { IfSome result (LinksOut (attributes closed)) }
    ensures one { IfSome result (Contains links.now) }
{
    for link in links {
        if link.lhs.is_subset(closed) && !link.rhs.is_subset(closed) {
            return Some(*link);
        }
    }
    None
}
