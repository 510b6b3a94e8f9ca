ghost use Rattle.std.specs.Prelude.{◌≡◌};
ghost use Rattle.dep_model.specs.Theories.{IsTheory, deps_of, width_of};

use crate::Dep;
use std::marker::Model;

/// The most dependencies of a theory.
pub const MOST_DEPENDENCIES: usize = 4096;

/// So many attributes, with dependencies among them: all that reasoning on dependencies asks for.
#[derive(Debug, Drop)]
pub struct Theory<'a> {
    width: u8,
    deps: &'a [Dep],
    pub ghost valid: { IsTheory width deps.now },
}

impl<'a> Model for Theory<'a> {
    ghost use Rattle.dep_model.specs.Theories.{Theory};

    ghost Value = { Theory };

    ghost view = { λ t. record { width = t.width; deps = t.deps.now; valid = t.valid } };
}

impl<'a> Theory<'a> {
    /// The theory of these dependencies among so many attributes.
    pub fn new(width: u8, deps: &'a [Dep]) -> Theory<'a>
        requires theory { IsTheory width deps.now }
        ensures width { width_of result ≡ width }
        ensures deps { deps_of result ≡ deps.now }
    {
        Theory { width, deps }
    }

    /// How many attributes there are.
    pub fn width(&self) -> u8
        ensures count { result ≡ width_of self.now }
    {
        self.width
    }

    /// The dependencies, in the order in which they are given.
    pub fn deps(&self) -> &'a [Dep]
        ensures deps { result.now ≡ deps_of self.now }
    {
        self.deps
    }
}
