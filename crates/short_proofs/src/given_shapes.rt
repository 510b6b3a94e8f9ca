//! The smallest shape of all given dependencies.

ghost use Rattle.std.specs.Prelude.{◌<◌, ℕ, Bool, length, IfSome};
ghost use Rattle.attr_sets.specs.Attributes.{IsSubset};
ghost use Rattle.attr_sets.specs.Sets.{attributes};
ghost use Rattle.dep_model.specs.Theories.{universe_of, deps_of};
ghost use Rattle.short_proofs.specs.Shapes.{Fits, IsNoLarger};

use crate::shapes::{Shape, Steps, smaller, try_shape};
use attr_sets::AttrSet;
use dep_model::Theory;

/// A shape that proves `lhs ->> rhs`, such that no smaller one does.
pub fn smallest_shape(theory: &Theory, lhs: AttrSet, rhs: AttrSet) -> Option<Shape>
    requires lhs { IsSubset (attributes lhs) (universe_of theory.now) }
    requires rhs { IsSubset (attributes rhs) (universe_of theory.now) }
    ensures fits { IfSome result (Fits theory.now (attributes lhs) (attributes rhs)) }
    ensures no_larger { (k : ℕ) (r c a t g : Bool) → k < length (deps_of theory.now)
        → IsNoLarger theory.now (attributes lhs) (attributes rhs) k r c a t g result }
{
    let mut found = None;
    for number in 0..theory.deps().len() {
        found = smaller(found, shape_of_given(theory, lhs, rhs, number as u16));
    }
    found
}

// The smallest of one given dependency.
fn shape_of_given(theory: &Theory, lhs: AttrSet, rhs: AttrSet, number: u16) -> Option<Shape>
    requires lhs { IsSubset (attributes lhs) (universe_of theory.now) }
    requires rhs { IsSubset (attributes rhs) (universe_of theory.now) }
    ensures fits { IfSome result (Fits theory.now (attributes lhs) (attributes rhs)) }
    ensures no_larger { (r c a t g : Bool)
        → IsNoLarger theory.now (attributes lhs) (attributes rhs) number r c a t g
        result }
{
    smaller(
        replicated_shape(theory, lhs, rhs, number, false),
        replicated_shape(theory, lhs, rhs, number, true),
    )
}

// The smallest of those that are replicated, or not.
fn replicated_shape(
    theory: &Theory,
    lhs: AttrSet,
    rhs: AttrSet,
    number: u16,
    replicated: bool,
) -> Option<Shape>
    requires lhs { IsSubset (attributes lhs) (universe_of theory.now) }
    requires rhs { IsSubset (attributes rhs) (universe_of theory.now) }
    ensures fits { IfSome result (Fits theory.now (attributes lhs) (attributes rhs)) }
    ensures no_larger { (c a t g : Bool)
        → IsNoLarger theory.now (attributes lhs) (attributes rhs) number replicated c a t g
        result }
{
    smaller(
        complemented_shape(theory, lhs, rhs, number, replicated, false),
        complemented_shape(theory, lhs, rhs, number, replicated, true),
    )
}

// The smallest of those that are complemented then, or not.
fn complemented_shape(
    theory: &Theory,
    lhs: AttrSet,
    rhs: AttrSet,
    number: u16,
    replicated: bool,
    complemented: bool,
) -> Option<Shape>
    requires lhs { IsSubset (attributes lhs) (universe_of theory.now) }
    requires rhs { IsSubset (attributes rhs) (universe_of theory.now) }
    ensures fits { IfSome result (Fits theory.now (attributes lhs) (attributes rhs)) }
    ensures no_larger { (a t g : Bool)
        → IsNoLarger theory.now (attributes lhs) (attributes rhs) number replicated complemented a t g
        result }
{
    smaller(
        augmented_shape(theory, lhs, rhs, number, replicated, complemented, false),
        augmented_shape(theory, lhs, rhs, number, replicated, complemented, true),
    )
}

// The smallest of those that are augmented then, or not.
fn augmented_shape(
    theory: &Theory,
    lhs: AttrSet,
    rhs: AttrSet,
    number: u16,
    replicated: bool,
    complemented: bool,
    augmented: bool,
) -> Option<Shape>
    requires lhs { IsSubset (attributes lhs) (universe_of theory.now) }
    requires rhs { IsSubset (attributes rhs) (universe_of theory.now) }
    ensures fits { IfSome result (Fits theory.now (attributes lhs) (attributes rhs)) }
    ensures no_larger { (t g : Bool)
        → IsNoLarger theory.now (attributes lhs) (attributes rhs) number replicated complemented augmented t g
        result }
{
    smaller(
        turned_shape(
            theory,
            lhs,
            rhs,
            number,
            replicated,
            complemented,
            augmented,
            false,
        ),
        turned_shape(
            theory,
            lhs,
            rhs,
            number,
            replicated,
            complemented,
            augmented,
            true,
        ),
    )
}

// The smallest of those that are complemented after that, or not.
fn turned_shape(
    theory: &Theory,
    lhs: AttrSet,
    rhs: AttrSet,
    number: u16,
    replicated: bool,
    complemented: bool,
    augmented: bool,
    turned: bool,
) -> Option<Shape>
    requires lhs { IsSubset (attributes lhs) (universe_of theory.now) }
    requires rhs { IsSubset (attributes rhs) (universe_of theory.now) }
    ensures fits { IfSome result (Fits theory.now (attributes lhs) (attributes rhs)) }
    ensures no_larger { (g : Bool)
        → IsNoLarger theory.now (attributes lhs) (attributes rhs) number replicated complemented augmented turned g
        result }
{
    smaller(
        try_shape(
            theory,
            lhs,
            rhs,
            number,
            Steps {
                replicated,
                complemented,
                augmented,
                turned,
                again: false,
            },
        ),
        try_shape(
            theory,
            lhs,
            rhs,
            number,
            Steps {
                replicated,
                complemented,
                augmented,
                turned,
                again: true,
            },
        ),
    )
}
