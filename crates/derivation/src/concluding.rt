ghost use Rattle.std.specs.Prelude.{◌≡◌, ℕ, ◌+◌, ◌<◌, ◌^◌, IfOk, OnOk, IsOkAnd};
ghost use Rattle.dep_model.specs.Dependencies.{Dependency};
ghost use Rattle.dep_model.specs.Deps.{dependency_of, IsDepWithin};
ghost use Rattle.dep_model.specs.Theories.{universe_of, ImpliedBy};
ghost use Rattle.derivation.specs.Trees.{nodes};
ghost use Rattle.derivation.specs.Derivs.{tree_of, outcome_of};
ghost use Rattle.derivation.specs.Conclusions.{conclusion_after, Proves};

use crate::table::{leaf_conclusion, pair_conclusion, step_conclusion};
use crate::{Deriv, Fault};
use dep_model::{Dep, Theory};

/// What a derivation concludes from the dependencies of a schema, or its first fault.
pub fn conclude(theory: &Theory, deriv: &Deriv) -> Result<Dep, Fault>
    requires fits_u32 { nodes (tree_of deriv.now) < 2 ^ 32 }
    // It concludes what it proves, and nothing else.
    ensures proves { IfOk result (λ d. Proves theory.now (tree_of deriv.now) (dependency_of d)) }
    ensures only { (d : Dependency) → Proves theory.now (tree_of deriv.now) d
        → outcome_of result ≡ Ok d }
    // Whoever made the derivation.
    ensures implied { IfOk result (λ d. ImpliedBy theory.now (dependency_of d)) }
    ensures within { IfOk result (IsDepWithin (universe_of theory.now)) }
    // The first fault in post-order.
    ensures exact { outcome_of result ≡ conclusion_after theory.now 0 (tree_of deriv.now) }
{
    let mut passed = 0;
    conclude_after(theory, deriv, &mut passed)
}

// What a derivation concludes, whose nodes are numbered after those that were passed.
fn conclude_after(theory: &Theory, deriv: &Deriv, passed: &mut u32) -> Result<Dep, Fault>
    requires fits_u32 { passed.old + nodes (tree_of deriv.now) < 2 ^ 32 }
    ensures exact { outcome_of result ≡ conclusion_after theory.now passed.old (tree_of deriv.now) }
    ensures passed { OnOk result (passed.new ≡ passed.old + nodes (tree_of deriv.now)) }
{
    let outcome = match deriv {
        Deriv::Leaf(rule) => leaf_conclusion(theory, *rule),
        Deriv::Step(rule, premise) => {
            let dep = conclude_after(theory, premise, passed)?;
            step_conclusion(theory, *rule, dep)
        }
        Deriv::Pair(rule, first, second) => {
            let left = conclude_after(theory, first, passed)?;
            let right = conclude_after(theory, second, passed)?;
            pair_conclusion(*rule, left, right)
        }
    };
    *passed += 1;
    match outcome {
        Ok(dep) => Ok(dep),
        Err(kind) => Err(Fault {
            node: *passed,
            kind,
        }),
    }
}
