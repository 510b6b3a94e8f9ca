ghost use Rattle.std.specs.Prelude.{◌≡◌, ◌↔◌, IsTrue, ◌+◌, ◌-◌, ◌<◌, ◌≤◌, ◌^◌, length, IfOk, IfErr, OnOk, Ok, Err};
ghost use Rattle.std.specs.Prelude.{option_map, is_some, position, slice_set, None};
ghost use Rattle.dep_model.specs.Deps.{dependency_of};
ghost use Rattle.derivation.specs.Derivs.{tree_of, leaf_of, step_of, pair_of};
ghost use Rattle.derivation.specs.Table.{leaf_conclusion, step_conclusion, pair_conclusion};
ghost use Rattle.derivation.specs.declared.measures.TheConstants.{MOST_LEVELS};
ghost use Rattle.proof_grammar.specs.Diagnostics.{IsFound};
ghost use Rattle.attr_sets.specs.Sets.{attributes, is_same};
ghost use Rattle.derivation.specs.Trees.{leaf, step, pair};
ghost use Rattle.proof_grammar.specs.Nodes.{with_tree, given_outcome, same_dependency};
ghost use Rattle.schema_model.specs.Schemas.{theory_in};
ghost use Rattle.proof_text.specs.Outcomes.{concluded_outcome};

use crate::line::{Body, Line};
use attr_sets::AttrSet;
use dep_model::Dep;
use derivation::{
    Deriv, Fault, FaultKind, LeafRule, PairRule, StepRule, leaf_conclusion, pair_conclusion,
    step_conclusion,
};
use schema_model::Schema;
use std::alloc::Global;

/// A line's derivation that no later line used.
#[derive(Drop)]
pub struct Open {
    pub deriv: Box<Deriv>,
    pub levels: u32,
    pub dep: Dep,
    pub ghost shallow: { levels ≤ MOST_LEVELS },
}

/// The derivation that a certificate spells, and the dependency that it concludes.
#[derive(Drop)]
pub struct Concluded {
    pub deriv: Box<Deriv>,
    pub dep: Dep,
}

fn is_same(a: AttrSet, b: AttrSet) -> bool
    ensures same { result ≡ is_same (attributes a) (attributes b) }
{
    a.is_subset(b) && b.is_subset(a)
}

/// Whether two dependencies are one.
pub fn same_dependency(a: Dep, b: Dep) -> bool
    ensures same { result ≡ same_dependency (dependency_of a) (dependency_of b) }
    ensures decides { IsTrue result ↔ (dependency_of a ≡ dependency_of b) }
{
    same_sides(a, b)
}

// Whether two dependencies have one arrow and the same sides.
fn same_sides(a: Dep, b: Dep) -> bool
    ensures same { result ≡ same_dependency (dependency_of a) (dependency_of b) }
{
    match (a, b) {
        (
            Dep::Fd { lhs, rhs },
            Dep::Fd {
                lhs: left,
                rhs: right,
            },
        ) => is_same(lhs, left) && is_same(rhs, right),
        (
            Dep::Mvd { lhs, rhs },
            Dep::Mvd {
                lhs: left,
                rhs: right,
            },
        ) => is_same(lhs, left) && is_same(rhs, right),
        _ => false,
    }
}

/// A leaf, where its rule applies.
pub fn leaf(schema: &Schema, rule: LeafRule) -> Result<(Deriv, Dep), FaultKind>
    ensures exact { concluded_outcome result
        ≡ with_tree (leaf (leaf_of rule)) (leaf_conclusion (theory_in schema.now) (leaf_of rule)) }
{
    match leaf_conclusion(&schema.theory(), rule) {
        Ok(dep) => Ok((Deriv::Leaf(rule), dep)),
        Err(kind) => Err(kind),
    }
}

/// The dependency of this number, from 1.
pub fn given_dependency(schema: &Schema, k: u32) -> Result<(Deriv, Dep), FaultKind>
    ensures exact { concluded_outcome result ≡ given_outcome schema.now k }
{
    if k == 0 || k as usize > schema.deps().len() {
        return Err(FaultKind::NoSuchGiven);
    }
    leaf(schema, LeafRule::Given((k - 1) as u16))
}

/// What a rule concludes from an open line.
pub fn step(schema: &Schema, rule: StepRule, premise: Open) -> Result<(Deriv, Dep), FaultKind>
    ensures exact { concluded_outcome result
        ≡ with_tree (step (step_of rule) (tree_of premise.deriv.value))
        (step_conclusion (theory_in schema.now) (step_of rule) (dependency_of premise.dep)) }
{
    match step_conclusion(&schema.theory(), rule, premise.dep) {
        Ok(dep) => Ok((Deriv::Step(rule, premise.deriv), dep)),
        Err(kind) => Err(kind),
    }
}

/// What a rule concludes from two open lines.
pub fn pair(rule: PairRule, first: Open, second: Open) -> Result<(Deriv, Dep), FaultKind>
    ensures exact { concluded_outcome result
        ≡ with_tree (pair (pair_of rule) (tree_of first.deriv.value) (tree_of second.deriv.value))
        (pair_conclusion (pair_of rule) (dependency_of first.dep) (dependency_of second.dep)) }
{
    match pair_conclusion(rule, first.dep, second.dep) {
        Ok(dep) => Ok((Deriv::Pair(rule, first.deriv, second.deriv), dep)),
        Err(kind) => Err(kind),
    }
}
