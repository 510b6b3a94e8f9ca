ghost use Rattle.std.specs.Prelude.{◌≡◌, ℕ, ◌+◌, ◌-◌, ◌==◌, ◌<◌, ◌≤◌, ◌^◌, [], length, IfOk, IfErr, OnOk, Ok, Err};
ghost use Rattle.std.specs.Prelude.{Some, option_map, is_some, position, take, max};
ghost use Rattle.dep_model.specs.Deps.{dependency_of, IsDepWithin};
ghost use Rattle.derivation.specs.Derivs.{step_of, pair_of, tree_of};
ghost use Rattle.proof_grammar.specs.CheckerStates.{root, within_limits};
ghost use Rattle.proof_text.specs.Outcomes.{concluded_outcome};
ghost use Rattle.proof_text.specs.Views.{opened_of, opened_all, line_of, body_of};
ghost use Rattle.attr_sets.specs.Attributes.{Attributes};
ghost use Rattle.dep_model.specs.Failures.{RefusesAs};
ghost use Rattle.schema_model.specs.Schemas.{universe_of};
ghost use Rattle.proof_grammar.specs.Diagnostics.{IsFound, IsFoundAt, IsRefusalWithin};

use crate::line::{Body, Line};
use crate::node::{Concluded, Open, given_dependency, leaf, pair, same_dependency, step};
use dep_model::{Dep, Failure, OutOfMemory, sides};
use derivation::{Deriv, Fault, FaultKind, LeafRule, MOST_LEVELS, MOST_NODES, PairRule, StepRule};
use proof_grammar::{ProofRefusal, ProofRefusalKind};
use schema_model::Schema;
use std::alloc::Global;

/// The certificate lines that are read: in which line of the text each stands, and its derivation until
/// a later line uses it.
#[derive(Drop)]
pub struct CheckerState {
    pub lines: Vec<u32>,
    pub unused: Vec<Option<Open>>,
}

/// The node of a line: how many levels it has, and what its rule concludes.
#[derive(Drop)]
pub struct Node {
    levels: u32,
    outcome: Result<(Deriv, Dep), FaultKind>,
}

impl CheckerState {
    ghost use Rattle.proof_grammar.specs.ValidStates.{IsCheckerState};
    ghost use Rattle.proof_grammar.specs.CheckerStates.{is_earlier, open_at, close_line, prepare_line, step_of_line};
    ghost use Rattle.proof_grammar.specs.CheckerStates.{pair_of_line, enter_line, add_line, finished_certificate};
    ghost use Rattle.proof_grammar.specs.CheckerStates.{root_conclusion};
    ghost use Rattle.proof_text.specs.Views.{prepared_of, checker_state_of};

    pub fn new(alloc: Global) -> CheckerState
        ensures empty { checker_state_of result ≡ record { lines = []; unused = [] } }
    {
        CheckerState {
            lines: Vec::new(alloc),
            unused: Vec::new(alloc),
        }
    }

    /// Whether a line has this number.
    fn is_earlier(&self, p: u32) -> bool
        ensures earlier { result ≡ is_earlier (opened_all self.now.unused.items) p }
    {
        0 < p && p as usize <= self.unused.len()
    }

    /// Takes what is not used of the line of this number.
    fn take(&mut self, p: u32) -> Option<Open>
        requires positive { 0 < p }
        requires earlier { p ≤ length self.old.unused.items }
        ensures taken { option_map opened_of result ≡ open_at (opened_all self.old.unused.items) p }
        ensures closed { opened_all self.new.unused.items
            ≡ close_line (opened_all self.old.unused.items) p }
        ensures lines { self.new.lines.items ≡ self.old.lines.items }
        ensures length { length self.new.unused.items ≡ length self.old.unused.items }
    {
        self.unused[p as usize - 1].take()
    }

    /// The node of a line. Its premises are taken.
    #[tactic(auto, unfolding(proof_grammar::specs::CheckerStates::prepare_line))]
    fn prepare(&mut self, schema: &Schema, line: &Line) -> Result<Node, ProofRefusalKind>
        ensures ok { IfOk result
            (λ node. prepare_line schema.now (opened_all self.old.unused.items)
            (dependency_of line.now.stated) (body_of line.now.body)
            ≡ Ok (prepared_of node (opened_all self.new.unused.items))) }
        ensures err { IfErr result
            (λ why. IsFound why
            (prepare_line schema.now (opened_all self.old.unused.items) (dependency_of line.now.stated)
            (body_of line.now.body))) }
        ensures within { (u : Attributes) → IfErr result (IsRefusalWithin u) }
        ensures lines { self.new.lines.items ≡ self.old.lines.items }
        ensures length { length self.new.unused.items ≡ length self.old.unused.items }
    {
        match line.body {
            Body::Given(k) => Ok(Node {
                levels: 1,
                outcome: given_dependency(schema, k),
            }),
            Body::Reflexivity => {
                let (lhs, rhs) = sides(line.stated);
                Ok(Node {
                    levels: 1,
                    outcome: leaf(schema, LeafRule::Reflexivity { lhs, rhs }),
                })
            }
            Body::MReflexivity => {
                let (lhs, rhs) = sides(line.stated);
                Ok(Node {
                    levels: 1,
                    outcome: leaf(schema, LeafRule::MReflexivity { lhs, rhs }),
                })
            }
            Body::Step(rule, p) => self.prepare_step(schema, rule, p),
            Body::Pair(rule, p, q) => self.prepare_pair(rule, p, q),
        }
    }

    /// The node of a rule with one premise.
    fn prepare_step(
        &mut self,
        schema: &Schema,
        rule: StepRule,
        p: u32,
    ) -> Result<Node, ProofRefusalKind>
        ensures ok { IfOk result
            (λ node. step_of_line schema.now (step_of rule) (opened_all self.old.unused.items) p
            ≡ Ok (prepared_of node (opened_all self.new.unused.items))) }
        ensures err { IfErr result
            (λ why. IsFound why
            (step_of_line schema.now (step_of rule) (opened_all self.old.unused.items) p)) }
        ensures within { (u : Attributes) → IfErr result (IsRefusalWithin u) }
        ensures lines { self.new.lines.items ≡ self.old.lines.items }
        ensures length { length self.new.unused.items ≡ length self.old.unused.items }
    {
        if !self.is_earlier(p) {
            return Err(ProofRefusalKind::NoSuchLine);
        }
        match self.take(p) {
            None => Err(ProofRefusalKind::UsedTwice),
            Some(premise) => Ok(Node {
                levels: premise.levels + 1,
                outcome: step(schema, rule, premise),
            }),
        }
    }

    /// The node of a rule with two premises.
    fn prepare_pair(&mut self, rule: PairRule, p: u32, q: u32) -> Result<Node, ProofRefusalKind>
        ensures ok { IfOk result
            (λ node. pair_of_line (pair_of rule) (opened_all self.old.unused.items) p q
            ≡ Ok (prepared_of node (opened_all self.new.unused.items))) }
        ensures err { IfErr result
            (λ why. IsFound why (pair_of_line (pair_of rule) (opened_all self.old.unused.items) p q)) }
        ensures within { (u : Attributes) → IfErr result (IsRefusalWithin u) }
        ensures lines { self.new.lines.items ≡ self.old.lines.items }
        ensures length { length self.new.unused.items ≡ length self.old.unused.items }
    {
        if !self.is_earlier(p) || !self.is_earlier(q) {
            return Err(ProofRefusalKind::NoSuchLine);
        }
        let first = self.take(p);
        let second = self.take(q);
        match (first, second) {
            (Some(first), Some(second)) => Ok(Node {
                levels: first.levels.max(second.levels) + 1,
                outcome: pair(rule, first, second),
            }),
            _ => Err(ProofRefusalKind::UsedTwice),
        }
    }

    /// Enters a certificate line, which stands in line `at` of the text.
    #[tactic(auto, unfolding(proof_grammar::specs::CheckerStates::enter_line))]
    pub fn enter(
        &mut self,
        alloc: Global,
        schema: &Schema,
        at: u32,
        line: &Line,
    ) -> Result<(), Failure<ProofRefusalKind>>
        requires checker_state { IsCheckerState schema.now (checker_state_of self.old) }
        requires within { IsDepWithin (universe_of schema.now) line.now.stated }
        ensures ok { OnOk result (enter_line schema.now at (checker_state_of self.old)
            (line_of line.now)
            ≡ Ok (checker_state_of self.new)) }
        ensures err { IfErr result
            (RefusesAs (λ why. IsFound why (enter_line schema.now at (checker_state_of self.old)
            (line_of line.now)))) }
        ensures within { IfErr result (RefusesAs (IsRefusalWithin (universe_of schema.now))) }
    {
        let before = self.unused.len();
        if line.number as usize != before + 1 {
            return Err(Failure::Refused(ProofRefusalKind::WrongNumber));
        }
        let node = match self.prepare(schema, line) {
            Ok(node) => node,
            Err(kind) => return Err(Failure::Refused(kind)),
        };
        let levels = node.levels;
        let (deriv, dep) = match check_limits(before, line, node) {
            Ok((deriv, dep)) => (deriv, dep),
            Err(kind) => return Err(Failure::Refused(kind)),
        };
        self.add(alloc, at, deriv, levels, dep)?;
        Ok(())
    }

    /// Adds a line.
    fn add(
        &mut self,
        alloc: Global,
        at: u32,
        deriv: Deriv,
        levels: u32,
        dep: Dep,
    ) -> Result<(), OutOfMemory>
        requires { levels ≤ MOST_LEVELS }
        ensures ok { OnOk result (checker_state_of self.new
            ≡ add_line at self.old.lines.items (opened_all self.old.unused.items)
            (record { tree = tree_of deriv; levels = levels; conclusion = dependency_of dep })) }
    {
        let deriv = Box::new(alloc, deriv)?;
        self.unused.push(Some(Open { deriv, levels, dep }))?;
        self.lines.push(at)?;
        Ok(())
    }

    /// The derivation of the last line and its conclusion, where each other line was used. The text ends
    /// with line `last`.
    #[tactic(auto, unfolding(proof_grammar::specs::CheckerStates::finished_certificate))]
    pub fn finish(self, last: u32) -> Result<Concluded, ProofRefusal>
        ensures ok { IfOk result (λ x.
            finished_certificate last (checker_state_of self) ≡ Ok (tree_of x.deriv.value)) }
        ensures root { IfOk result
            (λ x. root_conclusion (opened_all self.unused.items)
            ≡ Some (tree_of x.deriv.value, dependency_of x.dep)) }
        ensures err { IfErr result (λ e. IsFoundAt e (finished_certificate last
            (checker_state_of self))) }
        ensures within { (u : Attributes) → IfErr result (λ e. IsRefusalWithin u e.kind) }
    {
        let CheckerState { lines, mut unused } = self;
        let root = take_last(&mut unused);
        match first_unused(&unused) {
            Some(i) => {
                let line = lines.get(i).copied().unwrap_or(0);
                let kind = ProofRefusalKind::NeverUsed;
                Err(ProofRefusal { line, kind })
            }
            None => match root {
                Some(open) => Ok(Concluded {
                    deriv: open.deriv,
                    dep: open.dep,
                }),
                None => {
                    let kind = ProofRefusalKind::EmptyProof;
                    Err(ProofRefusal { line: last, kind })
                }
            },
        }
    }
}

/// Takes the last line.
fn take_last(unused: &mut Vec<Option<Open>>) -> Option<Open>
    ensures root { option_map opened_of result ≡ root (opened_all unused.old.items) }
    ensures rest { opened_all unused.new.items
        ≡ take (length (opened_all unused.old.items) - 1) (opened_all unused.old.items) }
{
    match unused.pop() {
        Some(last) => last,
        None => None,
    }
}

/// The first line that no line used.
fn first_unused(unused: &[Option<Open>]) -> Option<usize>
    ensures first { result ≡ position is_some (opened_all unused.now) }
{
    first_open(unused)
}

fn first_open(unused: &[Option<Open>]) -> Option<usize>
    ensures first { result ≡ position (λ line. is_some line) unused.now }
{
    unused.iter().position(|line| line.is_some())
}

/// What a line concludes, within the limits; `before` lines stand before it.
#[tactic(auto, unfolding(proof_grammar::specs::CheckerStates::within_limits))]
fn check_limits(before: usize, line: &Line, node: Node) -> Result<(Deriv, Dep), ProofRefusalKind>
    ensures ok { IfOk result
        (λ x. within_limits before (line_of line.now) node.levels (concluded_outcome node.outcome)
        ≡ Ok (record { tree = tree_of x.0; levels = node.levels; conclusion = dependency_of x.1 })) }
    ensures shallow { OnOk result (node.levels ≤ MOST_LEVELS) }
    ensures err { IfErr result
        (λ why. IsFound why (within_limits before (line_of line.now) node.levels
        (concluded_outcome node.outcome))) }
    ensures within { (u : Attributes) → IsDepWithin u line.now.stated
        → IfOk node.outcome (λ x. IsDepWithin u x.1) → IfErr result (IsRefusalWithin u) }
{
    if before >= MOST_NODES as usize {
        return Err(ProofRefusalKind::TooManyLines);
    }
    if node.levels > MOST_LEVELS {
        return Err(ProofRefusalKind::TooDeep);
    }
    match node.outcome {
        Err(kind) => {
            let node = line.number;
            Err(ProofRefusalKind::Unsound(Fault { node, kind }))
        }
        Ok((deriv, concluded)) => {
            let stated = line.stated;
            if same_dependency(stated, concluded) {
                Ok((deriv, concluded))
            } else {
                Err(ProofRefusalKind::StatesOther { stated, concluded })
            }
        }
    }
}
