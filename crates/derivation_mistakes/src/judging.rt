ghost use Rattle.std.specs.Prelude.{◌≡◌, ◌↔◌, List, [], ◌∷◌, ◌++◌, All, None, IsTrue, IfOk, IfSome, OnOk, length};
ghost use Rattle.dep_model.specs.Dependencies.{IsWithin};
ghost use Rattle.dep_model.specs.Deps.{dependency_of, dependencies_of, IsDepWithin};
ghost use Rattle.schema_model.specs.Schemas.{universe_of, ImpliedBy};
ghost use Rattle.derivation_grammar.specs.Derivations.{stated_by};
ghost use Rattle.derivation_grammar.specs.Lines.{DerivationLine as Declared};
ghost use Rattle.derivation_grammar.specs.Meanings.{IsDerivation, IsEarlier, premises_of};
ghost use Rattle.derivation_text.specs.Views.{body_of_line, derivation_line_of, derivation_lines_of};
ghost use Rattle.derivation_mistakes.specs.Mistakes.{AreMistakenLines, IsMistake, IsMistakenLine, IsRight};
ghost use Rattle.derivation_mistakes.specs.Views.{mistake_of, mistaken_line_of, mistaken_lines_of, IsMistakenLineOf};
ghost use Rattle.derivation_mistakes.specs.Views.{IsMistakeWithin};

use crate::misusing::misuse_of;
use crate::outcome::outcome_of_line;
use crate::{Mistake, MistakenLine};
use dep_basis::is_implied;
use dep_model::{Dep, OutOfMemory};
use derivation_text::DerivationLine;
use proof_text::same_dependency;
use schema_model::Schema;
use std::alloc::Global;

/// The lines of a derivation with which something is wrong, in their order, each judged as if the lines
/// before state what is true.
pub fn mistaken_lines(
    alloc: Global,
    schema: &Schema,
    lines: &[DerivationLine],
) -> Result<Vec<MistakenLine>, OutOfMemory>
    requires derivation { IsDerivation schema.now (derivation_lines_of lines.now) }
    ensures exact { IfOk result
        (λ found. AreMistakenLines schema.now [] (derivation_lines_of lines.now)
        (mistaken_lines_of found.items)) }
    // The dependencies that it names can be printed.
    ensures of_schema { IfOk result (λ found. All (IsMistakenLineOf schema.now) found.items) }
{
    let mut before = Vec::new(alloc);
    let mut found = Vec::new(alloc);
    for line in lines {
        judge(schema, &before, line, &mut found)?;
        before.push(line.stated)?;
    }
    Ok(found)
}

/// Adds a line after those before to the wrong ones, if something is wrong with it.
fn judge(
    schema: &Schema,
    before: &[Dep],
    line: &DerivationLine,
    found: &mut Vec<MistakenLine>,
) -> Result<(), OutOfMemory>
    requires before { All (IsWithin (universe_of schema.now)) (dependencies_of before.now) }
    requires stated { IsDepWithin (universe_of schema.now) line.now.stated }
    requires earlier { All (IsEarlier (length before.now)) (premises_of (body_of_line line.now.body)) }
    requires found { All (IsMistakenLineOf schema.now) found.old.items }
    ensures judged { (lines : List Declared) → dependencies_of before.now ≡ stated_by lines
        → AreMistakenLines schema.now [] lines (mistaken_lines_of found.old.items)
        → OnOk result (AreMistakenLines schema.now [] (lines ++ derivation_line_of line.now ∷ [])
        (mistaken_lines_of found.new.items)) }
    ensures found { OnOk result (All (IsMistakenLineOf schema.now) found.new.items) }
{
    match mistaken_line(schema, before, line, found) {
        None => Ok(()),
        Some(mistaken) => {
            found.push(mistaken)?;
            Ok(())
        }
    }
}

/// The line, if something is wrong with it.
fn mistaken_line(
    schema: &Schema,
    before: &[Dep],
    line: &DerivationLine,
    found: &[MistakenLine],
) -> Option<MistakenLine>
    requires before { All (IsWithin (universe_of schema.now)) (dependencies_of before.now) }
    requires stated { IsDepWithin (universe_of schema.now) line.now.stated }
    requires earlier { All (IsEarlier (length before.now)) (premises_of (body_of_line line.now.body)) }
    requires found { All (IsMistakenLineOf schema.now) found.now }
    ensures none { result ≡ None
        → IsRight schema.now (dependencies_of before.now) (derivation_line_of line.now) }
    ensures some { IfSome result
        (λ mistaken. IsMistakenLine schema.now (dependencies_of before.now) (derivation_line_of line.now)
        (mistaken_line_of mistaken)) }
    ensures of_schema { IfSome result (IsMistakenLineOf schema.now) }
{
    match mistake_of(schema, before, line) {
        None => None,
        Some(mistake) => Some(MistakenLine {
            line: *line,
            mistake,
            follows: follows(schema, found, line.stated),
        }),
    }
}

/// Whether a dependency follows from a schema. Lines that state the same are decided once where they are
/// told one after another.
fn follows(schema: &Schema, found: &[MistakenLine], dep: Dep) -> bool
    requires within { IsDepWithin (universe_of schema.now) dep }
    requires found { All (IsMistakenLineOf schema.now) found.now }
    ensures follows { IsTrue result ↔ ImpliedBy schema.now (dependency_of dep) }
{
    match found.last() {
        None => is_implied(&schema.theory(), dep),
        Some(last) => {
            if same_dependency(last.line.stated, dep) {
                last.follows
            } else {
                is_implied(&schema.theory(), dep)
            }
        }
    }
}

/// What is wrong with a line, if anything is.
fn mistake_of(schema: &Schema, before: &[Dep], line: &DerivationLine) -> Option<Mistake>
    requires before { All (IsWithin (universe_of schema.now)) (dependencies_of before.now) }
    requires stated { IsDepWithin (universe_of schema.now) line.now.stated }
    requires earlier { All (IsEarlier (length before.now)) (premises_of (body_of_line line.now.body)) }
    ensures none { result ≡ None
        → IsRight schema.now (dependencies_of before.now) (derivation_line_of line.now) }
    ensures some { IfSome result
        (λ mistake. IsMistake schema.now (dependencies_of before.now) (derivation_line_of line.now)
        (mistake_of mistake)) }
    ensures within { IfSome result (IsMistakeWithin schema.now) }
{
    match outcome_of_line(schema, before, line.stated, line.body) {
        // Each premise is a line before, so the rule has an outcome.
        None => None,
        Some(Err(kind)) => {
            let why = misuse_of(before, line.stated, line.body, kind);
            Some(Mistake::DoesNotApply(why))
        }
        Some(Ok(given)) => {
            if same_dependency(line.stated, given) {
                None
            } else {
                Some(Mistake::Gives(given))
            }
        }
    }
}
