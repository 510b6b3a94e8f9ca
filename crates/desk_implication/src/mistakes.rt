ghost use Rattle.std.specs.Prelude.{◌≡◌, ◌++◌, All, IfOk, OnOk, codes};
ghost use Rattle.std.specs.Fmt.{decimal};
ghost use Rattle.schema_printer.specs.Spelling.{printed_names_of};
ghost use Rattle.derivation.specs.Derivs.{step_of, pair_of};
ghost use Rattle.derivation_rules.specs.Views.{further_of};
ghost use Rattle.derivation_grammar.specs.Meanings.{further_name};
ghost use Rattle.derivation_text.specs.Views.{body_of_line};
ghost use Rattle.derivation_mistakes.specs.declared.misuse.Misuse.TheVariants.{LeftSidesDiffer};
ghost use Rattle.derivation_mistakes.specs.Views.{mistake_of, mistaken_line_of, mistaken_lines_of, IsMistakenLineOf};
ghost use Rattle.derivation_mistakes.specs.Views.{IsMistakeWithin};
ghost use Rattle.desk_implication.specs.MistakeTexts.{follows_text, misuse_text, mistake_text, mistaken_line_text};
ghost use Rattle.desk_implication.specs.MistakeTexts.{mistaken_lines_text, pair_name, rule_text, step_name};
ghost use Rattle.desk_implication.specs.MistakeTexts.{with_number};

use byte_texts::{add, add_number};
use dep_model::OutOfMemory;
use derivation::{PairRule, StepRule};
use derivation_mistakes::{Mistake, MistakenLine, Misuse};
use derivation_rules::FurtherRule;
use derivation_text::DerivationBody;
use desk_texts::{add_displayed, put_pair};
use proof_text::Body;
use schema_model::Schema;
use schema_printer::print_dep;
use std::alloc::Global;

/// What is printed of the lines of a derivation with which something is wrong.
pub fn mistaken_line_texts(
    alloc: Global,
    schema: &Schema,
    found: &[MistakenLine],
) -> Result<Vec<u8>, OutOfMemory>
    requires within { All (IsMistakenLineOf schema.now) found.now }
    ensures text { IfOk result (λ text. text.items
        ≡ mistaken_lines_text (printed_names_of schema.now) (mistaken_lines_of found.now)) }
{
    let mut text = Vec::new(alloc);
    for mistaken in found {
        add(&mut text, &mistaken_line_words(alloc, schema, mistaken)?)?;
    }
    Ok(text)
}

// What is printed of one of them.
fn mistaken_line_words(
    alloc: Global,
    schema: &Schema,
    mistaken: &MistakenLine,
) -> Result<Vec<u8>, OutOfMemory>
    requires of_schema { IsMistakenLineOf schema.now mistaken.now }
    ensures text { IfOk result
        (λ text. text.items
        ≡ mistaken_line_text (printed_names_of schema.now) (mistaken_line_of mistaken.now)) }
{
    let line = mistaken.line;
    let mut text = Vec::new(alloc);
    add(&mut text, b"line ")?;
    add_number(&mut text, alloc, line.number)?;
    add(&mut text, b": ")?;
    put_rule(alloc, &mut text, line.body)?;
    put_mistake(alloc, &mut text, schema, mistaken.mistake)?;
    add(&mut text, b"\n")?;
    add(&mut text, b"  ")?;
    add(&mut text, &print_dep(alloc, schema, line.stated)?)?;
    add(&mut text, follows_words(mistaken.follows))?;
    add(&mut text, b"\n")?;
    Ok(text)
}

// Whether what a line states follows.
fn follows_words(follows: bool) -> &'static [u8]
    ensures words { result.now ≡ follows_text follows }
{
    if follows {
        b" follows"
    } else {
        b" does not follow"
    }
}

// What is wrong with a line, at the end of a text.
fn put_mistake(
    alloc: Global,
    text: &mut Vec<u8>,
    schema: &Schema,
    mistake: Mistake,
) -> Result<(), OutOfMemory>
    requires within { IsMistakeWithin schema.now mistake }
    ensures added { OnOk result (text.new.items
        ≡ text.old.items ++ mistake_text (printed_names_of schema.now) (mistake_of mistake)) }
{
    match mistake {
        Mistake::DoesNotApply(why) => put_not_applying(alloc, text, why),
        Mistake::Gives(dep) => {
            add(text, b" gives ")?;
            add(text, &print_dep(alloc, schema, dep)?)
        }
    }
}

// That a rule does not apply, and why, at the end of a text.
fn put_not_applying(alloc: Global, text: &mut Vec<u8>, why: Misuse) -> Result<(), OutOfMemory>
    ensures added { OnOk result (text.new.items
        ≡ text.old.items ++ (codes " does not apply: " ++ misuse_text why)) }
{
    let mut reason = Vec::new(alloc);
    put_misuse(alloc, &mut reason, why)?;
    put_pair(text, b" does not apply: ", &reason)
}

// Why a rule does not apply, at the end of a text.
fn put_misuse(alloc: Global, text: &mut Vec<u8>, why: Misuse) -> Result<(), OutOfMemory>
    ensures added { OnOk result (text.new.items ≡ text.old.items ++ misuse_text why) }
{
    match why {
        Misuse::AnotherKind(m) => put_framed(alloc, text, b"line ", m, b" is of another kind"),
        Misuse::NotTheLeftSide(m, k) => {
            let words = b" is not the left side of ";
            put_two(alloc, text, b"the right side of ", m, words, k)
        }
        Misuse::LeftSidesDiffer(m, k) => put_left_sides(alloc, text, m, k),
        Misuse::NotWithinLeftSide(m, k) => {
            let words = b" does not lie within the left side of ";
            put_two(alloc, text, b"the right side of ", m, words, k)
        }
        Misuse::AnotherLeftSide(m) => put_words(alloc, text, b"the left side is not that of ", m),
        Misuse::NotWithinRightSide(m) => {
            put_words(
                alloc,
                text,
                b"the right side does not lie within that of ",
                m,
            )
        }
        Misuse::Fault(kind) => add_displayed(text, alloc, &kind),
    }
}

// That the left sides of two lines differ, at the end of a text.
fn put_left_sides(alloc: Global, text: &mut Vec<u8>, m: u32, k: u32) -> Result<(), OutOfMemory>
    ensures added { OnOk result (text.new.items ≡ text.old.items ++ misuse_text (LeftSidesDiffer m k)) }
{
    let mut words = Vec::new(alloc);
    put_two(alloc, &mut words, b"the left sides of ", m, b" and ", k)?;
    put_pair(text, &words, b" differ")
}

// Words, a number, words and a number, at the end of a text.
fn put_two(
    alloc: Global,
    text: &mut Vec<u8>,
    front: &[u8],
    m: u32,
    middle: &[u8],
    k: u32,
) -> Result<(), OutOfMemory>
    ensures added { OnOk result (text.new.items
        ≡ text.old.items ++ (front.now ++ decimal m ++ middle.now ++ decimal k)) }
{
    put_words(alloc, text, front, m)?;
    put_words(alloc, text, middle, k)
}

// Words, a number and words, at the end of a text.
fn put_framed(
    alloc: Global,
    text: &mut Vec<u8>,
    front: &[u8],
    number: u32,
    back: &[u8],
) -> Result<(), OutOfMemory>
    ensures added { OnOk result (text.new.items
        ≡ text.old.items ++ (front.now ++ decimal number ++ back.now)) }
{
    put_words(alloc, text, front, number)?;
    add(text, back)
}

// Words and a number, at the end of a text.
fn put_words(
    alloc: Global,
    text: &mut Vec<u8>,
    words: &[u8],
    number: u32,
) -> Result<(), OutOfMemory>
    ensures added { OnOk result (text.new.items ≡ text.old.items ++ (words.now ++ decimal number)) }
{
    add(text, words)?;
    add_number(text, alloc, number)
}

// A rule with its numbers, without its sets, at the end of a text.
fn put_rule(alloc: Global, text: &mut Vec<u8>, body: DerivationBody) -> Result<(), OutOfMemory>
    ensures added { OnOk result (text.new.items ≡ text.old.items ++ rule_text (body_of_line body)) }
{
    match body {
        DerivationBody::Rule(Body::Given(k)) => put_named(alloc, text, b"given", k),
        DerivationBody::Rule(Body::Reflexivity) => add(text, b"reflexivity"),
        DerivationBody::Rule(Body::MReflexivity) => add(text, b"mreflexivity"),
        DerivationBody::Rule(Body::Step(rule, p)) => put_named(alloc, text, step_name(rule), p),
        DerivationBody::Rule(Body::Pair(rule, p, q)) => {
            put_named(alloc, text, pair_name(rule), p)?;
            put_words(alloc, text, b" ", q)
        }
        DerivationBody::Decomposition(p) => put_named(alloc, text, b"decomposition", p),
        DerivationBody::Further(rule, p, q) => {
            put_named(alloc, text, further_name(rule), p)?;
            put_words(alloc, text, b" ", q)
        }
    }
}

// A name and a number, at the end of a text.
fn put_named(alloc: Global, text: &mut Vec<u8>, name: &[u8], number: u32) -> Result<(), OutOfMemory>
    ensures added { OnOk result (text.new.items ≡ text.old.items ++ with_number name.now number) }
{
    add(text, name)?;
    put_words(alloc, text, b" ", number)
}

fn step_name(rule: StepRule) -> &'static [u8]
    ensures name { result.now ≡ step_name (step_of rule) }
{
    match rule {
        StepRule::Augmentation { .. } => b"augmentation",
        StepRule::Complementation => b"complementation",
        StepRule::MAugmentation { .. } => b"maugmentation",
        StepRule::Replication => b"replication",
    }
}

fn pair_name(rule: PairRule) -> &'static [u8]
    ensures name { result.now ≡ pair_name (pair_of rule) }
{
    match rule {
        PairRule::Transitivity => b"transitivity",
        PairRule::MTransitivity => b"mtransitivity",
        PairRule::Coalescence => b"coalescence",
    }
}

fn further_name(rule: FurtherRule) -> &'static [u8]
    ensures name { result.now ≡ further_name (further_of rule) }
{
    match rule {
        FurtherRule::Union => b"union",
        FurtherRule::Pseudotransitivity => b"pseudotransitivity",
        FurtherRule::Intersection => b"intersection",
        FurtherRule::Difference => b"difference",
        FurtherRule::MPseudotransitivity => b"mpseudotransitivity",
    }
}
