//! The section on the dependencies.

ghost use Rattle.std.specs.Prelude.{◌≡◌, ◌↔◌, ◌<◌, ◌++◌, length, IfOk, IsTrue, OnOk};
ghost use Rattle.schema_model.specs.Schemas.{deps_of};
ghost use Rattle.desk_reports.specs.Answers.{Adds};
ghost use Rattle.desk_reports.specs.Pieces.{EachBelow};
ghost use Rattle.desk_reports.specs.Rules.{FollowsFromOthers, RulesSection, ShowsRule, ShowsRules, follows_mark};
ghost use Rattle.desk_reports.specs.Rules.{rule_text};

use byte_texts::add;
use cover_accounts::dependency_and_others;
use dep_basis::is_implied_by;
use dep_model::OutOfMemory;
use desk_responses::{put_dep, put_line};
use html_pages::{add_heading, add_html};
use schema_model::Schema;
use std::alloc::Global;

/// Adds the section on the dependencies of a schema.
pub fn put_rules_section(
    alloc: Global,
    text: &mut Vec<u8>,
    schema: &Schema,
) -> Result<(), OutOfMemory>
    ensures added { OnOk result (Adds (RulesSection schema.now) text.old.items text.new.items) }
{
    add_heading(text, b"Rules")?;
    put_rules_list(alloc, text, schema)?;
    Ok(())
}

// Adds each dependency, in the order of the file.
fn put_rules_list(alloc: Global, text: &mut Vec<u8>, schema: &Schema) -> Result<(), OutOfMemory>
    ensures added { OnOk result (Adds (ShowsRules schema.now) text.old.items text.new.items) }
{
    add(text, b"<ul>\n")?;
    put_rules(alloc, text, schema)?;
    add(text, b"</ul>\n")?;
    Ok(())
}

// The same, one after the other.
fn put_rules(alloc: Global, text: &mut Vec<u8>, schema: &Schema) -> Result<(), OutOfMemory>
    ensures added { OnOk result (Adds (EachBelow (length (deps_of schema.now)) (ShowsRule schema.now))
        text.old.items text.new.items) }
{
    for k in 0..schema.deps().len() {
        put_rule(alloc, text, schema, k)?;
    }
    Ok(())
}

// Adds a dependency, which says whether it follows from the others.
fn put_rule(alloc: Global, text: &mut Vec<u8>, schema: &Schema, k: usize) -> Result<(), OutOfMemory>
    requires position { k < length (deps_of schema.now) }
    ensures added { OnOk result (Adds (ShowsRule schema.now k) text.old.items text.new.items) }
{
    let follows = follows_from_others(alloc, schema, k)?;
    put_rule_line(alloc, text, schema, k, follows)?;
    Ok(())
}

// Whether the dependency at a position follows from the others.
fn follows_from_others(alloc: Global, schema: &Schema, k: usize) -> Result<bool, OutOfMemory>
    requires position { k < length (deps_of schema.now) }
    ensures follows { IfOk result (λ follows. IsTrue follows ↔ FollowsFromOthers schema.now k) }
{
    let (dep, others) = dependency_and_others(alloc, &schema.theory(), k)?;
    Ok(is_implied_by(&others, schema.width(), dep))
}

// Adds a dependency, with its line.
#[tactic(auto, unfolding(crate::specs::Rules::rule_text))]
fn put_rule_line(
    alloc: Global,
    text: &mut Vec<u8>,
    schema: &Schema,
    k: usize,
    follows: bool,
) -> Result<(), OutOfMemory>
    ensures added { OnOk result (text.new.items ≡ text.old.items ++ rule_text schema.now k follows) }
{
    let mut dep = Vec::new(alloc);
    put_dep(&mut dep, schema, k)?;
    add(text, b"<li>line ")?;
    put_line(alloc, text, schema, k)?;
    add(text, b": ")?;
    add_html(text, &dep)?;
    add(text, follows_mark(follows))?;
    add(text, b"</li>\n")
}

// What is said of a dependency that follows from the others.
fn follows_mark(follows: bool) -> &'static [u8]
    ensures mark { result.now ≡ follows_mark follows }
{
    if follows {
        b" (follows from the others)"
    } else {
        b""
    }
}
