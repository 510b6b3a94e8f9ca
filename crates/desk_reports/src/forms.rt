//! The section on the normal forms of the universe.

ghost use Rattle.std.specs.Prelude.{◌≡◌, ◌∷◌, ◌++◌, [], codes, IfOk, OnOk};
ghost use Rattle.attr_sets.specs.Sets.{attributes};
ghost use Rattle.attr_sets.specs.Attributes.{IsSubset};
ghost use Rattle.dep_model.specs.Deps.{dependency_of, IsDepWithin};
ghost use Rattle.dep_model.specs.Dependencies.{fd};
ghost use Rattle.schema_model.specs.Schemas.{universe_of};
ghost use Rattle.html_pages.specs.Pages.{title_with_words};
ghost use Rattle.desk_designs.specs.NormalForms.{JudgesForm, tested_violation_of};
ghost use Rattle.desk_designs.specs.TestedSchemes.{AreFoundForms};
ghost use Rattle.desk_reports.specs.Answers.{Adds};
ghost use Rattle.desk_reports.specs.Forms.{FormsSection, ShowsEachForm, ShowsForm, ShowsLeftSide, ShowsViolation};
ghost use Rattle.desk_reports.specs.Forms.{ShowsWhichForm, ShowsWhy, form_title, functional_title, goal_text};
ghost use Rattle.desk_reports.specs.Forms.{goal_words, left_side_title, tested_title};
ghost use Rattle.desk_reports.specs.Pieces.{Opens, Then};

use crate::pieces::{put_folded, put_opened, title_of};
use arguments::Argument;
use attr_sets::AttrSet;
use byte_texts::add;
use dep_basis::is_implied;
use dep_model::{Dep, Form, OutOfMemory};
use desk_designs::{breach_of, check_tested, form_of_tested, forms_of_all, tested_dependency};
use desk_implication::implies;
use html_pages::{add_heading, add_shell_word, titled};
use normal_forms::Breach;
use schema_model::Schema;
use schema_printer::add_dep;
use std::alloc::Global;
use which_form::{SchemeForms, TestedForm};

/// Adds the section on the normal forms of the universe of a schema.
pub fn put_forms_section(
    alloc: Global,
    text: &mut Vec<u8>,
    schema: &Schema,
    file: &Argument,
) -> Result<(), OutOfMemory>
    ensures added { OnOk result (Adds (FormsSection file.now schema.now) text.old.items text.new.items) }
{
    add_heading(text, b"Normal forms")?;
    let found = forms_of_all(schema);
    put_which_form(alloc, text, schema, file, found)?;
    put_each_form(alloc, text, schema, file, found)?;
    Ok(())
}

// Adds which form the universe is in.
fn put_which_form(
    alloc: Global,
    text: &mut Vec<u8>,
    schema: &Schema,
    file: &Argument,
    found: Option<SchemeForms>,
) -> Result<(), OutOfMemory>
    requires found { AreFoundForms schema.now found }
    ensures added { OnOk result (Adds (ShowsWhichForm file.now schema.now) text.old.items text.new.items) }
{
    let title = title_of(alloc, b"Which form", b"form ", file)?;
    put_opened(text, &title, form_of_tested(alloc, schema, found))?;
    Ok(())
}

// Adds whether the universe is in each of the forms.
fn put_each_form(
    alloc: Global,
    text: &mut Vec<u8>,
    schema: &Schema,
    file: &Argument,
    found: Option<SchemeForms>,
) -> Result<(), OutOfMemory>
    requires found { AreFoundForms schema.now found }
    ensures added { OnOk result (Adds (ShowsEachForm file.now schema.now) text.old.items text.new.items) }
{
    let third = TestedForm::Higher { form: Form::Third };
    let bcnf = TestedForm::Higher { form: Form::Bcnf };
    let fourth = TestedForm::Higher { form: Form::Fourth };
    put_form(alloc, text, schema, file, TestedForm::Second, found)?;
    put_form(alloc, text, schema, file, third, found)?;
    put_form(alloc, text, schema, file, bcnf, found)?;
    put_form(alloc, text, schema, file, fourth, found)?;
    Ok(())
}

// Adds whether the universe is in a form, and why it is not.
fn put_form(
    alloc: Global,
    text: &mut Vec<u8>,
    schema: &Schema,
    file: &Argument,
    form: TestedForm,
    found: Option<SchemeForms>,
) -> Result<(), OutOfMemory>
    requires found { AreFoundForms schema.now found }
    ensures added { OnOk result (Adds (ShowsForm file.now schema.now form) text.old.items text.new.items) }
{
    put_judged(alloc, text, schema, form, found)?;
    put_violation(alloc, text, schema, file, form, found)?;
    Ok(())
}

// Adds whether the universe is in a form.
fn put_judged(
    alloc: Global,
    text: &mut Vec<u8>,
    schema: &Schema,
    form: TestedForm,
    found: Option<SchemeForms>,
) -> Result<(), OutOfMemory>
    requires found { AreFoundForms schema.now found }
    ensures added { OnOk result
        (Adds (Opens (tested_title form) (JudgesForm schema.now form (universe_of schema.now ∷ [])))
        text.old.items text.new.items) }
{
    let judged = check_tested(alloc, schema, form, found);
    put_opened(text, title_of_tested(form), judged)?;
    Ok(())
}

// The name of a form that the universe is tested for, at the start of a title.
fn title_of_tested(form: TestedForm) -> &'static [u8]
    ensures title { result.now ≡ tested_title form }
{
    match form {
        TestedForm::Second => b"Second normal form",
        TestedForm::Higher { form: higher } => title_of_form(higher),
    }
}

/// The name of a normal form, at the start of a title.
pub fn title_of_form(form: Form) -> &'static [u8]
    ensures title { result.now ≡ form_title form }
{
    match form {
        Form::Third => b"Third normal form",
        Form::Bcnf => b"Boyce-Codd normal form",
        Form::Fourth => b"Fourth normal form",
    }
}

// Adds why the universe is not in a form; nothing where it is, or is too wide to be tested.
fn put_violation(
    alloc: Global,
    text: &mut Vec<u8>,
    schema: &Schema,
    file: &Argument,
    form: TestedForm,
    found: Option<SchemeForms>,
) -> Result<(), OutOfMemory>
    requires found { AreFoundForms schema.now found }
    ensures added { OnOk result
        (Adds (ShowsViolation file.now schema.now form) text.old.items text.new.items) }
{
    match found {
        Some(forms) => match breach_of(forms, form) {
            Some(breach) => put_breach(alloc, text, schema, file, form, breach),
            None => Ok(()),
        },
        None => Ok(()),
    }
}

// Adds why a violation is one.
fn put_breach(
    alloc: Global,
    text: &mut Vec<u8>,
    schema: &Schema,
    file: &Argument,
    form: TestedForm,
    breach: Breach,
) -> Result<(), OutOfMemory>
    requires within { IsSubset (attributes breach.lhs) (universe_of schema.now) }
    ensures added { OnOk result
        (Adds (Then (ShowsWhy file.now schema.now form (attributes breach.lhs) (attributes breach.rhs))
        (ShowsLeftSide schema.now form (attributes breach.lhs) (attributes breach.rhs)))
        text.old.items text.new.items) }
{
    put_why(alloc, text, schema, file, form, breach)?;
    put_left_side(alloc, text, schema, form, breach)?;
    Ok(())
}

// Adds whether the dependency that violates a form is implied.
fn put_why(
    alloc: Global,
    text: &mut Vec<u8>,
    schema: &Schema,
    file: &Argument,
    form: TestedForm,
    breach: Breach,
) -> Result<(), OutOfMemory>
    ensures added { OnOk result
        (Adds (ShowsWhy file.now schema.now form (attributes breach.lhs) (attributes breach.rhs))
        text.old.items text.new.items) }
{
    let goal = goal_of(alloc, schema, tested_dependency(form, breach))?;
    let title = why_title(alloc, file, &goal)?;
    put_folded(text, &title, implies(alloc, schema, &goal))?;
    Ok(())
}

// The title beside the words that ask for a goal.
fn why_title(alloc: Global, file: &Argument, goal: &Argument) -> Result<Vec<u8>, OutOfMemory>
    ensures title { IfOk result
        (λ text. text.items ≡ title_with_words (codes "Why") (goal_words file.now goal.now)) }
{
    let mut words = Vec::new(alloc);
    add(&mut words, b"implies ")?;
    add_shell_word(&mut words, file.bytes())?;
    add(&mut words, b" ")?;
    add_shell_word(&mut words, goal.bytes())?;
    titled(alloc, b"Why", &words)
}

// Adds whether the left side of a violation determines all attributes.
fn put_left_side(
    alloc: Global,
    text: &mut Vec<u8>,
    schema: &Schema,
    form: TestedForm,
    breach: Breach,
) -> Result<(), OutOfMemory>
    requires within { IsSubset (attributes breach.lhs) (universe_of schema.now) }
    ensures added { OnOk result
        (Adds (ShowsLeftSide schema.now form (attributes breach.lhs) (attributes breach.rhs))
        text.old.items text.new.items) }
{
    let all = determining_all(schema, breach.lhs);
    let is_key = is_implied(&schema.theory(), all);
    let title = title_of_left_side(tested_dependency(form, breach), is_key);
    let goal = goal_of(alloc, schema, all)?;
    put_folded(text, title, implies(alloc, schema, &goal))?;
    Ok(())
}

// A set determines all attributes.
fn determining_all(schema: &Schema, lhs: AttrSet) -> Dep
    ensures all { dependency_of result ≡ fd (attributes lhs) (universe_of schema.now) }
    ensures within { IsSubset (attributes lhs) (universe_of schema.now)
        → IsDepWithin (universe_of schema.now) result }
{
    Dep::Fd {
        lhs,
        rhs: AttrSet::full(schema.width()),
    }
}

// The title above whether the left side of a violation determines all attributes, as it does or not.
fn title_of_left_side(violation: Dep, is_key: bool) -> &'static [u8]
    ensures title { result.now ≡ left_side_title (dependency_of violation) is_key }
{
    match violation {
        Dep::Mvd { .. } => b"Two rows that agree on its left side",
        Dep::Fd { .. } => functional_title(is_key),
    }
}

// The same of a functional violation.
fn functional_title(is_key: bool) -> &'static [u8]
    ensures title { result.now ≡ functional_title is_key }
{
    if is_key {
        b"Its left side is a key by all dependencies"
    } else {
        b"Two rows that store it twice"
    }
}

// A dependency, as a goal.
fn goal_of(alloc: Global, schema: &Schema, dep: Dep) -> Result<Argument, OutOfMemory>
    ensures goal { IfOk result (λ goal. goal ≡ goal_text schema.now (dependency_of dep)) }
{
    let mut text = Vec::new(alloc);
    add_dep(&mut text, schema, dep)?;
    Argument::new(alloc, &text)
}
