ghost use Rattle.std.specs.Prelude.{◌≡◌, ◌<◌, All, IfOk};
ghost use Rattle.attr_sets.specs.declared.set.TheConstants.{MOST_ATTRIBUTES};
ghost use Rattle.cover_accounts.specs.CoverDiagnostics.{NamesAttribute};
ghost use Rattle.desk_covers.specs.CoverChecks.{ChecksCanonicalCover, ChecksCover, ChecksCoverForm, TestsCover};
ghost use Rattle.desk_covers.specs.CoverChecks.{TestsForm, diagnostic_text, diagnostics_text, form_text, form_words};
ghost use Rattle.desk_covers.specs.CoverChecks.{not_needed_text, placed_dep_text};
ghost use Rattle.desk_responses.specs.Responses.{response_value, RespondsAs};
ghost use Rattle.schema_match.specs.Columns.{SameNames};

use crate::sameness::{difference_lines, test_names};
use arguments::Argument;
use attr_sets::AttrSet;
use byte_texts::add;
use cover_accounts::{CoverDiagnostic, CoverForm, diagnostics};
use dep_model::OutOfMemory;
use desk_responses::{EarlyExit, Response, Status, put_dep, put_line};
use desk_texts::line_of;
use fd_closure::is_functional;
use schema_model::Schema;
use schema_printer::add_set;
use std::alloc::Global;

/// Whether a second schema is a minimal cover of the first, if they have the same names, and what keeps
/// it from being one. Each comes with the name of its file.
pub fn check_cover(
    alloc: Global,
    schema: &Schema,
    other: &Schema,
    file: &Argument,
    other_file: &Argument,
) -> Result<Response, EarlyExit>
    ensures response { RespondsAs
        (ChecksCover schema.now other.now file.now other_file.now) result }
{
    check_form(alloc, CoverForm::Minimal, schema, other, file, other_file)
}

/// Whether a second schema is a canonical cover of the first, if they have the same names, and what keeps
/// it from being one. Each comes with the name of its file.
pub fn check_canonical_cover(
    alloc: Global,
    schema: &Schema,
    other: &Schema,
    file: &Argument,
    other_file: &Argument,
) -> Result<Response, EarlyExit>
    ensures response { RespondsAs
        (ChecksCanonicalCover schema.now other.now file.now other_file.now) result }
{
    check_form(alloc, CoverForm::Canonical, schema, other, file, other_file)
}

// Whether a second schema is a cover of a form of the first, if they have the same names.
fn check_form(
    alloc: Global,
    form: CoverForm,
    schema: &Schema,
    other: &Schema,
    file: &Argument,
    other_file: &Argument,
) -> Result<Response, EarlyExit>
    ensures response { RespondsAs
        (ChecksCoverForm form schema.now other.now file.now other_file.now) result }
{
    match test_names(alloc, schema, other, file, other_file) {
        Ok(()) => {}
        Err(exit) => return Err(exit),
    }
    Ok(test_cover(alloc, form, schema, other, file, other_file)?)
}

// Whether a second schema over the same names is a cover of a form of the first.
fn test_cover(
    alloc: Global,
    form: CoverForm,
    schema: &Schema,
    other: &Schema,
    file: &Argument,
    other_file: &Argument,
) -> Result<Response, OutOfMemory>
    requires names { SameNames schema.now other.now }
    ensures response { IfOk result (λ response.
        TestsCover form schema.now other.now file.now other_file.now (response_value response)) }
{
    let lines = difference_lines(alloc, schema, other, file, other_file)?;
    match lines {
        None => test_form(alloc, form, other),
        Some(text) => Ok(Response::with_text(Status::No, text)),
    }
}

// Whether nothing keeps a schema from being a cover of a form.
fn test_form(alloc: Global, form: CoverForm, schema: &Schema) -> Result<Response, OutOfMemory>
    ensures response { IfOk result (λ response. TestsForm form schema.now (response_value response)) }
{
    let found = diagnostics(alloc, &schema.theory(), form)?;
    if found.is_empty() {
        return Ok(Response::with_text(Status::Yes, form_line(alloc, form, schema)?));
    }
    let text = diagnostic_lines(alloc, schema, &found)?;
    Ok(Response::with_text(Status::No, text))
}

// What is said of a schema that has no diagnostic.
fn form_line(alloc: Global, form: CoverForm, schema: &Schema) -> Result<Vec<u8>, OutOfMemory>
    ensures text { IfOk result (λ text. text.items ≡ form_text form schema.now) }
{
    let words = form_words(form, is_functional(schema.deps()));
    line_of(alloc, words, b"", b"")
}

fn form_words(form: CoverForm, functional: bool) -> &'static [u8]
    ensures words { result.now ≡ form_words form functional }
{
    match (form, functional) {
        (CoverForm::Minimal, true) => b"equivalent and minimal",
        (CoverForm::Minimal, false) => b"equivalent, and minimal by kind",
        (CoverForm::Canonical, true) => b"equivalent and canonical",
        (CoverForm::Canonical, false) => b"equivalent, and canonical by kind",
    }
}

// A line for each diagnostic.
fn diagnostic_lines(
    alloc: Global,
    schema: &Schema,
    found: &[CoverDiagnostic],
) -> Result<Vec<u8>, OutOfMemory>
    requires attributes { All NamesAttribute found.now }
    ensures text { IfOk result (λ text. text.items ≡ diagnostics_text schema.now found.now) }
{
    let mut text = Vec::new(alloc);
    for diagnostic in found {
        add(&mut text, &diagnostic_line(alloc, schema, *diagnostic)?)?;
    }
    Ok(text)
}

fn diagnostic_line(
    alloc: Global,
    schema: &Schema,
    diagnostic: CoverDiagnostic,
) -> Result<Vec<u8>, OutOfMemory>
    requires attribute { NamesAttribute diagnostic }
    ensures text { IfOk result (λ text. text.items ≡ diagnostic_text schema.now diagnostic) }
{
    match diagnostic {
        CoverDiagnostic::SeveralOnRight { dep } => {
            let mut text = placed_dep(alloc, schema, dep)?;
            add(&mut text, b" has more than one attribute on the right\n")?;
            Ok(text)
        }
        CoverDiagnostic::SameLeft { dep, first } => {
            let mut text = placed_dep(alloc, schema, dep)?;
            add(&mut text, b" has the left side of line ")?;
            put_line(alloc, &mut text, schema, first as usize)?;
            add(&mut text, b"\n")?;
            Ok(text)
        }
        CoverDiagnostic::NotNeededOnLeft { dep, attribute } => {
            not_needed_line(alloc, schema, dep, attribute, b" is not needed on the left")
        }
        CoverDiagnostic::NotNeededOnRight { dep, attribute } => {
            not_needed_line(
                alloc,
                schema,
                dep,
                attribute,
                b" is not needed on the right",
            )
        }
        CoverDiagnostic::Follows { dep } => {
            let mut text = placed_dep(alloc, schema, dep)?;
            add(&mut text, b" follows from the others\n")?;
            Ok(text)
        }
    }
}

// An attribute of the dependency at a position is not needed.
fn not_needed_line(
    alloc: Global,
    schema: &Schema,
    dep: u16,
    attribute: u8,
    words: &[u8],
) -> Result<Vec<u8>, OutOfMemory>
    requires attribute { attribute < MOST_ATTRIBUTES }
    ensures text { IfOk result (λ text. text.items ≡ not_needed_text schema.now dep attribute words.now) }
{
    let mut text = placed_dep(alloc, schema, dep)?;
    add(&mut text, b": ")?;
    add_set(&mut text, schema, AttrSet::single(attribute))?;
    add(&mut text, words)?;
    add(&mut text, b"\n")?;
    Ok(text)
}

// A dependency of a file, after its line.
fn placed_dep(alloc: Global, schema: &Schema, dep: u16) -> Result<Vec<u8>, OutOfMemory>
    ensures text { IfOk result (λ text. text.items ≡ placed_dep_text schema.now dep) }
{
    let mut text = Vec::new(alloc);
    add(&mut text, b"line ")?;
    put_line(alloc, &mut text, schema, dep as usize)?;
    add(&mut text, b": ")?;
    put_dep(&mut text, schema, dep as usize)?;
    Ok(text)
}
