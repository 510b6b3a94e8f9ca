//! The section on the cover.

ghost use Rattle.std.specs.Prelude.{◌≡◌, ◌++◌, codes, IfOk, OnOk};
ghost use Rattle.html_pages.specs.Commands.{shell_word};
ghost use Rattle.html_pages.specs.Pages.{title_with_words};
ghost use Rattle.desk_covers.specs.Covering.{GivesCover};
ghost use Rattle.desk_covers.specs.CoverReasons.{ExplainsCover};
ghost use Rattle.desk_reports.specs.Answers.{Adds, IsFoundCover};
ghost use Rattle.desk_reports.specs.Pieces.{OpensExplained};
ghost use Rattle.desk_reports.specs.Reports.{CoverSection};

use crate::pieces::{put_explained, title_of};
use arguments::Argument;
use byte_texts::add;
use cover_accounts::CoverSteps;
use dep_model::OutOfMemory;
use desk_covers::print_cover_reasons;
use html_pages::add_heading;
use schema_model::Schema;
use schema_printer::print_deps;
use std::alloc::Global;

/// Adds the section on the cover of a schema.
pub fn put_cover_section(
    alloc: Global,
    text: &mut Vec<u8>,
    schema: &Schema,
    file: &Argument,
    cover: &CoverSteps,
) -> Result<(), OutOfMemory>
    requires cover { IsFoundCover schema.now cover.now }
    ensures added { OnOk result (Adds (CoverSection file.now schema.now) text.old.items text.new.items) }
{
    let title = title_of(alloc, b"What the rules come to", b"cover ", file)?;
    add_heading(text, b"Cover")?;
    put_cover(alloc, text, schema, &title, cover)?;
    Ok(())
}

// Adds a cover, and how it comes about.
fn put_cover(
    alloc: Global,
    text: &mut Vec<u8>,
    schema: &Schema,
    title: &[u8],
    cover: &CoverSteps,
) -> Result<(), OutOfMemory>
    requires cover { IsFoundCover schema.now cover.now }
    ensures added { OnOk result (Adds (OpensExplained title.now (GivesCover schema.now) (ExplainsCover schema.now))
        text.old.items text.new.items) }
{
    let plain = print_deps(alloc, schema, &cover.whole)?;
    let mut explained = print_cover_reasons(alloc, schema, cover)?;
    add(&mut explained, &plain)?;
    put_explained(text, title, &plain, &explained)?;
    Ok(())
}
