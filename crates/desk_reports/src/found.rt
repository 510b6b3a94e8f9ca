//! What several sections of a page show, found once.

ghost use Rattle.std.specs.Prelude.{IfOk};
ghost use Rattle.desk_reports.specs.Answers.{AreFoundKeys, IsFoundCover};

use attr_sets::AttrSet;
use cover_accounts::{CoverSteps, cover_steps};
use dep_model::{Failure, OutOfMemory};
use key_listing::{KeyRefusal, keys};
use schema_model::Schema;
use std::alloc::Global;

/// All keys of a schema's universe, or why they are not listed.
#[derive(Debug, Drop)]
pub enum FoundKeys {
    Listed(Vec<AttrSet>),
    Refused(KeyRefusal),
}

// The cover of a schema, and how it comes about.
pub fn find_cover(alloc: Global, schema: &Schema) -> Result<CoverSteps, OutOfMemory>
    ensures found { IfOk result (IsFoundCover schema.now) }
{
    let cover = cover_steps(alloc, &schema.theory())?;
    Ok(cover)
}

// All keys of a schema, or why they are not listed.
pub fn find_keys(alloc: Global, schema: &Schema) -> Result<FoundKeys, OutOfMemory>
    ensures found { IfOk result (AreFoundKeys schema.now) }
{
    match keys(alloc, &schema.theory()) {
        Ok(keys) => Ok(FoundKeys::Listed(keys)),
        Err(Failure::Refused(refusal)) => Ok(FoundKeys::Refused(refusal)),
        Err(Failure::OutOfMemory) => Err(OutOfMemory),
    }
}
