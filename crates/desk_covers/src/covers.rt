ghost use Rattle.std.specs.Prelude.{IfOk};
ghost use Rattle.desk_covers.specs.Covering.{GivesCanonicalCover, GivesCover};
ghost use Rattle.desk_responses.specs.Responses.{response_value, RespondsAs};

use canonical_cover::canonical_cover;
use dep_model::OutOfMemory;
use desk_responses::{EarlyExit, Response, Status};
use min_cover::whole_cover;
use schema_model::Schema;
use schema_printer::print_deps;
use std::alloc::Global;

/// A cover of a schema: what says the same, in which no functional dependency follows from the other
/// functional ones, and no multivalued one from the rest.
pub fn cover(alloc: Global, schema: &Schema) -> Result<Response, EarlyExit>
    ensures response { RespondsAs (GivesCover schema.now) result }
{
    Ok(cover_response(alloc, schema)?)
}

fn cover_response(alloc: Global, schema: &Schema) -> Result<Response, OutOfMemory>
    ensures response { IfOk result (λ response. GivesCover schema.now (response_value response)) }
{
    let whole = whole_cover(alloc, &schema.theory())?;
    Ok(Response::with_text(Status::Yes, print_deps(alloc, schema, &whole)?))
}

/// The same cover, in which the functional dependencies of one left side stand as one.
pub fn cover_canonically(alloc: Global, schema: &Schema) -> Result<Response, EarlyExit>
    ensures response { RespondsAs (GivesCanonicalCover schema.now) result }
{
    Ok(canonical_response(alloc, schema)?)
}

fn canonical_response(alloc: Global, schema: &Schema) -> Result<Response, OutOfMemory>
    ensures response { IfOk result
        (λ response. GivesCanonicalCover schema.now (response_value response)) }
{
    let cover = canonical_cover(alloc, &schema.theory())?;
    Ok(Response::with_text(Status::Yes, print_deps(alloc, schema, &cover)?))
}
