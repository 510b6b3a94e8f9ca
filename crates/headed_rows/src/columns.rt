ghost use Rattle.std.specs.Prelude.{◌≡◌, ◌<◌, ◌≤◌, ◌^◌, ℕ, List, length, map, IfOk, IfErr};
ghost use Rattle.std.specs.List.{list_all};
ghost use Rattle.csv.specs.Records.{fields_of};
ghost use Rattle.dep_model.specs.Failures.{RefusesAs};
ghost use Rattle.headed_rows.specs.Headers.{NamesColumn, RefusesColumn, IsHeaderWithin, RefusesColumnHeader};
ghost use Rattle.headed_rows.specs.Headers.{is_plain_name, naming_under};

use crate::HeaderRefusal;
use csv::ByteRecord;
use csv_rows::field;
use dep_model::Failure;
use schema_grammar::Format;
use schema_model::{Name, Naming, is_bare_name};
use std::alloc::Global;
use tokens::{is_reserved, position_among};

// The names that a header gives its columns, which are at most so many.
pub fn column_names(
    alloc: Global,
    widest: u8,
    fields: &ByteRecord,
) -> Result<Vec<Name>, Failure<HeaderRefusal>>
    ensures names { IfOk result (λ names. names.items ≡ fields_of fields.now) }
    ensures header { IfOk result (λ _. IsHeaderWithin widest (fields_of fields.now)) }
    ensures err { IfErr result (RefusesAs (RefusesColumnHeader widest (fields_of fields.now))) }
{
    if fields.len() > widest as usize {
        return Err(Failure::Refused(HeaderRefusal::TooManyColumns));
    }
    let mut names = Vec::new(alloc);
    for i in 0..fields.len() {
        let name = match column_name(&names, field(fields, i), i as u32 + 1) {
            Ok(name) => name,
            Err(refusal) => return Err(Failure::Refused(refusal)),
        };
        names.push(name)?;
    }
    Ok(names)
}

// The name of a column, from 1, where those before it have these names.
fn column_name(before: &[Name], field: &[u8], column: u32) -> Result<Name, HeaderRefusal>
    ensures name { IfOk result (λ name. name ≡ field.now) }
    ensures fits { IfOk result (λ _. NamesColumn before.now field.now) }
    ensures err { IfErr result (RefusesColumn before.now field.now column) }
{
    match Name::new(field) {
        None => Err(HeaderRefusal::BadColumn { column }),
        Some(name) => match position_among(before, field) {
            Some(_) => Err(HeaderRefusal::DoubleColumn { column }),
            None => Ok(name),
        },
    }
}

/// How a schema text names columns of these names: bare where each of them stands as it is in a text
/// without a version line, else as any names.
pub fn naming_under(names: &[Name]) -> Naming
    ensures naming { result ≡ naming_under names.now }
{
    if are_plain_names(names) {
        Naming::Bare
    } else {
        Naming::Any
    }
}

// Whether each of the names stands as it is in such a text.
fn are_plain_names(names: &[Name]) -> bool
    ensures plain { result ≡ list_all is_plain_name names.now }
{
    names.iter().all(|name| is_plain_name(name.bytes()))
}

// Whether a name stands as it is in a text without a version line.
fn is_plain_name(name: &[u8]) -> bool
    ensures plain { result ≡ is_plain_name name.now }
{
    is_bare_name(name) && !is_reserved(Format::Plain, name)
}
