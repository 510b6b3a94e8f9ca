ghost use Rattle.std.specs.Prelude.{◌≡◌, ◌++◌, ◌<◌, [], if◌then◌else◌, IfOk, OnOk};
ghost use Rattle.attr_sets.specs.Attributes.{difference};
ghost use Rattle.attr_sets.specs.Sets.{attributes};
ghost use Rattle.attr_sets.specs.declared.set.TheConstants.{MOST_ATTRIBUTES};
ghost use Rattle.cover_accounts.specs.Steps.{AreCoverSteps, place_of, places_of, shortened_list, shortened_of};
ghost use Rattle.schema_model.specs.Schemas.{width_of, theory_of};
ghost use Rattle.desk_covers.specs.CoverReasons.{AreCoverReasons, ExplainsCover, all_gone_text, gone_text};
ghost use Rattle.desk_covers.specs.CoverReasons.{member_before, member_text, members_text, needless_text};
ghost use Rattle.desk_covers.specs.CoverReasons.{placed_text};
ghost use Rattle.desk_responses.specs.Responses.{response_value, RespondsAs};

use attr_sets::AttrSet;
use byte_texts::add;
use cover_accounts::{CoverSteps, PlacedDep, ShortMember, cover_steps};
use dep_model::{Dep, OutOfMemory};
use desk_responses::{EarlyExit, Response, Status, put_line};
use schema_model::Schema;
use schema_printer::{add_dep, add_set, print_deps};
use std::alloc::Global;

/// A cover of a schema, below how it comes about: which attributes of left sides are not needed, and which
/// dependencies follow from the others.
pub fn explain_cover(alloc: Global, schema: &Schema) -> Result<Response, EarlyExit>
    ensures response { RespondsAs (ExplainsCover schema.now) result }
{
    Ok(explained_cover(alloc, schema)?)
}

fn explained_cover(alloc: Global, schema: &Schema) -> Result<Response, OutOfMemory>
    ensures response { IfOk result (λ response. ExplainsCover schema.now (response_value response)) }
{
    let steps = cover_steps(alloc, &schema.theory())?;
    let mut text = print_cover_reasons(alloc, schema, &steps)?;
    let plain = print_deps(alloc, schema, &steps.whole)?;
    add(&mut text, &plain)?;
    Ok(Response::with_text(Status::Yes, text))
}

/// How the cover comes about, as text.
pub fn print_cover_reasons(
    alloc: Global,
    schema: &Schema,
    steps: &CoverSteps,
) -> Result<Vec<u8>, OutOfMemory>
    requires steps { AreCoverSteps (width_of schema.now) (theory_of schema.now)
        (shortened_list steps.now.members.items) (places_of steps.now.gone.items) }
    ensures reasons { IfOk result (λ text. AreCoverReasons schema.now text.items) }
{
    let text = print_reasons(alloc, schema, &steps.members, &steps.gone)?;
    Ok(text)
}

fn print_reasons(
    alloc: Global,
    schema: &Schema,
    members: &[ShortMember],
    gone: &[PlacedDep],
) -> Result<Vec<u8>, OutOfMemory>
    ensures text { IfOk result (λ text. text.items ≡ members_text schema.now (shortened_list members.now)
        ++ all_gone_text schema.now (places_of gone.now)) }
{
    let mut text = Vec::new(alloc);
    put_members(alloc, &mut text, schema, members)?;
    put_gone(alloc, &mut text, schema, gone)?;
    Ok(text)
}

// The lines of members, at the end of a text.
fn put_members(
    alloc: Global,
    text: &mut Vec<u8>,
    schema: &Schema,
    members: &[ShortMember],
) -> Result<(), OutOfMemory>
    ensures added { OnOk result (text.new.items
        ≡ text.old.items ++ members_text schema.now (shortened_list members.now)) }
{
    for member in members {
        put_member(alloc, text, schema, *member)?;
    }
    Ok(())
}

// A line for each attribute that goes from the left side of a member, at the end of a text.
fn put_member(
    alloc: Global,
    text: &mut Vec<u8>,
    schema: &Schema,
    member: ShortMember,
) -> Result<(), OutOfMemory>
    ensures added { OnOk result (text.new.items
        ≡ text.old.items ++ member_text schema.now (shortened_of member)) }
{
    for a in 0..schema.width() {
        put_needless(alloc, text, schema, member, a)?;
    }
    Ok(())
}

// A line for an attribute, where it goes from the left side of a member, at the end of a text.
fn put_needless(
    alloc: Global,
    text: &mut Vec<u8>,
    schema: &Schema,
    member: ShortMember,
    a: u8,
) -> Result<(), OutOfMemory>
    requires attribute { a < MOST_ATTRIBUTES }
    ensures added { OnOk result (text.new.items ≡ text.old.items
        ++ (if difference (attributes member.whole) (attributes member.left) a
        then needless_text schema.now (shortened_of member) a
        else [])) }
{
    let lost = member.whole.difference(member.left);
    if !lost.contains(a) {
        return Ok(());
    }
    let line = needless_line(alloc, schema, member, a)?;
    add(text, &line)
}

// An attribute is not needed on the left of a member, which is told as it is before that goes.
fn needless_line(
    alloc: Global,
    schema: &Schema,
    member: ShortMember,
    a: u8,
) -> Result<Vec<u8>, OutOfMemory>
    requires attribute { a < MOST_ATTRIBUTES }
    ensures text { IfOk result (λ text. text.items
        ≡ needless_text schema.now (shortened_of member) a) }
{
    let mut text = placed_dep(alloc, schema, member_before(member, a))?;
    add(&mut text, b": ")?;
    add_set(&mut text, schema, AttrSet::single(a))?;
    add(&mut text, b" is not needed on the left")?;
    add(&mut text, b"\n")?;
    Ok(text)
}

// A member without the attributes of its left side that go before one.
fn member_before(member: ShortMember, a: u8) -> PlacedDep
    requires attribute { a < MOST_ATTRIBUTES }
    ensures member { place_of result ≡ member_before (shortened_of member) a }
{
    let lost = member.whole.difference(member.left);
    let gone = lost.intersection(AttrSet::full(a));
    PlacedDep {
        position: member.position,
        dep: Dep::Fd {
            lhs: member.whole.difference(gone),
            rhs: member.right,
        },
    }
}

// The lines of dependencies that follow from the others, at the end of a text.
fn put_gone(
    alloc: Global,
    text: &mut Vec<u8>,
    schema: &Schema,
    gone: &[PlacedDep],
) -> Result<(), OutOfMemory>
    ensures added { OnOk result (text.new.items
        ≡ text.old.items ++ all_gone_text schema.now (places_of gone.now)) }
{
    for one in gone {
        add(text, &gone_line(alloc, schema, *one)?)?;
    }
    Ok(())
}

fn gone_line(alloc: Global, schema: &Schema, one: PlacedDep) -> Result<Vec<u8>, OutOfMemory>
    ensures text { IfOk result (λ text. text.items ≡ gone_text schema.now (place_of one)) }
{
    let mut text = placed_dep(alloc, schema, one)?;
    add(&mut text, b" follows from the others")?;
    add(&mut text, b"\n")?;
    Ok(text)
}

// A dependency, after the line of the one that it comes from.
fn placed_dep(alloc: Global, schema: &Schema, one: PlacedDep) -> Result<Vec<u8>, OutOfMemory>
    ensures text { IfOk result (λ text. text.items ≡ placed_text schema.now (place_of one)) }
{
    let mut text = Vec::new(alloc);
    add(&mut text, b"# line ")?;
    put_line(alloc, &mut text, schema, one.position as usize)?;
    add(&mut text, b": ")?;
    add_dep(&mut text, schema, one.dep)?;
    Ok(text)
}
