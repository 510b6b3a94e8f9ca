ghost use Rattle.std.specs.Prelude.{◌≡◌, ◌∷◌, ◌++◌, [], All, IfOk, OnOk};
ghost use Rattle.attr_sets.specs.Attributes.{IsSubset, IsEmpty};
ghost use Rattle.attr_sets.specs.Sets.{attributes};
ghost use Rattle.dep_model.specs.Plans.{schemes_of};
ghost use Rattle.schema_model.specs.Schemas.{universe_of, theory_in};
ghost use Rattle.schema_printer.specs.Spelling.{printed_names_of};
ghost use Rattle.plan_printer.specs.Printing.{scheme_text, plan_text};
ghost use Rattle.plans.specs.Plans.{plan_of, IsPlanOver};

use attr_sets::AttrSet;
use byte_texts::add;
use dep_model::OutOfMemory;
use plans::Plan;
use schema_model::Schema;
use schema_printer::add_set;
use std::alloc::Global;

/// The plan in the one form: a line for each scheme. Where no name is reserved, and it is short enough to
/// be read, it means the same schemes.
pub fn print_plan(alloc: Global, schema: &Schema, plan: &Plan) -> Result<Vec<u8>, OutOfMemory>
    requires universe { IsPlanOver (theory_in schema.now) plan.now }
    ensures text { IfOk result (λ text. text.items ≡ plan_text (printed_names_of schema.now) (plan_of plan.now)) }
{
    let mut text = Vec::new(alloc);
    add_schemes(&mut text, schema, plan.schemes())?;
    Ok(text)
}

// Adds a line for each scheme.
fn add_schemes(text: &mut Vec<u8>, schema: &Schema, schemes: &[AttrSet]) -> Result<(), OutOfMemory>
    requires within { All (λ scheme. IsSubset (attributes scheme)
        (universe_of schema.now)) schemes.now }
    requires nonempty { All (λ scheme. IsEmpty (attributes scheme) → ⊥) schemes.now }
    ensures added { OnOk result (text.new.items
        ≡ text.old.items ++ plan_text (printed_names_of schema.now) (schemes_of schemes.now)) }
{
    for scheme in schemes {
        add_scheme(text, schema, *scheme)?;
    }
    Ok(())
}

// Adds the line of a scheme.
fn add_scheme(text: &mut Vec<u8>, schema: &Schema, scheme: AttrSet) -> Result<(), OutOfMemory>
    requires within { IsSubset (attributes scheme) (universe_of schema.now) }
    requires nonempty { IsEmpty (attributes scheme) → ⊥ }
    ensures added { OnOk result (text.new.items
        ≡ text.old.items ++ (scheme_text (printed_names_of schema.now) (attributes scheme) ++ 10 ∷ [])) }
{
    add(text, b"scheme ")?;
    add_set(text, schema, scheme)?;
    add(text, b"\n")
}
