ghost use Rattle.std.specs.Prelude.{◌≡◌, IsNone, IfSome};
ghost use Rattle.std.specs.List.{list_any};
ghost use Rattle.attr_sets.specs.Attributes.{IsFirstFrom};
ghost use Rattle.attr_sets.specs.Sets.{attributes};
ghost use Rattle.dep_model.specs.Plans.{schemes_of};
ghost use Rattle.dep_model.specs.Projections.{Covers};
ghost use Rattle.schema_model.specs.Schemas.{width_of};
ghost use Rattle.plan_grammar.specs.Diagnostics.{uncovered_attributes};

use attr_sets::AttrSet;
use schema_model::Schema;

// The first attribute that is in no scheme.
pub fn first_uncovered(schema: &Schema, schemes: &[AttrSet]) -> Option<u8>
    ensures covers { IsNone result → Covers (width_of schema.now) (schemes_of schemes.now) }
    ensures least { IfSome result (IsFirstFrom (uncovered_attributes (width_of schema.now)
        (schemes_of schemes.now)) 0) }
{
    AttrSet::full(schema.width())
        .difference(all_of(schemes))
        .first()
}

// The attributes that are in some scheme.
fn all_of(schemes: &[AttrSet]) -> AttrSet
    ensures members { attributes result
        ≡ (λ k. list_any (λ scheme. scheme k) (schemes_of schemes.now)) }
{
    let mut all = AttrSet::empty();
    for scheme in schemes {
        all = all.union(*scheme);
    }
    all
}
