ghost use Rattle.std.specs.Prelude.{◌≡◌, ◌↔◌, ◌<◌, ◌≤◌, length, All, IsTrue, IfOk};
ghost use Rattle.attr_sets.specs.Attributes.{IsSubset};
ghost use Rattle.attr_sets.specs.Sets.{attributes};
ghost use Rattle.schema_model.specs.Schemas.{universe_of, theory_in};
ghost use Rattle.plans.specs.Plans.{scheme_sets, IsPlanOver};
ghost use Rattle.table_names.specs.declared.numbered.TheConstants.{MOST_TABLES};
ghost use Rattle.ddl_text.specs.Designs.{RefersTo, AreReferences, IsTableOf, IsDesign, ReferToEarlier};
ghost use Rattle.ddl_text.specs.Laws.{KeysHold, OtherKeysHold, ReferencesHold};

use crate::TableDesign;
use crate::other_keys::other_keys;
use attr_sets::AttrSet;
use dep_model::OutOfMemory;
use plans::Plan;
use primary_keys::primary_key;
use schema_model::{Name, Schema};
use std::alloc::Global;
use std::marker::Model;
use table_names::name_of_table;

/// Tables, of which each refers to earlier ones alone.
#[derive(Debug, Drop)]
pub struct DesignList {
    tables: Vec<TableDesign>,
}

impl Model for DesignList {
    ghost use Rattle.std.specs.Prelude.{List};
    ghost use Rattle.ddl_text.specs.declared.table.TableDesign.{TableDesign};
    ghost use Rattle.ddl_text.specs.Designs.{ReferToEarlier};

    ghost Value = { List TableDesign };

    ghost view = { λ d. d.tables.items };

    ghost invariant = { λ d. ReferToEarlier d.tables.items };
}

impl DesignList {
    /// The tables, in order.
    pub fn tables(&self) -> &[TableDesign]
        ensures tables { result.now ≡ self.now }
        ensures earlier { ReferToEarlier self.now }
    {
        &self.tables
    }
}

/// The tables of a plan, one for each scheme, in order. They have the names that are given to them in order, and
/// `t1`, `t2` and so on where none is. The key of a table is the primary key of its scheme, of which no value may
/// be missing where some key of the scheme is so. Its other keys are those that `key_listing::keys_of_scheme`
/// lists beside this one; they are not looked for where that is refused and the key is not empty. It refers to
/// each earlier table whose key lies within its scheme and is not empty.
pub fn design(
    alloc: Global,
    schema: &Schema,
    plan: &Plan,
    names: &[Option<Name>],
) -> Result<DesignList, OutOfMemory>
    requires universe { IsPlanOver (theory_in schema.now) plan.now }
    requires within_limit { length (scheme_sets plan.now) ≤ MOST_TABLES }
    ensures design { IfOk result (λ tables. IsDesign schema.now names.now (scheme_sets plan.now) tables) }
    ensures keys_hold { IfOk result (λ tables. KeysHold schema.now tables) }
    ensures other_keys_hold { IfOk result (λ tables. OtherKeysHold schema.now tables) }
    ensures references_hold { IfOk result (λ tables. ReferencesHold schema.now tables) }
{
    let tables = tables_of(alloc, schema, names, plan.schemes())?;
    Ok(DesignList { tables })
}

// The tables of these schemes.
fn tables_of(
    alloc: Global,
    schema: &Schema,
    names: &[Option<Name>],
    schemes: &[AttrSet],
) -> Result<Vec<TableDesign>, OutOfMemory>
    requires within { All (λ scheme. IsSubset (attributes scheme)
        (universe_of schema.now)) schemes.now }
    requires within_limit { length schemes.now ≤ MOST_TABLES }
    ensures design { IfOk result (λ tables. IsDesign schema.now names.now schemes.now tables.items) }
{
    let mut tables = Vec::new(alloc);
    for scheme in schemes {
        let table = table_of(alloc, schema, names, &tables, *scheme)?;
        tables.push(table)?;
    }
    Ok(tables)
}

// The table of a scheme, after the earlier ones.
fn table_of(
    alloc: Global,
    schema: &Schema,
    names: &[Option<Name>],
    earlier: &[TableDesign],
    scheme: AttrSet,
) -> Result<TableDesign, OutOfMemory>
    requires scheme { IsSubset (attributes scheme) (universe_of schema.now) }
    requires within_limit { length earlier.now < MOST_TABLES }
    ensures table { IfOk result (IsTableOf schema.now names.now earlier.now scheme) }
{
    let key = primary_key(&schema.theory(), schema.nullable(), scheme);
    Ok(TableDesign {
        number: earlier.len() as u32 + 1,
        name: name_of_table(names, earlier.len() as u32),
        scheme,
        key,
        other_keys: other_keys(alloc, schema, scheme, key)?,
        refs: references(alloc, earlier, scheme)?,
    })
}

// The positions of the earlier tables that a scheme refers to.
fn references(
    alloc: Global,
    earlier: &[TableDesign],
    scheme: AttrSet,
) -> Result<Vec<u32>, OutOfMemory>
    requires within_limit { length earlier.now < MOST_TABLES }
    ensures refs { IfOk result (λ refs. AreReferences earlier.now (attributes scheme) refs.items) }
{
    let mut refs = Vec::new(alloc);
    for (j, table) in earlier.iter().enumerate() {
        if refers_to(scheme, table) {
            refs.push(j as u32)?;
        }
    }
    Ok(refs)
}

// Whether a scheme refers to a table.
fn refers_to(scheme: AttrSet, table: &TableDesign) -> bool
    ensures refers { IsTrue result ↔ RefersTo (attributes scheme) table.now }
{
    !table.key.is_empty() && table.key.is_subset(scheme)
}
