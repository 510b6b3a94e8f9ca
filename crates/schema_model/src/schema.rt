ghost use Rattle.std.specs.Prelude.{◌≡◌, ℕ, ◌<◌, IsTrue, length, All, slice_get, Some, position};
ghost use Rattle.attr_sets.specs.Sets.{attributes};
ghost use Rattle.schema_model.specs.Names.{is_bare_name, same_name};
ghost use Rattle.schema_model.specs.Columns.{types_or_text, is_column_type};
ghost use Rattle.schema_model.specs.Validity.{IsSchema, AreDeclared, AreSetNumbers, HasSetNumbers};

use crate::{ColumnType, Name, Naming};
use attr_sets::AttrSet;
use dep_model::{Dep, Theory};
use std::marker::Model;

/// Attributes with their names and the types of their columns, and dependencies among them, each with
/// the line of the file on which it stood.
#[derive(Debug, Drop)]
pub struct Schema {
    naming: Naming,
    names: Vec<Name>,
    // without it all columns are text columns
    types: Option<Vec<ColumnType>>,
    // the attributes of which a value may be missing
    nullable: AttrSet,
    deps: Vec<Dep>,
    lines: Vec<u32>,
    pub ghost valid: { IsSchema names.items deps.items lines.items },
    pub ghost typed: { AreDeclared naming names.items (types_or_text (length names.items) types)
        (attributes nullable) },
    pub ghost numbers: { AreSetNumbers nullable deps.items },
}

impl Model for Schema {
    ghost use Rattle.std.specs.Prelude.{length};
    ghost use Rattle.schema_model.specs.Columns.{types_or_text};
    ghost use Rattle.schema_model.specs.Schemas.{Schema};

    ghost Value = { Schema };

    ghost view = { λ s. record {
      naming = s.naming;
      names = s.names.items;
      columns = types_or_text (length s.names.items) s.types;
      nullable = s.nullable;
      deps = s.deps.items;
      lines = s.lines.items;
      valid = s.valid;
      typed = s.typed;
      numbers = s.numbers;
    } };
}

impl Schema {
    ghost use Rattle.schema_model.specs.Schemas.{naming_of, names_of, width_of, types_of, nullable_of, deps_of, lines_of, attribute_named, theory_in};

    /// A schema of bare names and text columns. The lines are counted from 1.
    pub fn new(names: Vec<Name>, deps: Vec<Dep>, lines: Vec<u32>) -> Schema
        requires schema { IsSchema names.items deps.items lines.items }
        requires bare { All (λ name. IsTrue (is_bare_name name)) names.items }
        ensures naming { naming_of result ≡ Naming.Bare }
        ensures names { names_of result ≡ names.items }
        ensures columns { (i : ℕ) → i < width_of result → slice_get (types_of result) i ≡ Some ColumnType.Text }
        ensures deps { deps_of result ≡ deps.items }
        ensures lines { lines_of result ≡ lines.items }
    {
        see_sets_of_all(&deps);
        Schema {
            naming: Naming::Bare,
            names,
            types: None,
            nullable: AttrSet::empty(),
            deps,
            lines,
        }
    }

    /// A schema whose columns have these types, with missing values in those of `nullable`.
    pub fn with_columns(
        naming: Naming,
        names: Vec<Name>,
        columns: Vec<ColumnType>,
        nullable: AttrSet,
        deps: Vec<Dep>,
        lines: Vec<u32>,
    ) -> Schema
        requires schema { IsSchema names.items deps.items lines.items }
        requires columns { AreDeclared naming names.items columns.items (attributes nullable) }
        ensures naming { naming_of result ≡ naming }
        ensures names { names_of result ≡ names.items }
        ensures columns { types_of result ≡ columns.items }
        ensures nullable { nullable_of result ≡ attributes nullable }
        ensures deps { deps_of result ≡ deps.items }
        ensures lines { lines_of result ≡ lines.items }
    {
        see_sets_of_all(&deps);
        Schema {
            naming,
            names,
            types: Some(columns),
            nullable,
            deps,
            lines,
        }
    }

    /// Which names the schema has.
    pub fn naming(&self) -> Naming
        ensures naming { result ≡ naming_of self.now }
    {
        self.naming
    }

    /// How many attributes there are.
    pub fn width(&self) -> u8
        ensures count { result ≡ width_of self.now }
    {
        self.names.len() as u8
    }

    /// The name of attribute `i`.
    pub fn name(&self, i: u8) -> &Name
        requires { i < width_of self.now }
        ensures name { slice_get (names_of self.now) i ≡ Some result.now }
    {
        &self.names[i as usize]
    }

    /// The type of the column of attribute `i`.
    pub fn column(&self, i: u8) -> ColumnType
        requires { i < width_of self.now }
        ensures column { slice_get (types_of self.now) i ≡ Some result }
        ensures valid { IsTrue (is_column_type result) }
    {
        match &self.types {
            None => ColumnType::Text,
            Some(types) => types[i as usize],
        }
    }

    /// The attributes of which a value may be missing.
    pub fn nullable(&self) -> AttrSet
        ensures nullable { attributes result ≡ nullable_of self.now }
    {
        self.nullable
    }

    /// How many attributes there are, with the dependencies among them.
    pub fn theory(&self) -> Theory<'_>
        ensures theory { result ≡ theory_in self.now }
    {
        Theory::new(self.width(), &self.deps)
    }

    /// The dependencies, in the order of the file.
    pub fn deps(&self) -> &[Dep]
        ensures deps { result.now ≡ deps_of self.now }
    {
        &self.deps
    }

    /// The line of dependency `k`, from 1.
    pub fn line_of(&self, k: usize) -> u32
        requires { k < length (deps_of self.now) }
        ensures line { slice_get (lines_of self.now) k ≡ Some result }
    {
        self.lines[k]
    }

    /// The attribute whose name these bytes are, ASCII case aside.
    pub fn attribute_named(&self, bytes: &[u8]) -> Option<u8>
        ensures attribute { result ≡ attribute_named (names_of self.now) bytes.now }
    {
        match position_named(&self.names, bytes) {
            Some(i) => Some(i as u8),
            None => None,
        }
    }
}

// The position of the first name that these bytes are, ASCII case aside.
fn position_named(names: &[Name], bytes: &[u8]) -> Option<usize>
    ensures position { result ≡ position (λ name. same_name name bytes.now) names.now }
{
    names
        .iter()
        .position(|name| name.bytes().eq_ignore_ascii_case(bytes))
}

// The type of a set bounds its number. That is known of a value and of nothing in a vector, so each dependency is
// passed by value once.
fn see_sets_of_all(deps: &[Dep])
    ensures numbers { All HasSetNumbers deps.now }
{
    for dep in deps {
        see_sets(*dep);
    }
}

fn see_sets(dep: Dep)
    ensures numbers { HasSetNumbers dep }
{}
