ghost use Rattle.std.specs.Prelude.{◌≡◌, ◌<◌, length, All, IsTrue, OnOk, IfErr, Ok, false};
ghost use Rattle.attr_sets.specs.declared.set.TheConstants.{MOST_ATTRIBUTES};
ghost use Rattle.schema_model.specs.Columns.{is_column_type};
ghost use Rattle.dep_model.specs.Failures.{RefusesAs};
ghost use Rattle.schema_model.specs.Names.{IsName, same_name};
ghost use Rattle.sql_definitions.specs.Facts.{AreColumns, Fails, as_found, no_facts, state_key, with_column, with_key};

use crate::refusal::{Reason, Refusal};
use dep_model::{Failure, MOST_DEPENDENCIES, OutOfMemory};
use schema_model::{ColumnType, Name};
use std::alloc::Global;
use std::marker::Model;

/// A column.
#[derive(Drop)]
pub struct Column {
    name: Name,
    kind: ColumnType,
    never_missing: bool,
}

impl Model for Column {
    ghost use Rattle.sql_definitions.specs.Facts.{StatedColumn};

    ghost Value = { StatedColumn };

    ghost view = { λ c. record {
      name = c.name;
      kind = c.kind;
      never_missing = c.never_missing;
    } };
}

impl Column {
    /// A column of this name and type, that says itself whether no value is missing.
    pub fn new(name: Name, kind: ColumnType, never_missing: bool) -> Column
        ensures column { result ≡ record { name = name; kind = kind; never_missing = never_missing } }
    {
        Column {
            name,
            kind,
            never_missing,
        }
    }

    /// Its name.
    pub fn name(&self) -> &Name
        ensures name { result.now ≡ self.now.name }
    {
        &self.name
    }

    /// The type of its values.
    pub fn kind(&self) -> ColumnType
        ensures kind { result ≡ self.now.kind }
    {
        self.kind
    }

    /// Whether it says itself that no value is missing.
    pub fn is_never_missing(&self) -> bool
        ensures never_missing { result ≡ self.now.never_missing }
    {
        self.never_missing
    }
}

/// A column of a key: its place, and its name, where it is one of a schema.
#[derive(Drop)]
pub struct Part {
    place: usize,
    name: Option<Name>,
}

impl Model for Part {
    ghost use Rattle.sql_definitions.specs.Facts.{StatedPart};

    ghost Value = { StatedPart };

    ghost view = { λ p. record { place = p.place; name = p.name } };
}

impl Part {
    /// A column of a key.
    pub fn new(place: usize, name: Option<Name>) -> Part
        ensures part { result ≡ record { place = place; name = name } }
    {
        Part { place, name }
    }

    /// Its place.
    pub fn place(&self) -> usize
        ensures place { result ≡ self.now.place }
    {
        self.place
    }

    /// Its name, where it is one of a schema.
    pub fn name(&self) -> Option<Name>
        ensures name { result ≡ self.now.name }
    {
        self.name
    }
}

/// What states a key.
#[derive(Clone, Copy, Debug, PartialEq, Eq)]
pub enum KeyKind {
    /// PRIMARY KEY.
    Primary,
    /// UNIQUE: missing values are not compared.
    Unique,
    /// UNIQUE with NULLS NOT DISTINCT: missing values are compared as others are.
    UniqueMissing,
}

/// A key that is stated.
#[derive(Drop)]
pub struct Key {
    kind: KeyKind,
    parts: Vec<Part>,
}

impl Model for Key {
    ghost use Rattle.sql_definitions.specs.Facts.{StatedKey};

    ghost Value = { StatedKey };

    ghost view = { λ k. record { kind = k.kind; parts = k.parts.items } };
}

impl Key {
    /// What states it.
    pub fn kind(&self) -> KeyKind
        ensures kind { result ≡ self.now.kind }
    {
        self.kind
    }

    /// Its columns.
    pub fn parts(&self) -> &[Part]
        ensures parts { result.now ≡ self.now.parts }
    {
        &self.parts
    }
}

/// What is known of a table: whether a statement creates it, its columns, and its keys in the order of the
/// text.
#[derive(Drop)]
pub struct Definition {
    found: bool,
    columns: Vec<Column>,
    keys: Vec<Key>,
}

impl Model for Definition {
    ghost use Rattle.sql_definitions.specs.Facts.{AreColumns, Facts};

    ghost Value = { Facts };

    ghost view = { λ d. record { found = d.found; columns = d.columns.items; keys = d.keys.items } };

    ghost invariant = { λ d. AreColumns d.columns.items };
}

impl Definition {
    /// Nothing is known.
    pub fn new(alloc: Global) -> Definition
        ensures nothing { result ≡ no_facts }
    {
        Definition {
            found: false,
            columns: Vec::new(alloc),
            keys: Vec::new(alloc),
        }
    }

    /// Whether a statement creates the table.
    pub fn is_found(&self) -> bool
        ensures found { result ≡ self.now.found }
    {
        self.found
    }

    /// Its columns, in their order.
    pub fn columns(&self) -> &[Column]
        ensures columns { result.now ≡ self.now.columns }
        ensures are_columns { AreColumns self.now.columns }
    {
        &self.columns
    }

    /// Its keys, in their order.
    pub fn keys(&self) -> &[Key]
        ensures keys { result.now ≡ self.now.keys }
    {
        &self.keys
    }

    /// A statement creates it.
    pub fn set_found(&mut self)
        ensures found { self.new ≡ as_found self.old }
    {
        self.found = true;
    }

    /// One column more.
    pub fn add_column(&mut self, column: Column) -> Result<(), OutOfMemory>
        requires another { All (λ c. same_name c.name column.name ≡ false) self.old.columns }
        requires within_limit { length self.old.columns < MOST_ATTRIBUTES }
        requires kind { IsTrue (is_column_type column.kind) }
        requires name { IsName column.name }
        ensures added { OnOk result (self.new ≡ with_column self.old column) }
    {
        self.columns.push(column)?;
        Ok(())
    }

    /// One key more, unless there are too many; the word that states it stands at this place.
    pub fn state_key(
        &mut self,
        kind: KeyKind,
        place: usize,
        parts: Vec<Part>,
    ) -> Result<(), Failure<Refusal>>
        ensures ok { OnOk result (state_key kind place parts.items self.old ≡ Ok self.new) }
        ensures err { IfErr result (λ failure. Fails failure (state_key kind place parts.items self.old)) }
    {
        if self.keys.len() >= MOST_DEPENDENCIES {
            return Err(Failure::Refused(Refusal {
                reason: Reason::TooManyDependencies,
                place,
            }));
        }
        self.keys.push(Key { kind, parts })?;
        Ok(())
    }
}
