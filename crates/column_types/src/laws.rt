//! The laws of the types of columns. Each is a function that does nothing, whose clause is the law; so
//! the gate asks for its proof.

ghost use Rattle.std.specs.Prelude.{◌≡◌, ◌<◌, ℕ, Bool, true, length};
ghost use Rattle.column_types.specs.FirstTypes.{HasEmpty, IsTypeOf, value_in};
ghost use Rattle.column_values.specs.Values.{FitsColumn};
ghost use Rattle.dep_model.specs.Tuples.{Relation};
ghost use Rattle.schema_model.specs.declared.column_type.ColumnType.{ColumnType};

/// A column has one type; so a decimal one has one scale.
pub fn column_has_one_type()
    ensures law { (rows : Relation) (k : ℕ) (one other : ColumnType) → IsTypeOf rows k one
        → IsTypeOf rows k other → one ≡ other }
{}

/// Each value fits a column of its column's type of which a value may be missing where one is empty.
pub fn values_fit_their_column()
    ensures law { (rows : Relation) (k i : ℕ) (column : ColumnType) (nullable : Bool)
        → IsTypeOf rows k column → (HasEmpty rows k → nullable ≡ true) → i < length rows
        → FitsColumn column nullable (value_in rows k i) }
{}
