ghost use Rattle.std.specs.Prelude.{◌≡◌, ◌<◌, ◌^◌, ℕ, List, length, map, All};
ghost use Rattle.attr_sets.specs.Attributes.{IsSubset};
ghost use Rattle.attr_sets.specs.Sets.{attributes};
ghost use Rattle.attr_sets.specs.declared.set.AttrSet.{AttrSet};
ghost use Rattle.dep_model.specs.Tuples.{Relation};
ghost use Rattle.schema_model.specs.Schemas.{Schema, universe_of, nullable_of};
ghost use Rattle.optional_tables.specs.Readable.{IsReadable};
ghost use Rattle.table_names.specs.TableNames.{GivenNames};
ghost use Rattle.plan_printer.specs.NamedPlans.{AreApart};
ghost use Rattle.ddl_text.specs.Designs.{keyed};
ghost use Rattle.ddl_text.specs.declared.table.TableDesign.{TableDesign};
ghost use Rattle.sql_evaluation.specs.Cells.{Cell};
ghost use Rattle.sql_evaluation.specs.Running.{State, Cast, Fails, ended, outcome};
ghost use Rattle.sql_migrate.specs.Script.{migration};
ghost use Rattle.sql_migrate_laws.specs.Ending.{FitsRelations};
ghost use Rattle.desk_designs.specs.Designs.{IsSoundDesign};
ghost use Rattle.migration_laws.specs.Ready.{HaveOwnNames, IsPrinted, HoldsSoundRows, NamesAreFree, IsFairEngine};

/// A sound design that can be read back fits legal relations. Its tables have names of their own, apart from
/// one another and from those that a script gives. So the script of a design that is printed ends without an
/// error in a fair engine, over a table that holds a relation of which no rule is broken, where the names
/// that it gives are free.
pub fn migrations_of_designs_end()
    ensures fits { (s : Schema) (names : GivenNames) (plan : List AttrSet) (tables : List TableDesign)
        → All (λ scheme. IsSubset (attributes scheme) (universe_of s)) plan → IsSoundDesign s names plan tables
        → IsReadable (nullable_of s) (map keyed tables) → FitsRelations s tables }
    ensures own_names { (s : Schema) (names : GivenNames) (plan : List AttrSet) (tables : List TableDesign)
        → IsSoundDesign s names plan tables → AreApart names → length tables < 2 ^ 64 → HaveOwnNames tables }
    ensures ends { (fails : Fails) (cast : Cast) (s : Schema) (names : GivenNames) (plan : List AttrSet)
        (tables : List TableDesign) (name : List ℕ) (cell : ℕ → List ℕ → Cell) (r : Relation) (start : State)
        → IsPrinted s names plan tables → HoldsSoundRows cast s name cell r tables start
        → NamesAreFree start tables → IsFairEngine fails cast (migration s name tables)
        → (last : State) × (outcome fails cast (migration s name tables) start ≡ ended last) }
{}
