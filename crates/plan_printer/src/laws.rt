ghost use Rattle.std.specs.Prelude.{◌≡◌, ◌+◌, ◌<◌, ◌^◌, ℕ, false};
ghost use Rattle.schema_model.specs.Names.{same_name};
ghost use Rattle.plan_printer.specs.NamedPlans.{AreApart};
ghost use Rattle.table_names.specs.TableNames.{GivenNames, name_of_table};

/// The names of two tables differ, ASCII case aside, where the names that are given are apart.
pub fn tables_have_different_names()
    ensures law { (given : GivenNames) (i j : ℕ) → AreApart given → i < j → j + 1 < 2 ^ 64
        → same_name (name_of_table given i) (name_of_table given j) ≡ false }
{}
