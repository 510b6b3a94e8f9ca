ghost use Rattle.std.specs.Prelude.{◌≡◌, ◌↔◌, true, Some, List};
ghost use Rattle.sql_syntax.specs.Statements.{Statement};
ghost use Rattle.sql_evaluation.specs.Rules.{IsBroken};
ghost use Rattle.sql_evaluation.specs.Running.{State, Cast, done};
ghost use Rattle.migration_laws.specs.Casting.{cast_of_integers};
ghost use Rattle.migration_laws.specs.Ready.{IsFairEngine};
ghost use Rattle.migration_laws.specs.Strict.{refuses_broken};

/// An engine that casts the texts of integers, each to its integer, and refuses exactly what would break a rule of
/// a table is fair.
pub fn a_strict_engine_is_fair()
    ensures law { (script : List Statement)
        → IsFairEngine (refuses_broken cast_of_integers script) cast_of_integers script }
    ensures exact { (cast : Cast) (script : List Statement) (x : Statement) (state next : State)
        → done cast x state ≡ Some next → (refuses_broken cast script x state ≡ true) ↔ IsBroken script next }
{}
