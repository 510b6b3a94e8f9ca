//! Laws of primary keys. Each is a function that does nothing, whose clause is the law; so the gate asks for
//! its proof.

ghost use Rattle.std.specs.Prelude.{◌≡◌, ◌↔◌, ℕ, List};
ghost use Rattle.attr_sets.specs.Attributes.{Attributes, below, IsSubset, Disjoint};
ghost use Rattle.dep_model.specs.Dependencies.{Dependency};
ghost use Rattle.dep_model.specs.Keys.{IsKey, IsGreedyKey};
ghost use Rattle.primary_keys.specs.PrimaryKeys.{IsPrimaryKey};

/// A scheme has one primary key, and it is a key of it. No attribute of it may be missing exactly where
/// there is a key of which none may be. Where no attribute of a scheme may be missing, it is the greedy
/// key.
pub fn one_primary_key()
    ensures key { (n : ℕ) (ds : List Dependency) (nullable scheme k : Attributes)
        → IsSubset scheme (below n) → IsPrimaryKey n ds nullable scheme k → IsKey n ds scheme k }
    ensures unique { (n : ℕ) (ds : List Dependency) (nullable scheme one other : Attributes)
        → IsSubset scheme (below n) → IsPrimaryKey n ds nullable scheme one
        → IsPrimaryKey n ds nullable scheme other → one ≡ other }
    ensures missing { (n : ℕ) (ds : List Dependency) (nullable scheme k : Attributes)
        → IsSubset scheme (below n) → IsPrimaryKey n ds nullable scheme k
        → Disjoint k nullable
        ↔ ((key : Attributes) × IsKey n ds scheme key × Disjoint key nullable) }
    ensures greedy { (n : ℕ) (ds : List Dependency) (nullable scheme k : Attributes)
        → IsSubset scheme (below n) → Disjoint scheme nullable
        → IsPrimaryKey n ds nullable scheme k → IsGreedyKey n ds scheme k }
{}
