//! Laws of closed sets and of keys, most of them where all dependencies are functional, and of schemes
//! that are too wide to be searched.

ghost use Rattle.std.specs.Prelude.{◌≡◌, ℕ, ◌<◌, ◌≤◌, ◌↔◌, true, false, List, length, All, Any, Contains};
ghost use Rattle.attr_sets.specs.Attributes.{Attributes, below, union, IsSubset, count_below};
ghost use Rattle.attr_sets.specs.declared.set.TheConstants.{MOST_ATTRIBUTES};
ghost use Rattle.dep_model.specs.Dependencies.{Dependency, fd, functional_part, IsWithin, LeadsOut};
ghost use Rattle.dep_model.specs.Implication.{Implies};
ghost use Rattle.dep_model.specs.Keys.{InClosure, IsKey};
ghost use Rattle.fd_closure.specs.FunctionallyClosed.{IsFunctionallyClosed};
ghost use Rattle.fd_closure.specs.KeyLists.{IsExchanged};
ghost use Rattle.fd_closure.specs.LeftSides.{left_sides, IsWideScheme};
ghost use Rattle.fd_closure.specs.declared.left_sides.TheConstants.{WIDEST_SEARCHED};

/// A set is closed under the functional dependencies exactly where it holds its closure. A dependency
/// leads out of a set that determines the universe and is not all of it. The closure of a set with more
/// attributes is that of its closure with them, by all dependencies of a list; so the closure of a
/// larger set can begin with that of its part.
pub fn closed_sets_hold_their_closures()
    ensures closed { (n : ℕ) (ds : List Dependency) (c : Attributes) → All (IsWithin (below n)) ds
        → functional_part ds ≡ ds → IsSubset c (below n)
        → IsFunctionallyClosed ds c ↔ ((a : ℕ) → InClosure n ds c a → c a ≡ true) }
    ensures lead_out { (n : ℕ) (ds : List Dependency) (c : Attributes) (k : ℕ) → All (IsWithin (below n)) ds
        → functional_part ds ≡ ds → IsSubset c (below n)
        → Implies n ds (fd c (below n)) → k < n → c k ≡ false
        → (d : Dependency) × Contains ds d × LeadsOut c d }
    ensures parts { (n : ℕ) (ds : List Dependency) (x more c : Attributes) → IsSubset x (below n)
        → ((a : ℕ) → (c a ≡ true) ↔ InClosure n ds x a)
        → (a : ℕ) → InClosure n ds (union c more) a ↔ InClosure n ds (union x more) a }
{}

/// A list of keys of the universe holds all of them where it is not empty and each key and each
/// dependency lead to a key of the list again (Lucchesi and Osborn 1978).
pub fn all_keys_by_exchange()
    ensures law { (n : ℕ) (ds : List Dependency) (keys : List Attributes) → All (IsWithin (below n)) ds
        → functional_part ds ≡ ds
        → 0 < length keys → All (IsKey n ds (below n)) keys → IsExchanged ds keys
        → (key : Attributes) → IsKey n ds (below n) key → Any (λ k. k ≡ key) keys }
{}

/// A part of a scheme that is not too wide to be searched is not too wide; and where few attributes
/// stand in left sides, no scheme is.
pub fn few_are_never_wide()
    ensures part { (ds : List Dependency) (x y : Attributes) → IsSubset x y → IsWideScheme ds x → IsWideScheme ds y }
    ensures few_left_sides { (ds : List Dependency) (scheme : Attributes)
        → count_below (left_sides ds) MOST_ATTRIBUTES ≤ WIDEST_SEARCHED → IsWideScheme ds scheme → ⊥ }
{}
