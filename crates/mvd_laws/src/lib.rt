//! Multivalued dependencies that one relation obeys, and how a list says all that it obeys. Laws,
//! no code.
//!
//! In one relation the right sides of a set are closed under union and difference, so each is a
//! union of blocks. Each law is a function that does nothing, whose clause is the law; so the gate
//! asks for its proof.
//!
//! Promises: the reduced ones, with a cover of the functional dependencies that a relation obeys,
//! are a cover of all that it obeys; how counting rows that agree decides whether a dependency is
//! obeyed.
#![tactic(auto)]

ghost use Rattle.std.specs.Prelude.{◌≡◌, ◌*◌, ◌<◌, ◌↔◌, ℕ, List, length, All};
ghost use Rattle.attr_sets.specs.Attributes.{Attributes, below, union, difference, IsSubset};
ghost use Rattle.row_groups.specs.Numberings.{number_at};
ghost use Rattle.dep_model.specs.Tuples.{Relation, IsOver};
ghost use Rattle.dep_model.specs.Dependencies.{Dependency, Obeys, ObeysFd, ObeysMvd};
ghost use Rattle.min_cover.specs.Covers.{IsThinned};
ghost use Rattle.mvd_laws.specs.Reduced.{AreAllReduced};
ghost use Rattle.mvd_laws.specs.Sizes.{AreDifferentRows, AreSizes};
ghost use Rattle.mvd_laws.specs.Covers.{IsCoverOfFunctional, IsCoverOfAll};

/// A cover of the functional dependencies that a relation obeys, with its reduced multivalued dependencies without
/// those that the others imply, is a cover of all dependencies that it obeys.
pub fn reduced_ones_cover_all()
    ensures law { (n : ℕ) (r : Relation) (fds mvds ds : List Dependency) → IsOver n r
        → All (λ d. Obeys n d r) fds → IsCoverOfFunctional n r fds → AreAllReduced n r mvds
        → IsThinned n fds mvds ds → IsCoverOfAll n r ds }
{}

/// A relation obeys `x -> y` exactly where as many of its different rows agree with each on `x` as on
/// `x` and `y`. It obeys `x ->> y` exactly where, for each of its different rows, those that agree with
/// it on `x` are as many as those that agree on `x` and `y` times those that agree on `x` and the rest
/// (Lee 1987 has it by entropies).
pub fn obeyed_by_counts()
    ensures functional { (n : ℕ) (r : Relation) (ones : List ℕ) → AreDifferentRows n r ones → (x y : Attributes)
        → IsSubset x (below n) → IsSubset y (below n) → (by_left by_both : List ℕ)
        → AreSizes r ones x by_left → AreSizes r ones (union x y) by_both
        → ((j : ℕ) → j < length ones → number_at by_left j ≡ number_at by_both j) ↔ ObeysFd x y r }
    ensures multivalued { (n : ℕ) (r : Relation) (ones : List ℕ) → AreDifferentRows n r ones → (x y : Attributes)
        → IsSubset x (below n) → IsSubset y (below n) → (by_left by_both by_rest : List ℕ)
        → AreSizes r ones x by_left → AreSizes r ones (union x y) by_both
        → AreSizes r ones (union x (difference (below n) (union x y))) by_rest
        → ((j : ℕ) → j < length ones → number_at by_left j ≡ number_at by_both j * number_at by_rest j)
        ↔ ObeysMvd (below n) x y r }
{}
