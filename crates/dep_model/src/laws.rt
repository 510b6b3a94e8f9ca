//! The laws by which the definitions of the theory were tried. Each is a function that does nothing,
//! whose clause is the law; so the gate asks for its proof.

ghost use Rattle.std.specs.Prelude.{◌≡◌, ℕ, ◌↔◌, ◌⊎◌, true, List, [], ◌∷◌, Contains};
ghost use Rattle.attr_sets.specs.Attributes.{Attributes, below, union, difference, IsSubset, Disjoint};
ghost use Rattle.dep_model.specs.Tuples.{Tuple, Relation, value_at, AgreeExactly};
ghost use Rattle.dep_model.specs.Dependencies.{Dependency, Obeys, ObeysFd, ObeysMvd};
ghost use Rattle.dep_model.specs.Implication.{IsLegal};
ghost use Rattle.dep_model.specs.Projections.{project_tuple, IsLossless};
ghost use Rattle.dep_model.specs.OnSchemes.{value_in};
ghost use Rattle.dep_model.specs.Keys.{IsSuperkey, IsKey, IsGreedyKey};
ghost use Rattle.dep_model.specs.TwoTuples.{all_zeros, zeros_on};

/// The relation without a tuple, and each relation of one tuple, obey every dependency.
pub fn small_relations_obey()
    ensures none { (n : ℕ) (d : Dependency) → Obeys n d [] }
    ensures one { (n : ℕ) (d : Dependency) (t : Tuple) → Obeys n d (t ∷ []) }
{}

/// The rules of inference are sound over every relation (Armstrong 1974; Beeri, Fagin and Howard 1977).
/// A legal relation obeys each given dependency. Reflexivity: `y` within `x` gives `x -> y`, and
/// `x ->> y`. Augmentation: `x -> y` gives `xz -> yz`, and `x ->> y` gives `xw ->> yz` for `z` within
/// `w`. Transitivity: `x -> y` and `y -> z` give `x -> z`, and `x ->> y` and `y ->> z` give
/// `x ->> z - y`. Complementation: `x ->> y` gives `x ->>` the rest of the scheme. Replication:
/// `x -> y` gives `x ->> y`. Coalescence: `x ->> y` and `z -> w` give `x -> w` for `w` within `y` and
/// `z` apart from `y`.
pub fn rules_are_sound()
    ensures given { (n : ℕ) (ds : List Dependency) (r : Relation) (d : Dependency) → IsLegal n ds r
        → Contains ds d → Obeys n d r }
    ensures reflexivity { (x y : Attributes) (r : Relation) → IsSubset y x → ObeysFd x y r }
    ensures augmentation { (x y z : Attributes) (r : Relation) → ObeysFd x y r
        → ObeysFd (union x z) (union y z) r }
    ensures transitivity { (x y z : Attributes) (r : Relation) → ObeysFd x y r → ObeysFd y z r → ObeysFd x z r }
    ensures complementation { (scheme x y : Attributes) (r : Relation) → ObeysMvd scheme x y r
        → ObeysMvd scheme x (difference scheme (union x y)) r }
    ensures multivalued_reflexivity { (scheme x y : Attributes) (r : Relation) → IsSubset y x → ObeysMvd scheme x y r }
    ensures multivalued_augmentation { (scheme x y w z : Attributes) (r : Relation) → IsSubset z w → IsSubset w scheme
        → ObeysMvd scheme x y r
        → ObeysMvd scheme (union x w) (union y z) r }
    ensures multivalued_transitivity { (scheme x y z : Attributes) (r : Relation)
        → IsSubset x scheme → IsSubset z scheme
        → ObeysMvd scheme x y r → ObeysMvd scheme y z r
        → ObeysMvd scheme x (difference z y) r }
    ensures replication { (scheme x y : Attributes) (r : Relation) → ObeysFd x y r → ObeysMvd scheme x y r }
    ensures coalescence { (scheme x y z w : Attributes) (r : Relation) → IsSubset z scheme → IsSubset w y
        → Disjoint z y
        → ObeysMvd scheme x y r → ObeysFd z w r
        → ObeysFd x w r }
{}

/// The value of a tuple at an attribute of a scheme is found in its projection.
pub fn value_of_projection()
    ensures law { (scheme : Attributes) (t : Tuple) (k : ℕ) → scheme k ≡ true
        → value_in scheme (project_tuple scheme t) k ≡ value_at t k }
{}

/// The plan of the universe alone is lossless.
pub fn universe_is_lossless()
    ensures law { (n : ℕ) (ds : List Dependency) → IsLossless n ds (below n ∷ []) }
{}

/// A scheme is a superkey of itself, so the universe is; a set of a scheme's attributes that holds a
/// superkey is one. The greedy key of a scheme is a key.
pub fn superkeys_grow()
    ensures scheme { (n : ℕ) (ds : List Dependency) (scheme : Attributes) → IsSuperkey n ds scheme scheme }
    ensures grows { (n : ℕ) (ds : List Dependency) (scheme j k : Attributes) → IsSubset j k
        → IsSubset k scheme
        → IsSuperkey n ds scheme j
        → IsSuperkey n ds scheme k }
    ensures greedy { (n : ℕ) (ds : List Dependency) (scheme k : Attributes) → IsSubset scheme (below n)
        → IsGreedyKey n ds scheme k → IsKey n ds scheme k }
{}

/// The two tuples of a set agree exactly on it. Two tuples that agree exactly on `a` obey `x -> y`
/// exactly where `x` within `a` gives `y` within `a` (Sagiv, Delobel, Parker and Fagin 1981), and
/// `x ->> y` exactly where it gives `y` or the rest within `a`.
pub fn two_tuples_obey()
    ensures agree { (n : ℕ) (a : Attributes) → AgreeExactly n a (all_zeros n) (zeros_on n a) }
    ensures functional { (n : ℕ) (a x y : Attributes) (t u : Tuple) → AgreeExactly n a t u
        → IsSubset x (below n)
        → IsSubset y (below n)
        → ObeysFd x y (t ∷ u ∷ []) ↔ (IsSubset x a → IsSubset y a) }
    ensures multivalued { (n : ℕ) (a x y : Attributes) (t u : Tuple) → AgreeExactly n a t u
        → IsSubset x (below n)
        → IsSubset y (below n)
        → ObeysMvd (below n) x y (t ∷ u ∷ [])
        ↔ (IsSubset x a → IsSubset y a ⊎ IsSubset (difference (below n) (union x y)) a) }
{}
