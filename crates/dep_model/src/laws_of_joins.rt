//! Laws of implication between lists, of projections and joins, and of plans.

ghost use Rattle.std.specs.Prelude.{◌≡◌, ℕ, List, ◌∷◌, ◌++◌, length, map, All, AllPairs, Any, Contains};
ghost use Rattle.attr_sets.specs.Attributes.{Attributes, union, difference, IsSubset, Disjoint};
ghost use Rattle.dep_model.specs.Tuples.{Tuple, Relation, IsOver, SameRelation};
ghost use Rattle.dep_model.specs.Dependencies.{Dependency, mvd, functional_part, left_of, right_of};
ghost use Rattle.dep_model.specs.Implication.{IsLegal, Implies};
ghost use Rattle.dep_model.specs.Projections.{members_below, project_tuple, projection, ordered_projection, projections, InJoin, IsLossless};
ghost use Rattle.dep_model.specs.OnSchemes.{value_in, ImpliedOn};
ghost use Rattle.dep_model.specs.Preservation.{KeepsDependencies};

/// Where a list implies each member of another, what is legal for the first is legal for the second.
pub fn legal_for_what_is_implied()
    ensures law { (n : ℕ) (ds es : List Dependency) (r : Relation) → All (Implies n ds) es
        → IsLegal n ds r → IsLegal n es r }
{}

/// A relation's tuples are in the join of its projections. The projection on a part of a scheme is the
/// projection of the projection. The ordered projection is the same relation as the projection, and has
/// no tuple twice.
pub fn joins_hold_projections()
    ensures join { (n : ℕ) (plan : List Attributes) (r : Relation) (t : Tuple) → IsOver n r
        → Contains r t
        → InJoin n plan (projections plan r) t }
    ensures part { (n : ℕ) (scheme part : Attributes) (t : Tuple) → IsSubset part scheme → length t ≡ n
        → map (λ k. value_in scheme (project_tuple scheme t) k) (members_below n part)
        ≡ project_tuple part t }
    ensures ordered { (scheme : Attributes) (r : Relation)
        → SameRelation (projection scheme r) (ordered_projection scheme r)
        × AllPairs (λ t u. t ≡ u → ⊥) (ordered_projection scheme r) }
{}

/// A plan stays lossless where a scheme is replaced by two: the sides of a multivalued dependency that
/// is implied on it, and the scheme without the right side (Fagin 1977); and where a scheme that lies
/// within another one, or equals it, is dropped. A plan in which each given functional dependency lies
/// within some scheme keeps the dependencies.
pub fn plans_stay_lossless()
    ensures split { (n : ℕ) (ds : List Dependency) (before after : List Attributes)
        (scheme x y : Attributes)
        → ImpliedOn n ds scheme (mvd x y) → Disjoint y x
        → IsLossless n ds (before ++ scheme ∷ after)
        → IsLossless n ds (before ++ union x y ∷ difference scheme y ∷ after) }
    ensures dropped { (n : ℕ) (ds : List Dependency) (before after : List Attributes)
        (scheme other : Attributes)
        → Contains (before ++ after) other → IsSubset scheme other
        → IsLossless n ds (before ++ scheme ∷ after) → IsLossless n ds (before ++ after) }
    ensures keeps { (n : ℕ) (ds : List Dependency) (plan : List Attributes)
        → All (λ d. Any (λ (scheme : Attributes). IsSubset (union (left_of d)
        (right_of d)) scheme) plan)
        (functional_part ds)
        → KeepsDependencies n ds plan }
{}
