//! Laws that there is one value at most of each kind that the answers print.

ghost use Rattle.std.specs.Prelude.{◌≡◌, ℕ, List};
ghost use Rattle.attr_sets.specs.Attributes.{Attributes, below, IsSubset};
ghost use Rattle.attr_sets.specs.Sets.{attributes};
ghost use Rattle.attr_sets.specs.declared.set.AttrSet.{AttrSet};
ghost use Rattle.dep_basis.specs.Bases.{IsBasis};
ghost use Rattle.dep_basis.specs.Decisions.{IsBrokenBy};
ghost use Rattle.dep_basis.specs.Traces.{blocks_of};
ghost use Rattle.dep_basis.specs.declared.gathering.Blocks.{Blocks};
ghost use Rattle.dep_model.specs.Dependencies.{Dependency};
ghost use Rattle.dep_model.specs.Keys.{IsGreedyKey};
ghost use Rattle.dep_model.specs.Plans.{schemes_of};
ghost use Rattle.dep_model.specs.Tuples.{Relation};
ghost use Rattle.schema_model.specs.Schemas.{Schema};
ghost use Rattle.fd_discovery.specs.Minimal.{AreAllMinimal};
ghost use Rattle.key_listing.specs.Listing.{AreAllKeys};
ghost use Rattle.canonical_cover.specs.Canonical.{IsFixedCanonicalCover};
ghost use Rattle.min_cover.specs.Covers.{IsFixedCover, IsFixedWholeCover};
ghost use Rattle.schema_match.specs.Differences.{AreDifferences};

/// There is one of each of these: the greedy key and the list of all keys of a scheme; the fixed cover, the fixed
/// whole cover and the fixed canonical cover of dependencies; the basis of a set; the set whose two tuples refute
/// a dependency; the differences of two schemas; and the minimal functional dependencies of rows.
pub fn notions_are_unique()
    ensures greedy_key { (n : ℕ) (ds : List Dependency) (scheme one other : Attributes) → IsSubset scheme (below n)
        → IsGreedyKey n ds scheme one → IsGreedyKey n ds scheme other → one ≡ other }
    ensures keys { (n : ℕ) (ds : List Dependency) (scheme : Attributes) (one other : List AttrSet)
        → AreAllKeys n ds scheme one → AreAllKeys n ds scheme other → schemes_of one ≡ schemes_of other }
    ensures cover { (n : ℕ) (ds one other : List Dependency)
        → IsFixedCover n ds one → IsFixedCover n ds other → one ≡ other }
    ensures whole_cover { (n : ℕ) (ds one other : List Dependency)
        → IsFixedWholeCover n ds one → IsFixedWholeCover n ds other → one ≡ other }
    ensures canonical_cover { (n : ℕ) (ds one other : List Dependency)
        → IsFixedCanonicalCover n ds one → IsFixedCanonicalCover n ds other → one ≡ other }
    ensures closed { (n : ℕ) (ds : List Dependency) (x : Attributes) (one other : Blocks)
        → IsBasis n ds x one → IsBasis n ds x other → attributes one.closed ≡ attributes other.closed }
    ensures blocks { (n : ℕ) (ds : List Dependency) (x : Attributes) (one other : Blocks)
        → IsBasis n ds x one → IsBasis n ds x other
        → schemes_of (blocks_of one) ≡ schemes_of (blocks_of other) }
    ensures refutation { (n : ℕ) (ds : List Dependency) (goal : Dependency) (one other : Attributes)
        → IsBrokenBy n ds goal one → IsBrokenBy n ds goal other → one ≡ other }
    ensures differences { (schema other : Schema) (first second : List ℕ)
        → AreDifferences schema other first → AreDifferences schema other second → first ≡ second }
    ensures rules { (n : ℕ) (rows : Relation) (one other : List Dependency)
        → AreAllMinimal n rows one → AreAllMinimal n rows other → one ≡ other }
{}
