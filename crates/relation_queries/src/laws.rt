ghost use Rattle.std.specs.Prelude.{◌≡◌, ◌<◌, ◌≤◌, ◌↔◌, ℕ, List, length, map, Contains, MatchOption, ⊤};
ghost use Rattle.attr_sets.specs.declared.set.TheConstants.{MOST_ATTRIBUTES};
ghost use Rattle.attr_sets.specs.Attributes.{Attributes, below, IsSubset};
ghost use Rattle.dep_model.specs.Tuples.{Tuple, Relation, AgreeOn, IsOver};
ghost use Rattle.dep_model.specs.Dependencies.{Dependency, IsWithin, Obeys};
ghost use Rattle.dep_model.specs.Implication.{IsLegal};
ghost use Rattle.dep_model.specs.Projections.{ordered_projection, Covers, IsLossless};
ghost use Rattle.relation_queries.specs.Queries.{TableQuery, StoredTable, attributes_of, breaches_of, values_on, plan_join, table_beyond_view, view_beyond_table};
ghost use Rattle.relation_queries.specs.Meanings.{Gives, IsUnionCompatible, IsGiven, GivesNone};

/// What a query gives of a tuple depends on the values of the query's own attributes alone, where the
/// two sides of each difference in it have the same ones. The queries of the rules and the differences
/// of a plan are of this kind.
pub fn queries_are_union_compatible()
    ensures own_values { (n : ℕ) (q : TableQuery) (r : Relation) (t u : Tuple) → IsUnionCompatible n q → length t
        ≡ n → length u ≡ n
        → AgreeOn (attributes_of n q) t u → Gives q r t → Gives q r u }
    ensures rules { (n : ℕ) (d : Dependency) → IsWithin (below n) d
        → MatchOption (breaches_of n d) ⊤ (λ q. IsUnionCompatible n q) }
    ensures plans { (n : ℕ) (name : List ℕ) (tables : List StoredTable)
        → ((table : StoredTable) → Contains tables table → IsSubset table.scheme (below n))
        → Covers n (map (λ table. table.scheme) tables)
        → IsUnionCompatible n (table_beyond_view name tables)
        × IsUnionCompatible n (view_beyond_table name tables) }
{}

/// The query of a dependency gives no tuple over a relation exactly where the relation obeys it, and
/// every relation obeys a dependency that has none. The values of a relation on a scheme are its
/// ordered projection. The join of the tables of a lossless plan gives the tuples of every legal
/// relation, and no others; so a legal relation lacks nothing of a view on that join, and the view
/// nothing of the relation.
pub fn queries_are_exact()
    ensures breaches { (n : ℕ) (d : Dependency) (r : Relation) → n ≤ MOST_ATTRIBUTES → IsWithin (below n) d
        → IsOver n r
        → MatchOption (breaches_of n d) (Obeys n d r) (λ q. GivesNone n q r ↔ Obeys n d r) }
    ensures projection { (n : ℕ) (scheme : Attributes) (r : Relation) (u : Tuple) → IsOver n r
        → IsGiven n (values_on scheme) r u ↔ Contains (ordered_projection scheme r) u }
    ensures join { (n : ℕ) (ds : List Dependency) (tables : List StoredTable) (r : Relation) → 0 < n
        → IsLossless n ds (map (λ table. table.scheme) tables) → IsLegal n ds r
        → (t : Tuple) → IsGiven n (plan_join tables) r t ↔ Contains r t }
    ensures differences { (n : ℕ) (ds : List Dependency) (name : List ℕ) (tables : List StoredTable) (r : Relation)
        → 0 < n → IsLossless n ds (map (λ table. table.scheme) tables) → IsLegal n ds r
        → GivesNone n (table_beyond_view name tables) r
        × GivesNone n (view_beyond_table name tables) r }
{}
