//! Laws of what is said of rows that break a dependency.

ghost use Rattle.std.specs.Prelude.{◌≡◌, ◌+◌, ◌<◌, ◌↔◌, ℕ, Bool, true, false, List, length, Contains, All};
ghost use Rattle.attr_sets.specs.Attributes.{Attributes, IsSubset, below};
ghost use Rattle.dep_model.specs.Dependencies.{Dependency, fd, is_fd, mvd};
ghost use Rattle.dep_model.specs.Implication.{IsLegal};
ghost use Rattle.dep_model.specs.Tuples.{IsOver, Relation, Tuple};
ghost use Rattle.legality.specs.Parts.{flag_at};
ghost use Rattle.removal_laws.specs.Removals.{IsLeastChange, IsLeastRemoval, Positions, rows_at};
ghost use Rattle.row_measures.specs.Answers.{AreBrokenParts, AreBrokenRows, AreKeptFlags, IsMeasure};
ghost use Rattle.row_measures.specs.Laws.{AreMissing, IsRemoved};
ghost use Rattle.row_measures.specs.declared.breach.BrokenPart.{BrokenPart};
ghost use Rattle.row_measures.specs.declared.breach.BrokenRow.{BrokenRow};
ghost use Rattle.row_measures.specs.declared.breach.Measure.{Measure};

/// Rows have one measure against a dependency, one list of broken groups and classes, one list of rows
/// in broken groups, and one list of flags of those that are kept.
pub fn one_measure()
    ensures measure { (n : ℕ) (r : Relation) (d : Dependency) (one other : Measure)
        → IsMeasure n r d one → IsMeasure n r d other → one ≡ other }
    ensures parts { (n : ℕ) (r : Relation) (d : Dependency) (one other : List BrokenPart)
        → AreBrokenParts n r d one → AreBrokenParts n r d other → one ≡ other }
    ensures rows { (n : ℕ) (r : Relation) (d : Dependency) (one other : List BrokenRow)
        → AreBrokenRows n r d one → AreBrokenRows n r d other → one ≡ other }
    ensures kept { (ds : List Dependency) (r : Relation) (one other : List Bool)
        → AreKeptFlags ds r one → AreKeptFlags ds r other → one ≡ other }
{}

/// What the measure of a functional dependency counts is a least removal, and no fewer rows can change
/// outside the left side. What the measure of a multivalued dependency counts are the tuples that are
/// missing, each once. The rows that are marked as removed are a least removal, and those that no
/// functional dependency removes obey all of them.
pub fn measures_are_least()
    ensures functional { (n : ℕ) (x y : Attributes) (r : Relation) (m : Measure) → IsOver n r
        → IsMeasure n r (fd x y) m
        → (stays : Positions) × IsLeastRemoval n (fd x y) r stays × IsLeastChange n x y r stays
        × (m.amount + length (rows_at stays r) ≡ length r) }
    ensures multivalued { (n : ℕ) (x y : Attributes) (r : Relation) (m : Measure) → IsSubset x (below n)
        → IsSubset y (below n) → IsOver n r → IsMeasure n r (mvd x y) m
        → (ts : List Tuple) × AreMissing n x y r ts × (length ts ≡ m.amount) }
    ensures removed { (n : ℕ) (x y : Attributes) (r : Relation) (rows : List BrokenRow)
        → AreBrokenRows n r (fd x y) rows
        → (stays : Positions) × IsLeastRemoval n (fd x y) r stays
        × ((i : ℕ) → i < length r → (stays i ≡ false) ↔ IsRemoved rows i) }
    ensures legal { (n : ℕ) (ds : List Dependency) (r : Relation) (kept : List Bool) → IsOver n r
        → AreKeptFlags ds r kept → All (λ d. is_fd d ≡ true) ds → IsLegal n ds (rows_at (flag_at kept) r) }
{}
