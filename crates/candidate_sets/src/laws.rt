ghost use Rattle.std.specs.Prelude.{◌≡◌, ◌≢◌, ℕ, ◌<◌, ◌≤◌, ◌↔◌, true, false, List, [], ◌∷◌, length, All, AllPairs};
ghost use Rattle.std.specs.Prelude.{Contains};
ghost use Rattle.attr_sets.specs.Attributes.{Attributes, below, none, only, IsSubset, count_below};
ghost use Rattle.dep_model.specs.Dependencies.{ObeysFd};
ghost use Rattle.dep_model.specs.Tuples.{Tuple, Relation, IsOver, AgreeOn, value_at};
ghost use Rattle.fd_discovery.specs.Minimal.{IsMinimalWithin};
ghost use Rattle.candidate_sets.specs.Evidence.{AreEvidence, IsEvidence, agreement, room};
ghost use Rattle.candidate_sets.specs.Standing.{AreCandidates, HasMoreCandidates, IsCandidate, Stands};
ghost use Rattle.candidate_sets.specs.declared.refusal.TheConstants.{MOST_CANDIDATES};
ghost use Rattle.candidate_sets.specs.Steps.{IsGrown, IsHit, IsCandidateStep};

/// What rows obey stands against all evidence of theirs, and a set that stands holds a candidate. Where
/// the rows obey all candidates, these are exactly the minimal dependencies of so many attributes. Two
/// rows that do not obey a candidate agree on a set that holds it, lacks the right side, and is new.
pub fn candidates_are_minimal_dependencies()
    ensures obeyed { (n : ℕ) (r : Relation) (es : List Attributes) (x : Attributes) (a : ℕ) → a < n
        → AreEvidence n r es → ObeysFd x (only a) r → Stands es a x }
    ensures standing { (n most : ℕ) (es : List Attributes) (x : Attributes) (a : ℕ)
        → IsSubset x (below n) → x a ≡ false → count_below x n ≤ most → Stands es a x
        → (y : Attributes) × IsSubset y x × IsCandidate n most es a y }
    ensures minimal { (n most : ℕ) (r : Relation) (es : List Attributes) (a : ℕ) (xs : List Attributes)
        → a < n → AreEvidence n r es → AreCandidates n most es a xs
        → All (λ x. ObeysFd x (only a) r) xs
        → (x : Attributes) → Contains xs x ↔ (IsMinimalWithin n r x a × (count_below x n ≤ most)) }
    ensures unobeyed { (n most : ℕ) (r : Relation) (es : List Attributes) (a : ℕ) (x : Attributes)
        (t u : Tuple) → a < n → IsOver n r → Contains r t → Contains r u
        → IsCandidate n most es a x → AgreeOn x t u → (value_at t a ≡ value_at u a → ⊥)
        → IsEvidence n r (agreement n t u) × (agreement n t u a ≡ false)
        × IsSubset x (agreement n t u) × (Contains es (agreement n t u) → ⊥) }
{}

/// Without evidence the empty set is the one candidate. Evidence with the right side leaves the
/// candidates as they are; after evidence without it the kept sets and the new ones are the candidates.
/// Where one grown set holds another, they are one, grown from one set by one column: so each arises
/// once, and only kept sets can be within a grown one. With each new evidence the room that is left for
/// more falls.
pub fn evidence_steps_to_candidates()
    ensures first { (n most a : ℕ) → AreCandidates n most [] a (none ∷ []) }
    ensures unchanged { (n most : ℕ) (es : List Attributes) (a : ℕ) (e : Attributes)
        (xs : List Attributes)
        → e a ≡ true → AreCandidates n most es a xs → AreCandidates n most (e ∷ es) a xs }
    ensures step { (n most : ℕ) (es : List Attributes) (a : ℕ) (e : Attributes)
        (xs ys : List Attributes)
        → e a ≡ false → AreCandidates n most es a xs → IsCandidateStep n most a e xs ys
        → AreCandidates n most (e ∷ es) a ys }
    ensures once { (n most : ℕ) (es : List Attributes) (a : ℕ) (e : Attributes)
        (xs : List Attributes)
        (hit other : Attributes) (b c : ℕ) (y z : Attributes) → AreCandidates n most es a xs
        → IsHit xs e hit → IsHit xs e other → IsGrown n a e hit b y → IsGrown n a e other c z
        → IsSubset y z → (hit ≡ other) × (b ≡ c) }
    ensures room { (n : ℕ) (r : Relation) (es : List Attributes) (e : Attributes)
        → AreEvidence n r (e ∷ es) → AllPairs (λ x y. x ≢ y) (e ∷ es)
        → room n (e ∷ es) < room n es }
{}

/// Where exactly the candidates are listed, there are no more of them than the list has. Of at most 20
/// columns no evidence has too many candidates: no two minimal sets differ in one column alone, so
/// there are at most as many as sets of 19 columns, which are 524,288.
pub fn candidates_are_within_the_limit()
    ensures listed { (n most : ℕ) (es : List Attributes) (a m : ℕ) (xs : List Attributes)
        → AreCandidates n most es a xs → HasMoreCandidates n most es a m → m < length xs }
    ensures few_columns { (n most : ℕ) (es : List Attributes) (a : ℕ) → n ≤ 20
        → HasMoreCandidates n most es a MOST_CANDIDATES → ⊥ }
{}
