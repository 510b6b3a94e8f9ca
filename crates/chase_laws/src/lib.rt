//! The chase of a plan (Aho, Beeri and Ullman 1979; Maier, Mendelzon and Sagiv 1979): tableaux,
//! steps and rounds, and the laws on which the code of `tableau_chase` stands. No code.
//!
//! Each law is a function that does nothing, whose clause is the law; so the gate asks for its
//! proof.
//!
//! Promises: both halves of the chase's answer; what a tableau closes functionally to is unique; a
//! plan has one closed tableau at most.
#![tactic(auto)]

ghost use Rattle.std.specs.Prelude.{◌≡◌, ◌<◌, ◌≤◌, ◌^◌, ℕ, List, length, Contains};
ghost use Rattle.attr_sets.specs.Attributes.{Attributes};
ghost use Rattle.dep_model.specs.Dependencies.{Dependency, mvd};
ghost use Rattle.dep_model.specs.Tuples.{Relation};
ghost use Rattle.dep_model.specs.Projections.{Covers, IsLossless};
ghost use Rattle.chase_laws.specs.Tableaux.{Tableau, SameTableau, IsTableauOver, distinguished_row};
ghost use Rattle.chase_laws.specs.Steps.{IsClosed};
ghost use Rattle.chase_laws.specs.Rounds.{ReachesTableau, ClosesFunctionallyTo, EndsRounds, InRounds, RoundsExceed};
ghost use Rattle.chase_laws.specs.Answers.{texts_of, IsGaining, IsClosedTableau};

/// What a tableau closes functionally to does not depend on the order of the steps, each round has one
/// tableau, and the closed tableau that is reached does not depend on the order of the steps. So a plan
/// has one closed tableau at most, as texts.
pub fn chase_is_unique()
    ensures functional { (n : ℕ) (ds : List Dependency) (t s u : Tableau) → IsTableauOver n t
        → ClosesFunctionallyTo ds t s
        → ClosesFunctionallyTo ds t u → SameTableau s u }
    ensures round { (n : ℕ) (ds : List Dependency) (plan : List Attributes) (round : ℕ) (t s : Tableau)
        → InRounds n ds plan round t → InRounds n ds plan round s → SameTableau t s }
    ensures closed { (n : ℕ) (ds : List Dependency) (plan : List Attributes) (t s : Tableau)
        → ReachesTableau n ds plan t → IsClosed n ds t → ReachesTableau n ds plan s → IsClosed n ds s
        → SameTableau t s }
    ensures texts { (n : ℕ) (ds : List Dependency) (plan : List Attributes) (limit : ℕ) (r s : Relation)
        → IsClosedTableau n ds plan limit r → IsClosedTableau n ds plan limit s → r ≡ s }
{}

/// No round comes after one whose tableau closes functionally to one that ends the rounds. Where no
/// dependency is multivalued, no tableau of the rounds has more rows than the plan has schemes.
pub fn rounds_come_to_an_end()
    ensures last { (n : ℕ) (ds : List Dependency) (plan : List Attributes) (round : ℕ) (t s : Tableau)
        → InRounds n ds plan round t → ClosesFunctionallyTo ds t s → EndsRounds n ds s
        → (later : ℕ) (u : Tableau) → InRounds n ds plan later u → later ≤ round }
    ensures small { (n : ℕ) (ds : List Dependency) (plan : List Attributes) (limit : ℕ)
        → ((x y : Attributes) → Contains ds (mvd x y) → ⊥) → length plan ≤ limit
        → RoundsExceed n ds plan limit → ⊥ }
{}

/// A plan from whose tableau the row of distinguished symbols is reached is lossless. A closed tableau
/// that is reached and lacks this row is, as texts, a legal relation that gains a tuple, and a plan for
/// which one gains a tuple is not lossless.
pub fn closed_tableaux_decide()
    ensures lossless { (n : ℕ) (ds : List Dependency) (plan : List Attributes) (s : Tableau) → Covers n plan
        → ReachesTableau n ds plan s → Contains s (distinguished_row n) → IsLossless n ds plan }
    ensures gains { (n : ℕ) (ds : List Dependency) (plan : List Attributes) (s : Tableau)
        → length plan < 2 ^ 32 → ReachesTableau n ds plan s → IsClosed n ds s
        → (Contains s (distinguished_row n) → ⊥) → IsGaining n ds plan (texts_of s) }
    ensures lossy { (n : ℕ) (ds : List Dependency) (plan : List Attributes) (s : Tableau)
        → IsGaining n ds plan (texts_of s) → IsLossless n ds plan → ⊥ }
{}
