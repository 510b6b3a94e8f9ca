//! Laws of the steps of a cover. Each is a function that does nothing, whose clause is the law.

ghost use Rattle.std.specs.Prelude.{◌≡◌, ℕ, List};
ghost use Rattle.dep_model.specs.Dependencies.{Dependency};
ghost use Rattle.min_cover.specs.Covers.{IsFixedWholeCover};
ghost use Rattle.cover_accounts.specs.Steps.{AreCoverSteps, Placed, Shortened, without_positions};

/// What the steps leave is the fixed whole cover, and a list of dependencies has one account of how it
/// comes about.
pub fn one_account_of_a_cover()
    ensures cover { (n : ℕ) (ds : List Dependency) (members : List Shortened) (gone : List Placed)
        (steps : AreCoverSteps n ds members gone)
        → IsFixedWholeCover n ds (without_positions steps.whole) }
    ensures members { (n : ℕ) (ds : List Dependency) (members others : List Shortened)
        (gone rest : List Placed)
        → AreCoverSteps n ds members gone → AreCoverSteps n ds others rest → members ≡ others }
    ensures gone { (n : ℕ) (ds : List Dependency) (members others : List Shortened)
        (gone rest : List Placed)
        → AreCoverSteps n ds members gone → AreCoverSteps n ds others rest → gone ≡ rest }
{}
