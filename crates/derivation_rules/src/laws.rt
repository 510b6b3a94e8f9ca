//! That the further rules are sound, on relations. Each law is a function that does nothing, whose clause
//! is the law; so the gate asks for its proof.

ghost use Rattle.std.specs.Prelude.{◌≡◌, Ok};
ghost use Rattle.dep_model.specs.Theories.{Theory};
ghost use Rattle.dep_model.specs.Dependencies.{Dependency};
ghost use Rattle.dep_model.specs.Theories.{ImpliedBy};
ghost use Rattle.derivation_rules.specs.FurtherRules.{Further};
ghost use Rattle.derivation_rules.specs.FurtherTable.{further_conclusion, decomposition_conclusion};

/// What a further rule concludes from two dependencies that a schema implies is implied too.
pub fn further_rules_are_sound()
    ensures law { (s : Theory) (rule : Further) (x y d : Dependency) → ImpliedBy s x → ImpliedBy s y
        → further_conclusion rule x y ≡ Ok d → ImpliedBy s d }
{}

/// And so is what decomposition concludes from one, whatever is stated.
pub fn decomposition_is_sound()
    ensures law { (s : Theory) (stated x d : Dependency) → ImpliedBy s x
        → decomposition_conclusion stated x ≡ Ok d → ImpliedBy s d }
{}
