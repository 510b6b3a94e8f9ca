//! Laws of violations. Each is a function that does nothing, whose clause is the law.

ghost use Rattle.std.specs.Prelude.{◌≡◌, ℕ, List};
ghost use Rattle.attr_sets.specs.Attributes.{Attributes, below, IsSubset};
ghost use Rattle.dep_model.specs.Dependencies.{Dependency};
ghost use Rattle.dep_model.specs.declared.form.Form.{Form};
ghost use Rattle.normal_forms.specs.Violations.{Violates};
ghost use Rattle.normal_forms.specs.Chosen.{IsInForm, IsChosenViolation, IsVisibleViolation};
ghost use Rattle.normal_forms.specs.Cuts.{IsCut};

/// A scheme on which a form is violated is not in the form. The sides of a violation of Boyce-Codd or
/// fourth form part the scheme; so it can be replaced by two smaller schemes without loss
/// (`dep_model::laws_of_joins::plans_stay_lossless`).
pub fn violated_is_not_in_form()
    ensures not_in_form { (n : ℕ) (ds : List Dependency) (form : Form) (scheme x y : Attributes)
        → IsSubset scheme (below n)
        → Violates n ds form scheme x y → IsInForm n ds form scheme → ⊥ }
    ensures parts { (n : ℕ) (ds : List Dependency) (form : Form) (scheme x y : Attributes)
        → IsSubset scheme (below n)
        → (form ≡ Form.Third → ⊥) → Violates n ds form scheme x y → IsCut n ds scheme x y }
{}

/// A scheme has one chosen violation and one visible violation at most. No proper part of the left side
/// of the chosen one violates the form.
pub fn one_violation()
    ensures chosen { (n : ℕ) (ds : List Dependency) (form : Form) (scheme x y v w : Attributes)
        → IsSubset scheme (below n)
        → IsChosenViolation n ds form scheme x y → IsChosenViolation n ds form scheme v w
        → (x ≡ v) × (y ≡ w) }
    ensures visible { (n : ℕ) (ds : List Dependency) (form : Form) (scheme x y v w : Attributes)
        → IsSubset scheme (below n)
        → IsVisibleViolation n ds form scheme x y → IsVisibleViolation n ds form scheme v w
        → (x ≡ v) × (y ≡ w) }
    ensures minimal { (n : ℕ) (ds : List Dependency) (form : Form) (scheme x y v w : Attributes)
        → IsSubset scheme (below n)
        → IsChosenViolation n ds form scheme x y → IsSubset v x → (IsSubset x v → ⊥)
        → Violates n ds form scheme v w → ⊥ }
{}
