//! Laws of second form and of the forms together. Each is a function that does nothing, whose clause is the
//! law.

ghost use Rattle.std.specs.Prelude.{◌≡◌, ℕ, List, Option};
ghost use Rattle.attr_sets.specs.Attributes.{Attributes, below, IsSubset};
ghost use Rattle.dep_model.specs.Dependencies.{Dependency};
ghost use Rattle.dep_model.specs.Forms.{IsThird};
ghost use Rattle.which_form.specs.SecondForm.{IsSecond};
ghost use Rattle.which_form.specs.Tested.{IsInTested, IsNamedViolation};
ghost use Rattle.which_form.specs.Verdicts.{IsLastForm};
ghost use Rattle.which_form.specs.declared.forms.TestedForm.{TestedForm};

/// Third normal form gives second (Codd 1972).
pub fn third_gives_second()
    ensures law { (n : ℕ) (ds : List Dependency) (scheme : Attributes) → IsThird n ds scheme
        → IsSecond n ds scheme }
{}

/// A scheme on which a violation of a form is named is not in the form. A scheme has one named
/// violation of a form at most, and one last form.
pub fn one_named_violation()
    ensures not_in_form { (n : ℕ) (ds : List Dependency) (form : TestedForm) (scheme x y : Attributes)
        → IsSubset scheme (below n)
        → IsNamedViolation n ds form scheme x y → IsInTested n ds form scheme → ⊥ }
    ensures violation { (n : ℕ) (ds : List Dependency) (form : TestedForm) (scheme x y v w : Attributes)
        → IsSubset scheme (below n)
        → IsNamedViolation n ds form scheme x y → IsNamedViolation n ds form scheme v w
        → (x ≡ v) × (y ≡ w) }
    ensures last_form { (n : ℕ) (ds : List Dependency) (scheme : Attributes) (one other : Option TestedForm)
        → IsLastForm n ds scheme one → IsLastForm n ds scheme other → one ≡ other }
{}
