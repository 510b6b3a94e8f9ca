//! Laws of the lists that splitting reaches. Each is a function that does nothing, whose clause is
//! the law.

ghost use Rattle.std.specs.Prelude.{◌≡◌, ◌-◌, ◌^◌, ◌<◌, ◌≤◌, ℕ, List, length};
ghost use Rattle.attr_sets.specs.Attributes.{Attributes, count_below};
ghost use Rattle.attr_sets.specs.declared.set.TheConstants.{MOST_ATTRIBUTES};
ghost use Rattle.dep_model.specs.Dependencies.{Dependency};
ghost use Rattle.dep_model.specs.Projections.{IsLossless};
ghost use Rattle.fd_closure.specs.LeftSides.{left_sides};
ghost use Rattle.fd_closure.specs.declared.left_sides.TheConstants.{WIDEST_SEARCHED};
ghost use Rattle.dep_model.specs.declared.form.Form.{Form};
ghost use Rattle.split_forms.specs.Splitting.{IsNextList, ReachedList, FinishedList};
ghost use Rattle.split_forms.specs.Splitting.{IsTooWideAt, HasTooManySchemes};
ghost use Rattle.split_forms.specs.Steps.{AreSplitSteps, Cutting};

/// A reached list has one successor at most; there is one finished list at most, and one scheme at most
/// is stuck.
pub fn one_finished_list()
    ensures successor { (n : ℕ) (ds : List Dependency) (form : Form) (schemes a b : List Attributes)
        → 0 < n → (form ≡ Form.Third → ⊥)
        → ReachedList n ds form schemes → IsNextList n ds form schemes a
        → IsNextList n ds form schemes b → a ≡ b }
    ensures finished { (n : ℕ) (ds : List Dependency) (form : Form) (a b : List Attributes)
        → 0 < n → (form ≡ Form.Third → ⊥)
        → FinishedList n ds form a → FinishedList n ds form b → a ≡ b }
    ensures stuck { (n : ℕ) (ds : List Dependency) (form : Form) (limit : ℕ) (scheme other : Attributes)
        → 0 < n → (form ≡ Form.Third → ⊥)
        → IsTooWideAt n ds form limit scheme → IsTooWideAt n ds form limit other → scheme ≡ other }
{}

/// Where few attributes stand in left sides, no reached list is stuck; nor is one where there is a
/// finished list. No reached list is longer than the finished one, nor than a stuck one.
pub fn finished_lists_are_reached()
    ensures few_left_sides { (n : ℕ) (ds : List Dependency) (form : Form) (limit : ℕ) (scheme : Attributes)
        → count_below (left_sides ds) MOST_ATTRIBUTES ≤ WIDEST_SEARCHED
        → IsTooWideAt n ds form limit scheme → ⊥ }
    ensures never_stuck { (n : ℕ) (ds : List Dependency) (form : Form) (limit : ℕ)
        (schemes : List Attributes) (scheme : Attributes)
        → 0 < n → (form ≡ Form.Third → ⊥)
        → FinishedList n ds form schemes → IsTooWideAt n ds form limit scheme → ⊥ }
    ensures longest { (n : ℕ) (ds : List Dependency) (form : Form) (limit : ℕ)
        (schemes : List Attributes)
        → 0 < n → (form ≡ Form.Third → ⊥)
        → FinishedList n ds form schemes → length schemes ≤ limit → HasTooManySchemes n ds form limit → ⊥ }
    ensures stuck_longest { (n : ℕ) (ds : List Dependency) (form : Form) (limit : ℕ) (scheme : Attributes)
        → 0 < n → (form ≡ Form.Third → ⊥)
        → IsTooWideAt n ds form limit scheme → HasTooManySchemes n ds form limit → ⊥ }
{}

/// Each reached list is lossless, and over n attributes it has at most 2 to the power n - 1 schemes.
pub fn reached_lists_are_lossless()
    ensures lossless { (n : ℕ) (ds : List Dependency) (form : Form) (schemes : List Attributes)
        → 0 < n → (form ≡ Form.Third → ⊥)
        → ReachedList n ds form schemes → IsLossless n ds schemes }
    ensures short { (n : ℕ) (ds : List Dependency) (form : Form) (schemes : List Attributes)
        → 0 < n → (form ≡ Form.Third → ⊥)
        → ReachedList n ds form schemes → length schemes ≤ 2 ^ (n - 1) }
{}

/// The cuts lead to the finished list, and there is one account of a split.
pub fn one_account_of_a_split()
    ensures finished { (n : ℕ) (ds : List Dependency) (form : Form) (cuts : List Cutting)
        (schemes : List Attributes)
        → AreSplitSteps n ds form cuts schemes → FinishedList n ds form schemes }
    ensures cuts { (n : ℕ) (ds : List Dependency) (form : Form) (cuts others : List Cutting)
        (schemes rest : List Attributes)
        → 0 < n → (form ≡ Form.Third → ⊥)
        → AreSplitSteps n ds form cuts schemes → AreSplitSteps n ds form others rest → cuts ≡ others }
    ensures schemes { (n : ℕ) (ds : List Dependency) (form : Form) (cuts others : List Cutting)
        (schemes rest : List Attributes)
        → 0 < n → (form ≡ Form.Third → ⊥)
        → AreSplitSteps n ds form cuts schemes → AreSplitSteps n ds form others rest → schemes ≡ rest }
{}
