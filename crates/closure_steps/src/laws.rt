//! Laws of the steps of a closure. Each is a function that does nothing, whose clause is the law.

ghost use Rattle.std.specs.Prelude.{◌≡◌, ℕ, ◌↔◌, true, List, All};
ghost use Rattle.attr_sets.specs.Attributes.{Attributes, below, IsSubset};
ghost use Rattle.dep_model.specs.Dependencies.{Dependency, fd, functional_part, IsWithin};
ghost use Rattle.dep_model.specs.Implication.{Implies};
ghost use Rattle.dep_model.specs.Keys.{InClosure};
ghost use Rattle.closure_steps.specs.Steps.{ClosureStepValue, reached, AreSteps, AreClosureSteps};

/// What is there after some steps follows from the set by the functional dependencies, and all steps
/// reach exactly what the set determines by them. A set is closed by one list of steps.
pub fn steps_reach_the_closure()
    ensures follows { (n : ℕ) (ds : List Dependency) (x : Attributes) (steps : List ClosureStepValue)
        → AreSteps ds x steps → Implies n (functional_part ds) (fd x (reached x steps)) }
    ensures reached { (n : ℕ) (ds : List Dependency) (x : Attributes) (steps : List ClosureStepValue) (a : ℕ)
        → All (IsWithin (below n)) ds → IsSubset x (below n) → AreClosureSteps ds x steps
        → (reached x steps a ≡ true) ↔ InClosure n (functional_part ds) x a }
    ensures unique { (ds : List Dependency) (x : Attributes) (steps others : List ClosureStepValue)
        → AreClosureSteps ds x steps → AreClosureSteps ds x others → steps ≡ others }
{}
