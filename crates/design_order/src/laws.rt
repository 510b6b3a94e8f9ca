//! Laws of the order of a design. Each is a function that does nothing, whose clause is the law.

ghost use Rattle.std.specs.Prelude.{◌≡◌, ◌↔◌, ℕ, List, Option, AllPairs, Contains};
ghost use Rattle.attr_sets.specs.Attributes.{Attributes};
ghost use Rattle.dep_model.specs.Dependencies.{Dependency};
ghost use Rattle.dep_model.specs.Projections.{IsLossless};
ghost use Rattle.design_order.specs.Order.{AreNamesInOrder, DeterminesNoMore, IsInDesignOrder};

/// A plan has one order at most, and so have the names of its tables.
pub fn one_design_order()
    ensures law { (n : ℕ) (ds : List Dependency) (plan a b : List Attributes)
        → IsInDesignOrder n ds plan a → IsInDesignOrder n ds plan b → a ≡ b }
    ensures names { (n : ℕ) (ds : List Dependency) (plan : List Attributes) (names a b : List (Option (List ℕ)))
        → AreNamesInOrder n ds plan names a → AreNamesInOrder n ds plan names b → a ≡ b }
{}

/// The order has the schemes of the plan, and no scheme determines more attributes than a later one.
/// That of a lossless plan is lossless, whatever dependencies the relations obey.
pub fn design_order_keeps_the_plan()
    ensures same { (n : ℕ) (ds : List Dependency) (plan ordered : List Attributes)
        → IsInDesignOrder n ds plan ordered
        → (scheme : Attributes) → Contains ordered scheme ↔ Contains plan scheme }
    ensures ascending { (n : ℕ) (ds : List Dependency) (plan ordered : List Attributes)
        → IsInDesignOrder n ds plan ordered → AllPairs (DeterminesNoMore n ds) ordered }
    ensures lossless { (n : ℕ) (ds es : List Dependency) (plan ordered : List Attributes)
        → IsInDesignOrder n ds plan ordered → IsLossless n es plan → IsLossless n es ordered }
{}
