//! Laws of the keys of rows. Each is a function that does nothing, whose clause is the law; so the gate asks for
//! its proof.

ghost use Rattle.std.specs.Prelude.{ℕ, ◌↔◌};
ghost use Rattle.attr_sets.specs.Attributes.{Attributes, below};
ghost use Rattle.dep_model.specs.Dependencies.{ObeysFd};
ghost use Rattle.dep_model.specs.Tuples.{Relation, IsOver};
ghost use Rattle.fd_search.specs.Keys.{Identifies};

/// No two different rows agree on a set exactly where they obey the dependency of it on all columns.
pub fn keys_determine_all()
    ensures law { (n : ℕ) (r : Relation) (x : Attributes) → IsOver n r
        → Identifies r x ↔ ObeysFd x (below n) r }
{}
