//! Laws of diagnostics. Each is a function that does nothing, whose clause is the law.

ghost use Rattle.std.specs.Prelude.{◌≡◌, ◌≤◌, ℕ, [], List, All};
ghost use Rattle.attr_sets.specs.Attributes.{below};
ghost use Rattle.attr_sets.specs.declared.set.TheConstants.{MOST_ATTRIBUTES};
ghost use Rattle.dep_model.specs.Dependencies.{Dependency, functional_part, IsWithin};
ghost use Rattle.min_cover.specs.Covers.{IsMinimalCover, IsWholeCover};
ghost use Rattle.cover_accounts.specs.CoverDiagnostics.{IsCoverDiagnostic, AreCoverDiagnostics};
ghost use Rattle.cover_accounts.specs.declared.diagnostic.CoverDiagnostic.{CoverDiagnostic};
ghost use Rattle.cover_accounts.specs.declared.diagnostic.CoverForm.TheVariants.{Minimal};

/// A cover of `min_cover` has no diagnostic of a minimal cover: its functional part is a minimal cover, and
/// none of its multivalued dependencies follows from the rest.
pub fn covers_have_no_diagnostic()
    ensures law { (n : ℕ) (ds whole : List Dependency) (one : CoverDiagnostic)
        → IsMinimalCover n ds (functional_part whole) → IsWholeCover n ds whole
        → IsCoverDiagnostic Minimal n whole one → ⊥ }
{}
