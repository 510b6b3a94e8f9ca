//! The plans that commands give pass the commands that test plans.

ghost use Rattle.std.specs.Prelude.{◌≡◌, ◌≤◌, List, All, Contains, length};
ghost use Rattle.attr_sets.specs.Attributes.{Attributes};
ghost use Rattle.attr_sets.specs.declared.set.AttrSet.{AttrSet};
ghost use Rattle.dep_model.specs.Dependencies.{mvd};
ghost use Rattle.dep_model.specs.Plans.{schemes_of};
ghost use Rattle.schema_model.specs.Schemas.{Schema, theory_of};
ghost use Rattle.fd_closure.specs.LeftSides.{IsWideScheme};
ghost use Rattle.dep_model.specs.declared.form.Form.{Form};
ghost use Rattle.dep_model.specs.declared.form.Form.TheVariants as forms;
ghost use Rattle.which_form.specs.declared.forms.TestedForm.TheVariants as tested;
ghost use Rattle.desk_responses.specs.declared.status.Status.TheVariants.{Yes};
ghost use Rattle.desk_responses.specs.ResponseValues.{ResponseValue, Says};
ghost use Rattle.desk_designs.specs.NormalForms.{JudgesForm, in_form_text};
ghost use Rattle.desk_designs.specs.declared.join.TheConstants.{MOST_TABLEAU_ROWS};
ghost use Rattle.desk_designs.specs.Decompositions.{IsPlanInForm, IsSplitInForm, IsWideSplit};
ghost use Rattle.desk_designs.specs.Joins.{IsTooLarge};
ghost use Rattle.desk_designs.specs.Synthesis.{IsThirdFormPlan};
ghost use Rattle.plan_laws.specs.Passing.{PassesCheckForm, PassesCheckJoin, PassesCheckKeeps};

/// The plan of a normal form, which `synthesize` and `split` print and other commands take, passes
/// `check form` of that form, and `check join`; that of third form passes `check form 2nf` and `check keeps`
/// too. A plan that `check form 3nf` says yes of is one that `check form 2nf` says yes of.
pub fn plans_in_form_pass()
    ensures form { (schema : Schema) (form : Form) (plan : List AttrSet) → IsPlanInForm schema form plan
        → PassesCheckForm schema (tested.Higher form) (schemes_of plan) }
    ensures join { (schema : Schema) (form : Form) (plan : List AttrSet) → IsPlanInForm schema form plan
        → PassesCheckJoin schema (schemes_of plan) }
    ensures second { (schema : Schema) (plan : List AttrSet) → IsThirdFormPlan schema plan
        → PassesCheckForm schema tested.Second (schemes_of plan) }
    ensures keeps { (schema : Schema) (plan : List AttrSet) → IsThirdFormPlan schema plan
        → PassesCheckKeeps schema (schemes_of plan) }
    ensures third_is_second { (schema : Schema) (plan : List Attributes) (third second : ResponseValue)
        → JudgesForm schema (tested.Higher forms.Third) plan third → third.status ≡ Yes
        → JudgesForm schema tested.Second plan second → Says Yes (in_form_text tested.Second) second }
{}

/// The plan of a split in Boyce-Codd or fourth form has no scheme of more attributes than are tested, so that
/// `check form` never refuses it; one in fourth form passes `check form bcnf` too. The plan of
/// `split wide-bcnf` passes `check form bcnf` and `check join`. Where no dependency is multivalued,
/// `check join` refuses no plan of at most as many schemes as a tableau may have rows; so it never refuses
/// the plan of `split wide-bcnf`.
pub fn split_plans_pass()
    ensures narrow { (schema : Schema) (form : Form) (plan : List AttrSet) → IsSplitInForm schema form plan
        → All (λ scheme. IsWideScheme (theory_of schema) scheme → ⊥) (schemes_of plan) }
    ensures fourth { (schema : Schema) (plan : List AttrSet) → IsSplitInForm schema forms.Fourth plan
        → PassesCheckForm schema (tested.Higher forms.Bcnf) (schemes_of plan) }
    ensures wide_form { (schema : Schema) (plan : List AttrSet) → IsWideSplit schema plan
        → PassesCheckForm schema (tested.Higher forms.Bcnf) (schemes_of plan) }
    ensures wide_join { (schema : Schema) (plan : List AttrSet) → IsWideSplit schema plan
        → PassesCheckJoin schema (schemes_of plan) }
    ensures small { (schema : Schema) (plan : List Attributes)
        → ((x y : Attributes) → Contains (theory_of schema) (mvd x y) → ⊥) → length plan ≤ MOST_TABLEAU_ROWS
        → IsTooLarge schema plan → ⊥ }
    ensures wide_small { (schema : Schema) (plan : List AttrSet)
        → ((x y : Attributes) → Contains (theory_of schema) (mvd x y) → ⊥) → IsWideSplit schema plan
        → IsTooLarge schema (schemes_of plan) → ⊥ }
{}
