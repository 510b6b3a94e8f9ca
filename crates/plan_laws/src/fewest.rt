//! The plan of `synthesize fewest` passes the commands that test plans, and has few schemes.

ghost use Rattle.std.specs.Prelude.{◌≤◌, ◌+◌, List, length};
ghost use Rattle.attr_sets.specs.declared.set.AttrSet.{AttrSet};
ghost use Rattle.dep_model.specs.Plans.{schemes_of};
ghost use Rattle.dep_model.specs.declared.form.Form.TheVariants as forms;
ghost use Rattle.which_form.specs.declared.forms.TestedForm.TheVariants as tested;
ghost use Rattle.schema_model.specs.Schemas.{Schema, width_of, theory_of};
ghost use Rattle.fewest_tables.specs.KeyedDesigns.{KeyedScheme, StatesDependencies};
ghost use Rattle.desk_designs.specs.FewestTables.{IsFewestTables};
ghost use Rattle.desk_designs.specs.Synthesis.{IsThirdFormPlan};
ghost use Rattle.plan_laws.specs.Passing.{PassesCheckForm, PassesCheckJoin, PassesCheckKeeps};

/// The plan of `synthesize fewest` passes `check form` of third and of second form, `check join` and
/// `check keeps`. It has no more schemes than that of `synthesize`; and at most one more, for a key, than any
/// design whose keys state the functional dependencies.
pub fn fewest_plans_pass_and_are_small()
    ensures third { (schema : Schema) (plan : List AttrSet) → IsFewestTables schema plan
        → PassesCheckForm schema (tested.Higher forms.Third) (schemes_of plan) }
    ensures second { (schema : Schema) (plan : List AttrSet) → IsFewestTables schema plan
        → PassesCheckForm schema tested.Second (schemes_of plan) }
    ensures join { (schema : Schema) (plan : List AttrSet) → IsFewestTables schema plan
        → PassesCheckJoin schema (schemes_of plan) }
    ensures keeps { (schema : Schema) (plan : List AttrSet) → IsFewestTables schema plan
        → PassesCheckKeeps schema (schemes_of plan) }
    ensures synthesis { (schema : Schema) (plan other : List AttrSet) → IsFewestTables schema plan
        → IsThirdFormPlan schema other → length plan ≤ length other }
    ensures designs { (schema : Schema) (plan : List AttrSet) (design : List KeyedScheme)
        → IsFewestTables schema plan
        → StatesDependencies (width_of schema) (theory_of schema) design
        → length plan ≤ length design + 1 }
{}
