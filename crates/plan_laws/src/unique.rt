//! What a schema and a plan determine is one: the plan in a form, its design, and the answers of
//! `synthesize`, `check form`, `check join` and `check keeps`.

ghost use Rattle.std.specs.Prelude.{◌≡◌, List};
ghost use Rattle.attr_sets.specs.Attributes.{Attributes};
ghost use Rattle.attr_sets.specs.declared.set.AttrSet.{AttrSet};
ghost use Rattle.dep_model.specs.Plans.{IsPlan, schemes_of};
ghost use Rattle.schema_model.specs.Schemas.{Schema, width_of};
ghost use Rattle.ddl_text.specs.declared.table.TableDesign.{TableDesign};
ghost use Rattle.dep_model.specs.declared.form.Form.{Form};
ghost use Rattle.dep_model.specs.declared.form.Form.TheVariants as forms;
ghost use Rattle.which_form.specs.declared.forms.TestedForm.{TestedForm};
ghost use Rattle.table_names.specs.TableNames.{GivenNames};
ghost use Rattle.desk_designs.specs.Decompositions.{IsPlanInForm, IsSplitInForm, IsWideSplit};
ghost use Rattle.desk_designs.specs.Designs.{IsSoundDesign};
ghost use Rattle.desk_designs.specs.Joins.{JudgesJoin};
ghost use Rattle.desk_designs.specs.Keeping.{JudgesKeeping};
ghost use Rattle.desk_designs.specs.NormalForms.{JudgesForm};
ghost use Rattle.desk_designs.specs.Synthesis.{Synthesizes};
ghost use Rattle.desk_responses.specs.ResponseValues.{ResponseValue};
ghost use Rattle.plan_laws.specs.SameDesigns.{AreSameTables};

/// A schema has one plan of `split` in a form, and one of `split wide-bcnf`; and one plan of third form, the
/// grouped one, so one plan in each form. A plan with names has one design: any two have the same names,
/// columns, keys, other keys and references, table by table.
pub fn plans_are_unique()
    ensures split { (schema : Schema) (form : Form) (plan other : List AttrSet) → (form ≡ forms.Third → ⊥)
        → IsSplitInForm schema form plan → IsSplitInForm schema form other → schemes_of plan ≡ schemes_of other }
    ensures split_wide { (schema : Schema) (plan other : List AttrSet) → IsWideSplit schema plan
        → IsWideSplit schema other → schemes_of plan ≡ schemes_of other }
    ensures in_form { (schema : Schema) (form : Form) (plan other : List AttrSet) → IsPlanInForm schema form plan
        → IsPlanInForm schema form other → schemes_of plan ≡ schemes_of other }
    ensures design { (schema : Schema) (names : GivenNames) (plan others : List AttrSet) (one other : List TableDesign)
        → schemes_of plan ≡ schemes_of others → IsSoundDesign schema names plan one
        → IsSoundDesign schema names others other → AreSameTables one other }
{}

/// `synthesize` has one answer to a schema, and `check form`, `check join` and `check keeps` have one to a schema
/// and a plan; so the losses of a plan are one list, each with one pair of tuples.
pub fn checks_have_one_answer()
    ensures synthesize { (schema : Schema) (one other : ResponseValue) → Synthesizes schema one
        → Synthesizes schema other → one ≡ other }
    ensures form { (schema : Schema) (form : TestedForm) (plan : List Attributes) (one other : ResponseValue)
        → IsPlan (width_of schema) plan → JudgesForm schema form plan one → JudgesForm schema form plan other
        → one ≡ other }
    ensures join { (schema : Schema) (plan : List Attributes) (one other : ResponseValue)
        → JudgesJoin schema plan one → JudgesJoin schema plan other → one ≡ other }
    ensures keeps { (schema : Schema) (plan : List Attributes) (one other : ResponseValue)
        → JudgesKeeping schema plan one → JudgesKeeping schema plan other → one ≡ other }
{}
