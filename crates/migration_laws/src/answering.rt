ghost use Rattle.std.specs.Prelude.{◌≡◌, ◌≤◌, ℕ, List, length};
ghost use Rattle.attr_sets.specs.Attributes.{Attributes};
ghost use Rattle.dep_model.specs.Plans.{IsPlan};
ghost use Rattle.dep_model.specs.declared.form.Form.{Form};
ghost use Rattle.schema_model.specs.Schemas.{Schema, width_of};
ghost use Rattle.table_names.specs.TableNames.{GivenNames};
ghost use Rattle.table_names.specs.declared.numbered.TheConstants.{MOST_TABLES};
ghost use Rattle.plan_printer.specs.NamedPlans.{AreApart};
ghost use Rattle.desk_responses.specs.ResponseValues.{ResponseValue};
ghost use Rattle.desk_responses.specs.declared.status.Status.TheVariants.{Yes};
ghost use Rattle.desk_scripts.specs.Scripts.{ScriptsMigration, ScriptsMigrationByPlan};
ghost use Rattle.migration_laws.specs.Printed.{EndsInFairEngines};

/// Whatever script `sql migrate` prints for a normal form ends without an error in each fair engine, and so
/// does whatever script it prints for a plan, whose names are apart.
pub fn printed_scripts_end()
    ensures form { (s : Schema) (form : Form) (name : List ℕ) (response : ResponseValue)
        → ScriptsMigration s form name response → response.status ≡ Yes → EndsInFairEngines s name response }
    ensures plan { (s : Schema) (names : GivenNames) (schemes : List Attributes) (name : List ℕ)
        (response : ResponseValue) → IsPlan (width_of s) schemes → length schemes ≤ MOST_TABLES → AreApart names
        → ScriptsMigrationByPlan s names schemes name response → response.status ≡ Yes
        → EndsInFairEngines s name response }
{}
