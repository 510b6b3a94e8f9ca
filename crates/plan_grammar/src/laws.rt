//! The grammar, tied to the reader. Each is a function that does nothing, whose clause is the law.

ghost use Rattle.std.specs.Prelude.{◌≡◌, ◌≤◌, ℕ, List, [], length, map, Ok, Err};
ghost use Rattle.attr_sets.specs.Attributes.{Attributes};
ghost use Rattle.dep_model.specs.Plans.{IsPlan};
ghost use Rattle.schema_grammar.specs.Printed.{AreReadBack};
ghost use Rattle.plan_printer.specs.NamedPlans.{AreApart, NamedSchemes, no_tables, unnamed};
ghost use Rattle.plan_grammar.specs.Diagnostics.{RefusesTableLines, RefusesPlan};
ghost use Rattle.plan_grammar.specs.Meanings.{MeansTableLines, MeansPlan};
ghost use Rattle.plan_printer.specs.Printing.{plan_text};
ghost use Rattle.schema_printer.specs.Spelling.{spelling};
ghost use Rattle.plan_grammar.specs.Reading.{read_table_lines};
ghost use Rattle.plan_grammar.specs.declared.refusal.PlanRefusal.{PlanRefusal};

use plans::MOST_SCHEMES;
use schema_grammar::Format;
use schema_model::Naming;

/// Lines are read as the tables that they mean, or refused by their first diagnostic.
pub fn lines_are_read()
    ensures read { (naming : Naming) (names lines : List (List ℕ)) (plan : NamedSchemes)
        → read_table_lines naming names 1 no_tables lines ≡ Ok plan
        → MeansTableLines naming names [] lines plan × (length plan.schemes ≤ MOST_SCHEMES) }
    ensures refused { (naming : Naming) (names lines : List (List ℕ)) (refusal : PlanRefusal)
        → read_table_lines naming names 1 no_tables lines ≡ Err refusal
        → RefusesTableLines naming names 1 [] lines refusal }
{}

/// What is printed of a plan means its schemes, where its names are read again; no table has a name.
pub fn printed_plan_means()
    ensures law { (naming : Naming) (names : List (List ℕ)) (schemes : List Attributes)
        → AreReadBack Format.Plain naming names
        → IsPlan (length names) schemes → length schemes ≤ MOST_SCHEMES
        → MeansPlan naming names (plan_text (map (spelling naming) names) schemes) (unnamed schemes) }
{}

/// Of the names that a plan text gives no two are the same, the case of letters aside, and none is one by which a
/// script names a table or a view itself; beside each scheme stands one, or none.
pub fn names_are_apart()
    ensures differ { (naming : Naming) (names : List (List ℕ)) (text : List ℕ) (plan : NamedSchemes)
        → MeansPlan naming names text plan → AreApart plan.names }
    ensures beside { (naming : Naming) (names : List (List ℕ)) (text : List ℕ) (plan : NamedSchemes)
        → MeansPlan naming names text plan → length plan.names ≡ length plan.schemes }
{}

/// A plan text means one list of tables at most, or has one refusal at most, and never both.
pub fn plan_texts_have_one_answer()
    ensures one_meaning { (naming : Naming) (names : List (List ℕ)) (text : List ℕ) (one other : NamedSchemes)
        → MeansPlan naming names text one → MeansPlan naming names text other → one ≡ other }
    ensures one_refusal { (naming : Naming) (names : List (List ℕ)) (text : List ℕ) (e f : PlanRefusal)
        → RefusesPlan naming names text e → RefusesPlan naming names text f → e ≡ f }
    ensures never_both { (naming : Naming) (names : List (List ℕ)) (text : List ℕ) (plan : NamedSchemes)
        (e : PlanRefusal)
        → MeansPlan naming names text plan → RefusesPlan naming names text e → ⊥ }
{}
