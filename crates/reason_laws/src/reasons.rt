//! What is left of an explanation without its reasons. A function that does nothing, whose clauses are
//! the law.

ghost use Rattle.std.specs.Prelude.{All};
ghost use Rattle.schema_model.specs.Names.{IsName};
ghost use Rattle.schema_model.specs.Schemas.{names_of};
ghost use Rattle.schema_model.specs.Schemas.{Schema};
ghost use Rattle.dep_model.specs.declared.form.Form.{Form};
ghost use Rattle.desk_covers.specs.CoverReasons.{ExplainsCover};
ghost use Rattle.desk_covers.specs.Covering.{GivesCover};
ghost use Rattle.desk_designs.specs.Decompositions.{Splits};
ghost use Rattle.desk_designs.specs.FewestReasons.{ExplainsFewest};
ghost use Rattle.desk_designs.specs.FewestTables.{SynthesizesFewest};
ghost use Rattle.desk_designs.specs.Synthesis.{Synthesizes};
ghost use Rattle.desk_keys.specs.KeyReasons.{ExplainsKeys};
ghost use Rattle.desk_keys.specs.Keys.{ListsKeys};
ghost use Rattle.desk_designs.specs.SplitReasons.{ExplainsSplit};
ghost use Rattle.desk_designs.specs.SynthesisReasons.{ExplainsSynthesis};
ghost use Rattle.desk_responses.specs.ResponseValues.{ResponseValue};
ghost use Rattle.reason_laws.specs.ReasonLines.{LeavesAnswer};

/// Without the lines that begin with `# ` an explanation is what the command prints.
pub fn explanations_leave_the_answer()
    ensures cover { (schema : Schema) (response : ResponseValue) → All IsName (names_of schema)
        → ExplainsCover schema response → LeavesAnswer (GivesCover schema) response }
    ensures keys { (schema : Schema) (response : ResponseValue) → All IsName (names_of schema)
        → ExplainsKeys schema response → LeavesAnswer (ListsKeys schema) response }
    ensures synthesis { (schema : Schema) (response : ResponseValue) → All IsName (names_of schema)
        → ExplainsSynthesis schema response → LeavesAnswer (Synthesizes schema) response }
    ensures fewest { (schema : Schema) (response : ResponseValue) → All IsName (names_of schema)
        → ExplainsFewest schema response → LeavesAnswer (SynthesizesFewest schema) response }
    ensures split { (schema : Schema) (form : Form) (response : ResponseValue)
        → All IsName (names_of schema)
        → ExplainsSplit schema form response → LeavesAnswer (Splits schema form) response }
{}
