ghost use Rattle.std.specs.Prelude.{◌≡◌};
ghost use Rattle.schema_grammar.specs.DiagnosticKinds.{number_of};
ghost use Rattle.plan_grammar.specs.Refusals.{plan_diagnostic_kind};

use schema_grammar::SchemaRefusal;

/// Why a plan text is refused. It has no `Display`: an attribute is printed by its name in a schema.
#[derive(Clone, Copy, Debug, PartialEq, Eq, Hash)]
pub enum PlanRefusal {
    /// 1, 2, 3, 5 and 6, as of a schema text.
    Text(SchemaRefusal),
    /// 10: a scheme line without attributes.
    EmptyScheme { line: u32 },
    /// 11: the first attribute that is in no scheme.
    NotCovered { attribute: u8 },
    /// 12: one scheme more than a plan text holds.
    TooManySchemes { line: u32 },
}

impl PlanRefusal {
    /// The number by which the documents and the program name it.
    pub fn number(self) -> u32
        ensures number { result ≡ number_of (plan_diagnostic_kind self) }
    {
        match self {
            PlanRefusal::Text(refusal) => refusal.kind.number(),
            PlanRefusal::EmptyScheme { .. } => 10,
            PlanRefusal::NotCovered { .. } => 11,
            PlanRefusal::TooManySchemes { .. } => 12,
        }
    }
}
