use crate::bounds::LeftBound;
use arguments::Argument;
use dep_model::Form;
use which_form::TestedForm;

/// What is asked of a schema alone, with the words that go with it.
#[derive(Clone, Copy, Debug)]
pub enum SchemaQuestion<'a> {
    /// Whether it implies a goal.
    Implies { goal: &'a Argument },
    /// What says the same, shortened.
    Cover,
    /// What says the same, shortened, with one functional dependency for each left side.
    CoverCanonical,
    /// What a set of attributes determines, and its blocks.
    Basis { set: &'a Argument },
    /// How the closure of a set of attributes comes about.
    Closure { set: &'a Argument },
    /// The functional dependencies inside a set of attributes.
    Project { set: &'a Argument },
    /// All its keys.
    Keys,
    /// The normal form of the scheme of all its attributes.
    FormOfAll,
    /// Whether a set of attributes is a key.
    CheckKey { set: &'a Argument },
    /// A plan in third normal form.
    Synthesize,
    /// A plan in third normal form, of the fewest schemes.
    SynthesizeFewest,
    /// A plan in Boyce-Codd or fourth normal form.
    Split { form: Form },
    /// A plan in Boyce-Codd normal form, at any width.
    SplitWide,
    /// A relation that obeys just what it implies.
    Exhibit,
    /// Whether it implies a goal, with a short derivation.
    ExplainImplies { goal: &'a Argument },
    /// What says the same, shortened, and how that comes about.
    ExplainCover,
    /// All its keys, what they have in common, and what is in none of them.
    ExplainKeys,
    /// A plan in third normal form, and how it comes about.
    ExplainSynthesize,
    /// A plan in third normal form, of the fewest schemes, and how it comes about.
    ExplainFewest,
    /// A plan in Boyce-Codd or fourth normal form, and how it comes about.
    ExplainSplit { form: Form },
    /// SQL tables in a normal form.
    Ddl { form: Form },
    /// Queries for what breaks each rule in a table of this name.
    SqlCheck { name: &'a Argument },
    /// Queries for how far a table of this name is from legal.
    SqlMeasure { name: &'a Argument },
    /// Statements that make the tables of a normal form from a table of this name.
    SqlMigrate { form: Form, name: &'a Argument },
    /// A picture of the tables of a normal form.
    Draw { form: Form },
}

/// What is asked of a schema and a plan.
#[derive(Clone, Copy, Debug)]
pub enum PlanQuestion<'a> {
    /// Whether the plan loses nothing.
    CheckJoin,
    /// Whether its schemes are in a normal form.
    CheckForm { form: TestedForm },
    /// Whether it keeps the functional dependencies.
    CheckKeeps,
    /// The keys of its schemes.
    Keys,
    /// The normal forms of its schemes.
    Forms,
    /// Its SQL tables.
    Ddl,
    /// Statements that make its tables from a table of this name.
    SqlMigrate { name: &'a Argument },
    /// A picture of its tables.
    Draw,
}

/// What is asked of a schema and another.
#[derive(Clone, Copy, Debug)]
pub enum PairQuestion {
    /// Whether the two say the same.
    CheckSame,
    /// Whether the other is a minimal cover of it.
    CheckCover,
    /// Whether the other is a canonical cover of it.
    CheckCoverCanonical,
}

/// What is asked of a schema and rows.
#[derive(Clone, Copy, Debug)]
pub enum RowsQuestion {
    /// Whether they are legal.
    CheckRows,
    /// Which of them break a rule, by classes.
    Offences,
    /// Which of them break a rule, row by row.
    OffencesByRow,
    /// Those that break no rule.
    Kept,
}

/// Which rules are sought in the rows of a file.
#[derive(Clone, Copy, Debug)]
pub enum RulesQuestion {
    /// The minimal functional dependencies.
    Minimal,
    /// Those of few attributes on the left.
    Small { most: LeftBound },
    /// The minimal keys.
    Keys,
    /// Those that hold but for so many rows, of few attributes on the left.
    Near { limit: u32, most: LeftBound },
}

/// What is asked of a schema, with the files that are read after its own, in their order.
#[derive(Clone, Copy, Debug)]
pub enum Task<'a> {
    /// A question to it alone.
    OfSchema {
        question: SchemaQuestion<'a>,
    },
    /// A question to it and the plan of a file.
    OfPlan {
        plan: &'a Argument,
        question: PlanQuestion<'a>,
    },
    /// A question to it and the rows of a file.
    OfRows {
        file: &'a Argument,
        question: RowsQuestion,
    },
    /// How far the rows of a file are from legal, whatever their values are.
    Measure {
        file: &'a Argument,
    },
    /// The rows of a file, as tables in a normal form of it, in the first file.
    Migrate {
        schema: &'a Argument,
        file: &'a Argument,
        form: Form,
    },
    /// The rows of a file, as tables of the plan of another; it is in the first file.
    MigratePlan {
        schema: &'a Argument,
        plan: &'a Argument,
        file: &'a Argument,
    },
    /// The rows of a file, as tables in a normal form of it, in a folder of their own.
    MigrateInto {
        file: &'a Argument,
        form: Form,
        folder: &'a Argument,
    },
    /// The rows of a file, as tables of the plan of another, in a folder of their own.
    MigratePlanInto {
        plan: &'a Argument,
        file: &'a Argument,
        folder: &'a Argument,
    },
    /// Whether the certificate of a file proves a goal.
    CheckProof {
        file: &'a Argument,
        goal: &'a Argument,
    },
    /// Whether the derivation of a file ends with a goal.
    CheckDerivation {
        file: &'a Argument,
        goal: &'a Argument,
    },
    /// A question to it, in the first file, and the schema of a second file.
    OfPair {
        file: &'a Argument,
        other: &'a Argument,
        question: PairQuestion,
    },
    /// The natural join of the tables of files.
    Rejoin {
        files: &'a [Argument],
    },
    /// A page of what is said of it; it is in the first file.
    Report {
        file: &'a Argument,
    },
    /// A page of what is said of it, in the first file, and of the plan of a second file.
    ReportPlan {
        file: &'a Argument,
        plan: &'a Argument,
    },
}
