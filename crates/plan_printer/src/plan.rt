use plans::Plan;
use schema_model::Name;

/// A plan with names of tables.
#[derive(Debug, Drop)]
pub struct NamedPlan {
    pub plan: Plan,
    /// For each scheme the name of its table, where one is given.
    pub names: Vec<Option<Name>>,
}
