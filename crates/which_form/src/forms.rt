use dep_model::Form;
use normal_forms::Breach;

/// A normal form that a scheme is tested for.
#[derive(Clone, Copy, Debug)]
pub enum TestedForm {
    /// Second normal form, by the functional dependencies alone (Codd 1971).
    Second,
    /// One of the forms into which a scheme can be decomposed.
    Higher { form: Form },
}

/// What violates each of the forms on a scheme; nothing where the scheme is in the form.
#[derive(Clone, Copy, Debug)]
pub struct SchemeForms {
    pub second: Option<Breach>,
    pub third: Option<Breach>,
    pub bcnf: Option<Breach>,
    pub fourth: Option<Breach>,
}
