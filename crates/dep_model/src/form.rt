/// A normal form (Codd 1972, 1974; Fagin 1977).
#[derive(Clone, Copy, Debug, PartialEq, Eq)]
pub enum Form {
    /// Third normal form, by the functional dependencies alone.
    Third,
    /// Boyce-Codd normal form, by all dependencies.
    Bcnf,
    /// Fourth normal form, by all dependencies.
    Fourth,
}
