/// Which names a schema has, and so how they are printed.
#[derive(Clone, Copy, Debug, PartialEq, Eq, Hash)]
pub enum Naming {
    /// Bare names alone, printed as they are.
    Bare,
    /// Any names, printed between double quotes where they do not stand bare.
    Any,
}
