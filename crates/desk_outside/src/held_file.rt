use arguments::Argument;

/// A file that is held in memory.
#[derive(Debug, Drop)]
pub struct HeldFile {
    /// Its name.
    pub name: Argument,
    /// All its bytes.
    pub bytes: Vec<u8>,
}
