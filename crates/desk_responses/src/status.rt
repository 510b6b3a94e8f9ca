/// How a command ended. The program ends with the status's number.
#[derive(Clone, Copy, Debug, PartialEq, Eq, Hash)]
pub enum Status {
    /// 0: yes, or done.
    Yes,
    /// 1: no.
    No,
    /// 2: the words, a text or a limit was refused.
    Refused,
    /// 3: a file could not be read.
    CannotRead,
    /// 4: the text could not be written.
    CannotWrite,
    /// 5: a destination failed.
    DestinationFailed,
}
