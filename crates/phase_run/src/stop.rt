//! Why nothing is written.

/// Why there is no answer to write.
#[derive(Clone, Copy, PartialEq, Eq, Debug)]
pub enum Stop {
    /// The source failed.
    Fault,
    /// There are more bytes than a text may have.
    TooLong,
    /// The text is not that of a schedule.
    BadLine,
    /// The schedule cannot be run.
    Refused,
    /// Memory ran out.
    Memory,
}
