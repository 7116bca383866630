//! How a call of the program ends.

ghost use Rattle.std.specs.Prelude.{◌≡◌};
ghost use Rattle.phase_run.specs.Statuses.{code_of};

/// How a call of the program ends, with the number that the process ends with.
#[derive(Clone, Copy, PartialEq, Eq, Debug)]
pub enum Status {
    /// The whole transcript was written.
    Done = 0,
    /// The words are neither none nor `schedule`. Nothing was read or written.
    Usage = 1,
    /// The input is not the text of a schedule that can be run. Nothing was written.
    BadLine = 2,
    /// The source failed. Nothing was written.
    ReadFault = 5,
    /// The sink failed. A part of the transcript was written, from its front.
    WriteFault = 6,
    /// Memory ran out. Nothing was written.
    Memory = 7,
}

impl Status {
    /// The number that the process ends with.
    pub fn code(self) -> u8
        ensures { result ≡ code_of self }
    {
        self as u8
    }
}
