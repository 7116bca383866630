//! The lines that steps are answered by.

use phase_bits::Phase;
use phase_locker::{Given, How};

/// Why a step is refused. A refused step changes nothing. This project's own; the numbers are those that a transcript
/// prints.
#[derive(Clone, Copy, PartialEq, Eq, Debug)]
pub enum Refusal {
    /// 1: the party waits, and the act is not `Again`.
    Waits,
    /// 2: the act is `Again`, and the party does not wait.
    NotWaiting,
    /// 3: a call on a cell that belongs to another party, also one that is to lend its value.
    NotOwner,
    /// 4: cells of this kind do not have the call, or do not lend their value.
    NoSuchCall,
    /// 5: no open guard of the party has this number, or a clone names a write guard.
    NoGuard,
    /// 6: a set or a downgrade on a read guard.
    NotWriter,
    /// 7: an outcome, and the party runs no section.
    NoSection,
    /// 8: the party's innermost section does not end so: a generator's outcome does not end a finalizer, nor a
    /// finalizer's a generator; a finalizer of `PrimedLockedLazyDroped` leaves a value, and no other does; that of
    /// `LockedLazyDroped` does not fail.
    NoOutcome,
    /// 9: a cell that is to lend its value is in use: a guard of it is open, a section of it runs, or a call waits at it.
    InUse,
    /// 10: an exit, and another party owns the exit, or registration is closed.
    ExitBegun,
    /// 11: an exit by a party that runs a section.
    Inside,
}

/// What a step answers. This project's own, where a case does not say otherwise.
#[derive(Clone, Copy, PartialEq, Eq, Debug)]
pub enum Answer {
    /// The published phase: of a call for it, of an `init`, or of a finalizer that ended.
    Phase(Phase),
    /// The value that the holder of a guard sees, that a call shows, or that is found where it is lent.
    Value(u64),
    /// A guard to read. It has the number of this step.
    ReadGuard,
    /// A guard to read the primed value of a cell whose own may not be accessed: static_init's guard in an `Err`. It has
    /// the number of this step.
    ErrGuard,
    /// A guard to write. It has the number of this step.
    WriteGuard,
    /// The party is now inside a section whose generator runs.
    Running,
    /// The party is now inside a section of this cell, whose finalizer runs.
    Finalizing(u32),
    /// The turn of this cell ended without a finalizer: its published phase lacks INITIALIZED.
    Skipped(u32),
    /// A look took so many cells, which were registered since the last one.
    Round(u32),
    /// A look found no cell, and registration is closed for good.
    Closed,
    /// A value was set, or a guard was given back.
    Done,
    /// The call was not barred, and at this phase, which is published, the value may not be accessed: the
    /// `AccessError` of static_init. Nothing is left open.
    Access(Phase),
    /// The generator that this step ended failed, or that ran in it.
    Failed,
    /// The party asked for a run of the generator that it is running, and nothing is left open. static_init panics or
    /// deadlocks there.
    Cyclic,
    /// A clone is barred, or a call on a cell of the party's own.
    Borrowed,
    /// A fast call is barred.
    Missed,
    /// The lock that the call wants is barred.
    Waiting(How),
    /// The step is refused.
    Refused(Refusal),
}

/// The line of a step. This project's own.
#[derive(Clone, Copy, PartialEq, Eq, Debug)]
pub struct Line {
    /// What the step answered.
    pub answer: Answer,
    /// What it gave to calls that are parked.
    pub given: Given,
}
