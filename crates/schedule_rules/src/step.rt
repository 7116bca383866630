//! The steps of a schedule.

use lazy_cells::Call;

/// What a party does in one step. This project's own. A guard is named by the number of the step whose line answered it.
#[derive(Clone, Copy, PartialEq, Eq, Debug)]
pub enum Act {
    /// One attempt of a call at a cell.
    Call {
        cell: u32,
        call: Call,
    },
    /// One more attempt of the call that waits.
    Again,
    /// The generator of the party's innermost section made this value.
    Made {
        value: u64,
    },
    /// The generator of the party's innermost section failed.
    MadeFailed,
    /// The finalizer of the party's innermost section succeeded, and left this value, where the cell's kind is
    /// `PrimedLockedLazyDroped`. Any other finalizer leaves none.
    Finished {
        left: Option<u64>,
    },
    /// The finalizer of the party's innermost section failed, and left this value, as above. That of
    /// `LockedLazyDroped` drops the value, and can't fail.
    FinishFailed {
        left: Option<u64>,
    },
    /// The value that the holder of the guard sees.
    Look {
        guard: u32,
    },
    /// The holder of a write guard sets the value.
    Set {
        guard: u32,
        value: u64,
    },
    /// The guard is given back.
    Release {
        guard: u32,
    },
    /// The write guard is given back, and its holder reads on.
    Downgrade {
        guard: u32,
    },
    /// One more read guard, beside this one.
    Clone {
        guard: u32,
    },
    /// The value of a cell that is not in use is lent for this step, and `left` is what the party leaves there. Where the
    /// cell asks for a run, its generator runs first, and `made` is its outcome: a value, or none where it failed. Then
    /// nothing is lent, and nothing left.
    GetMut {
        cell: u32,
        made: Option<u64>,
        left: u64,
    },
    /// The same without a run: the value is lent where it is there.
    TryGetMut {
        cell: u32,
        left: u64,
    },
    /// One step of the exit: the turn of the next cell of the round, or, where none is left, a look for the cells that
    /// were registered since the last one.
    Exit,
}

/// What a step attempts at a cell. This project's own.
#[derive(Clone, Copy, PartialEq, Eq, Debug)]
pub enum Want {
    /// It calls so.
    Calls(Call),
    /// It is the turn of the cell in the exit: its finalizer runs, where the value is there.
    Turns,
}

/// One step of one party. This project's own.
#[derive(Clone, Copy, PartialEq, Eq, Debug)]
pub struct Step {
    /// The number of the party, below the plan's `parties` in a schedule that runs.
    pub party: u32,
    /// What it does.
    pub act: Act,
}
