//! Why a schedule does not run.

ghost use Rattle.std.specs.Prelude.{◌≡◌};
ghost use Rattle.phase_schedule.specs.declared.error.RunError.TheVariants.{Memory};

use std::alloc::AllocError;
use thiserror::Error;

/// Why a schedule does not run. All but want of memory are found before the first step. This project's own.
#[derive(Debug, Drop, Error)]
pub enum RunError {
    /// There are 2^20 parties or more. This is asked first.
    #[error("too many parties")]
    TooManyParties,
    /// The cell with this number is the first that belongs to a party and is not of the kind `Lazy` or `LockedLazy`, or
    /// whose party is none of the plan. This is asked next.
    #[error("bad plan at cell {cell}")]
    BadPlan { cell: u32 },
    /// The step with this number is the first that names an unknown party or cell, and its party is unknown.
    #[error("unknown party at step {step}")]
    UnknownParty { step: u32 },
    /// The step with this number is the first that names an unknown party or cell, and its cell is unknown.
    #[error("unknown cell at step {step}")]
    UnknownCell { step: u32 },
    /// Memory ran out.
    #[error("out of memory")]
    Memory,
}

impl From<AllocError> for RunError {
    ghost from_gives = { λ _ e. e ≡ Memory };

    fn from(_error: AllocError) -> RunError {
        RunError::Memory
    }
}
