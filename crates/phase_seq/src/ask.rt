//! What a call asks of a cell. This project's own: static_init has a function for each call, and hands it closures.

ghost use Rattle.std.specs.Prelude.{◌≡◌, ◌≢◌};
ghost use Rattle.phase_seq.specs.Asks.{initializes, finalizes, nature_of, wake_of, asks_run};

use crate::tolerance::{Tolerance, shall_init};
use phase_bits::Phase;
use phase_locker::LockNature;

/// What a call wants of a cell.
#[derive(Clone, Copy, PartialEq, Eq, Debug)]
pub enum Want {
    /// That the cell is initialized, and no lock.
    Init,
    /// To read, and that the cell is initialized before.
    Read,
    /// To write, and that the cell is initialized before.
    Write,
    /// To read the cell as it is.
    ReadOnly,
    /// To write the cell as it is.
    WriteOnly,
    /// To finalize the cell's value, where it is there; else no lock.
    Finalize,
}

/// What a call asks.
#[derive(Clone, Copy, PartialEq, Eq, Debug)]
pub struct Ask {
    /// What it wants.
    pub want: Want,
    /// It does not wait: where it is barred it gets nothing.
    pub fast: bool,
    /// What the cell puts up with.
    pub tol: Tolerance,
}

impl Want {
    /// Whether a call with this want asks for a run where one is due.
    pub(crate) fn initializes(self) -> bool
        ensures { result ≡ initializes self }
    {
        match self {
            Want::Init | Want::Read | Want::Write => true,
            Want::ReadOnly | Want::WriteOnly | Want::Finalize => false,
        }
    }

    /// Whether a call with this want finalizes.
    pub(crate) fn finalizes(self) -> bool
        ensures { result ≡ finalizes self }
    {
        match self {
            Want::Finalize => true,
            Want::Init | Want::Read | Want::Write | Want::ReadOnly | Want::WriteOnly => false,
        }
    }

    /// By which nature a call with this want is woken where it parks.
    pub(crate) fn wake(self) -> LockNature
        ensures wake { result ≡ wake_of self }
        ensures wakes { result ≢ LockNature.None }
    {
        match self {
            Want::Init | Want::Read | Want::ReadOnly => LockNature::Read,
            Want::Write | Want::WriteOnly | Want::Finalize => LockNature::Write,
        }
    }
}

impl Ask {
    /// The nature of lock that the call wants at this phase.
    pub(crate) fn nature(self, p: Phase) -> LockNature
        ensures { result ≡ nature_of self p }
    {
        match self.want {
            Want::Init => {
                if shall_init(self.tol, p) {
                    LockNature::Write
                } else {
                    LockNature::None
                }
            }
            Want::Read => {
                if shall_init(self.tol, p) {
                    LockNature::Write
                } else {
                    LockNature::Read
                }
            }
            Want::ReadOnly => LockNature::Read,
            Want::Write | Want::WriteOnly => LockNature::Write,
            Want::Finalize => {
                if p.contains(Phase::INITIALIZED) {
                    LockNature::Write
                } else {
                    LockNature::None
                }
            }
        }
    }

    /// Whether the call asks for a run at this phase.
    pub(crate) fn asks_run(self, p: Phase) -> bool
        ensures { result ≡ asks_run self p }
    {
        self.want.initializes() && shall_init(self.tol, p)
    }
}
