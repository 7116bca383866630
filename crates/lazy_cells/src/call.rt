//! The calls of cells, and what each asks of the sequentializer.

ghost use Rattle.std.specs.Prelude.{◌≡◌, true};
ghost use Rattle.lazy_cells.specs.Calls.{has_call, ask_of};

use crate::kind::{Kind, primed};
use phase_seq::{Ask, Tolerance, Want};

/// What a user asks of a cell. Each is static_init's call of that name; `Init` is one name for two calls, that of plain
/// and that of locked cells.
#[derive(Clone, Copy, PartialEq, Eq, Debug)]
pub enum Call {
    /// The phase, without a lock.
    Phase,
    /// The value of a plain cell as it is.
    TryGet,
    /// The value of a plain cell, after a run of the generator where one is due.
    Get,
    /// That the cell is initialized.
    Init,
    /// A guard to read, after a run of the generator where one is due.
    Read,
    /// A guard to write, after a run of the generator where one is due.
    Write,
    /// The same as `Read`, which does not wait.
    FastRead,
    /// The same as `Write`, which does not wait.
    FastWrite,
    /// A guard to read the cell as it is.
    TryRead,
    /// A guard to write the cell as it is.
    TryWrite,
    /// The same as `TryRead`, which does not wait.
    FastTryRead,
    /// The same as `TryWrite`, which does not wait.
    FastTryWrite,
    /// A guard to read the value, or the primed one where the run failed or none is due.
    PrimedRead,
    /// A guard to write the value, or one to read the primed value.
    PrimedWrite,
    /// A guard to read the value or the primed value, as the cell is.
    PrimedReadNonInitializing,
    /// A guard to write the value, or one to read the primed value, as the cell is.
    PrimedWriteNonInitializing,
}

/// Whether cells of this kind have this call.
pub fn has_call(k: Kind, c: Call) -> bool
    ensures { result ≡ has_call k c }
{
    match c {
        Call::Phase | Call::Init => true,
        Call::TryGet | Call::Get => k.is_plain(),
        Call::Read
        | Call::Write
        | Call::FastRead
        | Call::FastWrite
        | Call::TryRead
        | Call::TryWrite
        | Call::FastTryRead
        | Call::FastTryWrite => !k.is_plain(),
        Call::PrimedRead
        | Call::PrimedWrite
        | Call::PrimedReadNonInitializing
        | Call::PrimedWriteNonInitializing => primed(k),
    }
}

/// What a call asks of a cell of this kind with this tolerance: `None` exactly for `Phase` and `TryGet`, which look at
/// the cell as it is and are never barred. The kind must have the call.
pub fn ask_of(k: Kind, c: Call, t: Tolerance) -> Option<Ask>
    requires { has_call k c ≡ true }
    ensures { result ≡ ask_of k c t }
{
    let (want, fast) = match c {
        Call::Phase | Call::TryGet => return None,
        Call::Get => (Want::Init, false),
        Call::Init => (
            if k.is_plain() {
                Want::Init
            } else {
                Want::Write
            },
            false,
        ),
        Call::Read | Call::PrimedRead => (Want::Read, false),
        Call::Write | Call::PrimedWrite => (Want::Write, false),
        Call::FastRead => (Want::Read, true),
        Call::FastWrite => (Want::Write, true),
        Call::TryRead | Call::PrimedReadNonInitializing => (Want::ReadOnly, false),
        Call::TryWrite | Call::PrimedWriteNonInitializing => (Want::WriteOnly, false),
        Call::FastTryRead => (Want::ReadOnly, true),
        Call::FastTryWrite => (Want::WriteOnly, true),
    };
    Some(Ask { want, fast, tol: t })
}
