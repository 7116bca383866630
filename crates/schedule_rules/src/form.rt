//! What a call answers with.

ghost use Rattle.std.specs.Prelude.{◌≡◌};
ghost use Rattle.schedule_rules.specs.Forms.{form_of};

use lazy_cells::{Call, Kind};

/// What a call answers with, once it is not barred and runs nothing, or its run made a value.
#[derive(Clone, Copy, PartialEq, Eq, Debug)]
pub enum Form {
    /// The phase. Where it tests access, only of a cell whose value may be accessed.
    Told { tests: bool },
    /// The value, where it may be accessed.
    Shown,
    /// A guard, which writes or reads. Where the value may not be accessed, a call that falls back gets a guard to read
    /// the primed value, and any other call gets none.
    Held { writes: bool, falls_back: bool },
}

/// The form of a call of cells of this kind.
pub fn form_of(kind: Kind, call: Call) -> Form
    ensures { result ≡ form_of kind call }
{
    match call {
        Call::Phase => Form::Told { tests: false },
        Call::Init => Form::Told {
            tests: !kind.is_plain(),
        },
        Call::TryGet | Call::Get => Form::Shown,
        Call::Read | Call::FastRead | Call::TryRead | Call::FastTryRead => Form::Held {
            writes: false,
            falls_back: false,
        },
        Call::Write | Call::FastWrite | Call::TryWrite | Call::FastTryWrite => Form::Held {
            writes: true,
            falls_back: false,
        },
        Call::PrimedRead | Call::PrimedReadNonInitializing => Form::Held {
            writes: false,
            falls_back: true,
        },
        Call::PrimedWrite | Call::PrimedWriteNonInitializing => Form::Held {
            writes: true,
            falls_back: true,
        },
    }
}
