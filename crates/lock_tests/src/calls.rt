//! Words of the tests of cells that are registered for the exit.

ghost use Rattle.std.specs.Prelude.{◌≡◌, ◌<◌, false};
ghost use Rattle.phase_bits.specs.Number.{number};
ghost use Rattle.exit_registry.specs.Registry.{cells_of, is_known};

use exit_registry::{ExitRegistry, Look};
use phase_bits::Phase;
use phase_locker::{HolderLocker, ReadTicket, Who, WriteTicket};
use phase_seq::{Ask, Begun, DefaultGenerator, LazySequentializer, Section, Tolerance, Want};
use std::process::Abort;

pub(crate) type Cell = LazySequentializer<HolderLocker, DefaultGenerator>;

/// A call that may wait, on a cell that tries again.
pub(crate) fn ask(want: Want, leak: bool) -> Ask
    ensures { result.fast ≡ false }
{
    Ask {
        want,
        fast: false,
        tol: Tolerance { retry: true, leak },
    }
}

/// A party, at cell 0.
pub(crate) fn party(party: u32) -> Who
    ensures { result ≡ record { cell = 0; party = party } }
{
    Who { cell: 0, party }
}

/// The process ends where cell 0, of this phase, may not be handed in with this registry.
pub(crate) fn ready(rt: &impl Abort, phase: Phase, registry: &ExitRegistry)
    ensures inside { 0 < cells_of registry.now }
    ensures unknown { number phase ≡ 0 → is_known registry.now 0 ≡ false }
{
    if registry.cells() == 0 {
        rt.abort()
    }
    if phase.is_empty() & registry.knows(0) {
        rt.abort()
    }
}

/// A look, where no cell is left. The process ends where one is.
pub(crate) fn look(rt: &impl Abort, registry: &mut ExitRegistry) -> Look {
    match registry.next_turn() {
        Some(_) => rt.abort(),
        None => registry.look(),
    }
}

/// The section that a call opened for a generator. The process ends where it opened none.
pub(crate) fn run(rt: &impl Abort, begun: Begun) -> Section
    ensures { begun ≡ Begun.Run result }
{
    let Begun::Run(section) = begun else {
        rt.abort()
    };
    section
}

/// The section that a call opened for a finalizer. The process ends where it opened none.
pub(crate) fn last(rt: &impl Abort, begun: Begun) -> Section
    ensures { begun ≡ Begun.Final result }
{
    let Begun::Final(section) = begun else {
        rt.abort()
    };
    section
}

/// The lock to read that a call got, and the phase. The process ends where it got none.
pub(crate) fn reads(rt: &impl Abort, begun: Begun) -> (ReadTicket, Phase)
    ensures { begun ≡ Begun.Read result.0 result.1 }
{
    let Begun::Read(ticket, phase) = begun else {
        rt.abort()
    };
    (ticket, phase)
}

/// The lock to write that a call got, and the phase. The process ends where it got none.
pub(crate) fn writes(rt: &impl Abort, begun: Begun) -> (WriteTicket, Phase)
    ensures { begun ≡ Begun.Write result.0 result.1 }
{
    let Begun::Write(ticket, phase) = begun else {
        rt.abort()
    };
    (ticket, phase)
}

/// The phase that a call got without a lock. The process ends where it got a lock, or nothing.
pub(crate) fn nothing(rt: &impl Abort, begun: Begun) -> Phase
    ensures { begun ≡ Begun.Nothing result }
{
    let Begun::Nothing(phase) = begun else {
        rt.abort()
    };
    phase
}
