//! What a cell puts up with.

ghost use Rattle.std.specs.Prelude.{◌≡◌};
ghost use Rattle.phase_seq.specs.Asks.{shall_init};

use crate::generator::GeneratorTolerance;
use phase_bits::Phase;

/// What a cell puts up with: the two constants of `GeneratorTolerance` as a value. This project's own.
#[derive(Clone, Copy, PartialEq, Eq, Debug)]
pub struct Tolerance {
    /// A failed run is followed by another one, at the next call that asks for it.
    pub retry: bool,
    /// A cell that can't be registered for the exit is initialized all the same.
    pub leak: bool,
}

/// The tolerance of a generator's cells.
pub fn tolerance_of<G: GeneratorTolerance>() -> Tolerance
    ensures { result ≡ record { retry = G.INIT_FAILURE; leak = G.FINAL_REGISTRATION_FAILURE } }
{
    Tolerance {
        retry: G::INIT_FAILURE,
        leak: G::FINAL_REGISTRATION_FAILURE,
    }
}

/// Whether a run of the generator is due at this phase: with `retry` where the phase lacks INITIALIZED, without it
/// where the phase is empty.
pub fn shall_init(t: Tolerance, p: Phase) -> bool
    ensures { result ≡ shall_init t p }
{
    if t.retry {
        !p.contains(Phase::INITIALIZED)
    } else {
        p.is_empty()
    }
}
