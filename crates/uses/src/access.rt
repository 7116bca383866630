//! What a phase says of a cell: whether its value may be read, and the error where it may not.

ghost use Rattle.std.specs.Prelude.{◌≡◌, true, IfErr, IfOk};
ghost use Rattle.phase_bits.specs.Flags.{has, initialized};
ghost use Rattle.phase_bits.specs.Number.{number};

use phase_bits::{AccessError, Phase};

/// The value of a cell with this phase, where it may be read.
pub fn read_at(phase: Phase, value: u64) -> Result<u64, AccessError>
    ensures there { has (number phase) initialized ≡ true → result ≡ Ok value }
    ensures error { IfErr result (λ error. error.phase ≡ phase) }
    ensures value { IfOk result (λ v. v ≡ value) }
{
    if phase.contains(Phase::INITIALIZED) {
        Ok(value)
    } else {
        Err(AccessError { phase })
    }
}
