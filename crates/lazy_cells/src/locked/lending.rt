//! The value of a locked lazy that its owner uses alone.

ghost use Rattle.std.specs.Prelude.{◌≡◌, Some, false, true};
ghost use Rattle.std.specs.Borrow.{sem, LendsIfOk, LendsSoOk};
ghost use Rattle.phase_seq.specs.Phases.{unregistered};
ghost use Rattle.phase_seq.specs.Direct.{tolerance};
ghost use Rattle.lazy_cells.specs.Cells.{looked, seen_mut};
ghost use Rattle.lazy_cells.specs.Locked.{bars_write};
ghost use Rattle.lazy_cells.specs.Access.{Shows, EndsWith};
ghost use Rattle.lazy_cells.specs.contracts.locked.GenericLockedLazy.{the_row};
ghost use Rattle.lazy_cells.specs.contracts.markers.NoExit.{the_row as exit_row};
ghost use Rattle.lazy_cells.specs.contracts.markers.Kept.{the_row as kept_row};
ghost use Rattle.lazy_cells.specs.contracts.markers.Full.{the_row as full_row};

use crate::locked::GenericLockedLazy;
use crate::markers::{Full, Kept, NoExit, Reach};
use phase_bits::{AccessError, Phase};
use phase_seq::{Generator, InitError};

impl<T, G> GenericLockedLazy<T, G, NoExit<Kept<Full>>> {
    /// The value as it is, to be changed. Nothing is run. No ticket may be open.
    ///
    /// # Errors
    ///
    /// `AccessError` with the phase, exactly where the value is not there.
    pub fn try_get_mut(this: &mut Self) -> Result<&mut T, AccessError>
        requires { bars_write this.old ≡ false }
        ensures* lends { sem 𝓛 (LendsIfOk (the_row T.row G.row (exit_row (kept_row full_row)) ⟦<NoExit<Kept<Full>> as Reach>⟧) T.row this.entry result (λ w. record this.old { value = Some w }) this.old) }
        ensures shows { seen_mut result ≡ looked this.old.phase this.old.value }
    {
        let phase = this.cell.phase();
        if !phase.contains(Phase::INITIALIZED) {
            return Err(AccessError { phase });
        }
        Ok(this.cell.value_mut())
    }
}

impl<T: Drop, G: Generator<T>> GenericLockedLazy<T, G, NoExit<Kept<Full>>> {
    /// The value, after a run of the generator where one is due, to be changed. No ticket may be open.
    ///
    /// # Errors
    ///
    /// `Failed` exactly where the generator failed in this call, `Access` exactly where no run was due and the value is
    /// not there.
    pub fn get_mut(this: &mut Self) -> Result<&mut T, InitError>
        requires callable { G.may_call this.old.generator }
        requires alone { bars_write this.old ≡ false }
        ensures* lends { sem 𝓛 (LendsSoOk (the_row T.row G.row (exit_row (kept_row full_row)) ⟦<NoExit<Kept<Full>> as Reach>⟧) T.row this.entry result (λ n w. EndsWith G.attempts (tolerance G.INIT_FAILURE G.FINAL_REGISTRATION_FAILURE) (Some unregistered) this.old (seen_mut result) w n × G.may_call n.generator) (λ n. Shows G.attempts (tolerance G.INIT_FAILURE G.FINAL_REGISTRATION_FAILURE) (Some unregistered) this.old (seen_mut result) n × G.may_call n.generator)) }
    {
        this.init()?;
        Ok(this.cell.value_mut())
    }
}
