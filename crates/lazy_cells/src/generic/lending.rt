//! The value of a plain lazy that its owner uses alone.

ghost use Rattle.std.specs.Prelude.{◌≡◌, Some};
ghost use Rattle.std.specs.Borrow.{sem, LendsIfOk, LendsSoOk};
ghost use Rattle.phase_seq.specs.Phases.{unregistered};
ghost use Rattle.phase_seq.specs.Direct.{tolerance};
ghost use Rattle.lazy_cells.specs.Cells.{Asks, EndsWith, say_value, looked, seen_mut};
ghost use Rattle.lazy_cells.specs.contracts.generic.GenericLazy.{the_row};
ghost use Rattle.lazy_cells.specs.contracts.markers.NoExit.{the_row as exit_row};
ghost use Rattle.lazy_cells.specs.contracts.markers.Full.{the_row as full_row};

use crate::generic::GenericLazy;
use crate::markers::{Full, NoExit};
use phase_bits::AccessError;
use phase_seq::{Generator, InitError};

impl<T, G> GenericLazy<T, G, NoExit<Full>> {
    /// The value as it is, to be changed. Nothing is run.
    ///
    /// # Errors
    ///
    /// `AccessError` with the phase, exactly where the value is not there.
    pub fn try_get_mut(this: &mut Self) -> Result<&mut T, AccessError>
        ensures* lends { sem 𝓛 (LendsIfOk (the_row T.row G.row (exit_row full_row)) T.row this.entry result (λ w. record this.old { value = Some w }) this.old) }
        ensures shows { seen_mut result ≡ looked this.old.phase this.old.value }
    {
        let phase = Self::phase(this);
        match &mut this.body {
            Some(value) => Ok(value),
            None => Err(AccessError { phase }),
        }
    }
}

impl<T: Drop, G: Generator<T>> GenericLazy<T, G, NoExit<Full>> {
    /// The value, after a run of the generator where one is due, to be changed.
    ///
    /// # Errors
    ///
    /// As `get`.
    pub fn get_mut(this: &mut Self) -> Result<&mut T, InitError>
        requires { G.may_call this.old.generator }
        ensures* lends { sem 𝓛 (LendsSoOk (the_row T.row G.row (exit_row full_row)) T.row this.entry result (λ n w. EndsWith G.attempts (tolerance G.INIT_FAILURE G.FINAL_REGISTRATION_FAILURE) (Some unregistered) this.old (seen_mut result) w n × G.may_call n.generator) (λ n. Asks G.attempts say_value (tolerance G.INIT_FAILURE G.FINAL_REGISTRATION_FAILURE) (Some unregistered) this.old (seen_mut result) n × G.may_call n.generator)) }
    {
        if this.body.is_none() {
            Self::init(this)?;
        }
        match Self::try_get_mut(this) {
            Ok(value) => Ok(value),
            Err(e) => Err(InitError::Access(e)),
        }
    }
}
