//! The finalizers of locked cells.

ghost use Rattle.std.specs.Prelude.{◌≡◌, true, Ok};
ghost use Rattle.phase_bits.specs.Flags.{has, initialized};
ghost use Rattle.phase_bits.specs.Number.{number};
ghost use Rattle.lazy_cells.specs.Cells.{is_there};
ghost use Rattle.lazy_cells.specs.Finalizers.{Finalizes, KeepsValue, DropsValue, TakenOut};

use crate::guarded::Guarded;
use exit_registry::Turn;
use phase_bits::Phase;
use phase_seq::{FinalFault, Finaly, GeneratorTolerance, Uninit};

impl<T: Finaly, G: GeneratorTolerance, P> Guarded<T, G, P> {
    /// Finalizes the value, which stays.
    pub(crate) fn finalize_kept(&mut self) -> Turn
        requires there { has (number self.old.phase) initialized ≡ true → is_there self.old.value ≡ true }
        ensures finalizes { Finalizes (KeepsValue T.finalizes) self.old result self.new }
        ensures generator { self.new.generator ≡ self.old.generator }
        ensures marker { self.new.marker ≡ self.old.marker }
    {
        match &self.body {
            None => Turn::Skipped,
            Some(value) => self.sequentializer.finalize_callback(|| value.finaly()),
        }
    }
}

impl<T: Drop, G: GeneratorTolerance, P> Guarded<T, G, P> {
    /// Drops the value.
    pub(crate) fn finalize_dropped(&mut self) -> Turn
        ensures finalizes { Finalizes DropsValue self.old result self.new }
        ensures generator { self.new.generator ≡ self.old.generator }
        ensures marker { self.new.marker ≡ self.old.marker }
    {
        let fine = || -> Result<(), FinalFault>
            ensures { result ≡ Ok tt }
        { Ok(()) };
        let turn = self.sequentializer.finalize_callback(fine);
        if turn == Turn::Done {
            self.body = None;
        }
        turn
    }
}

impl<T: Uninit, G: GeneratorTolerance, P> Guarded<T, G, P> {
    /// Takes the value out of use, and keeps what is left of it.
    pub(crate) fn finalize_primed(&mut self) -> Turn
        requires there { is_there self.old.value ≡ true }
        ensures finalizes { Finalizes (TakenOut T.uninits) self.old result self.new }
        ensures generator { self.new.generator ≡ self.old.generator }
        ensures marker { self.new.marker ≡ self.old.marker }
    {
        if !self.phase().contains(Phase::INITIALIZED) {
            return Turn::Skipped;
        }
        if self.sequentializer.locker().is_held() {
            return Turn::Busy;
        }
        let ended = self.body.as_mut().unwrap().uninit();
        let told = move || -> Result<(), FinalFault>
            ensures { result ≡ ended }
        { ended };
        self.sequentializer.finalize_callback(told)
    }
}
