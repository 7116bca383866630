//! The turn of a plain lazy in an exit.

ghost use Rattle.std.specs.Prelude.{◌≡◌, false};
ghost use Rattle.phase_bits.specs.Flags.{has, initialized};
ghost use Rattle.phase_bits.specs.Number.{number};
ghost use Rattle.phase_seq.specs.Phases.{finalized_flag, finalization_panicked};

use crate::generic::GenericLazy;
use crate::markers::WithExit;
use exit_registry::{Finalizable, Turn};
use phase_seq::{Finaly, GeneratorTolerance};

impl<T: Finaly + Drop, G: GeneratorTolerance + Drop, Q: Drop> Finalizable
    for GenericLazy<T, G, WithExit<Q>> {
    ghost meanings = { λ c. record {
      initialized = has (number c.phase) initialized;
      held = false;
      finalized = has (number c.phase) finalized_flag;
      failed = has (number c.phase) finalization_panicked;
    } };

    fn execute(&mut self) -> Turn {
        match &self.body {
            None => Turn::Skipped,
            Some(value) => self.sequentializer.finalize_callback(|| value.finaly()),
        }
    }
}
