//! Plain lazies: a value that the first user makes.

ghost use Rattle.std.specs.Prelude.{◌≡◌, None};
ghost use Rattle.phase_bits.specs.Flags.{has, initialized};
ghost use Rattle.phase_bits.specs.Number.{number, IsKnown};
ghost use Rattle.phase_seq.specs.Phases.{unregistered};

use phase_bits::{AccessError, Phase, Phased};
use phase_locker::UnSyncPhaseLocker;
use phase_seq::LazySequentializer;
use std::marker::Model;

mod finalize;
mod lending;
mod making;
mod no_exit;
mod with_exit;

/// A plain cell: a value that its generator makes when the first user asks for it. The marker `P` names its kind and its
/// form. It stands for the `GenericLazy` of static_init.
///
/// A contract sees the phase, the value, the generator and the marker. The value is there exactly where the phase has
/// INITIALIZED. A call that may run the generator needs that it may be called, which holds again after the call.
#[derive(Drop)]
pub struct GenericLazy<T, G, P> {
    body: Option<T>,
    sequentializer: LazySequentializer<UnSyncPhaseLocker, G>,
    generator: G,
    marker: P,
}

impl<T, G, P> Model for GenericLazy<T, G, P> {
    ghost use Rattle.lazy_cells.specs.Cells.{Cell, IsKept};

    ghost Value = { Cell T G P };

    ghost view = { λ c. record {
      phase = c.sequentializer.locker.phase;
      value = c.body;
      generator = c.generator;
      marker = c.marker;
    } };

    ghost invariant = { λ c. IsKept c.sequentializer.locker c.body };
}

impl<T, G, P> GenericLazy<T, G, P> {
    ghost use Rattle.lazy_cells.specs.Cells.{is_there, looked, seen};

    /// An empty cell with this marker.
    pub(crate) fn empty(generator: G, marker: P) -> GenericLazy<T, G, P>
        ensures { result ≡ record { phase = unregistered; value = None; generator = generator; marker = marker } }
    {
        GenericLazy {
            body: None,
            sequentializer: LazySequentializer::new(UnSyncPhaseLocker::new(Phase::empty())),
            generator,
            marker,
        }
    }

    /// The phase of the cell.
    pub fn phase(this: &Self) -> Phase
        ensures phase { result ≡ this.now.phase }
        ensures known { IsKnown result }
        ensures there { is_there this.now.value ≡ has (number this.now.phase) initialized }
    {
        Phased::phase(&this.sequentializer)
    }

    /// The value as it is. Nothing is run.
    ///
    /// # Errors
    ///
    /// `AccessError` with the phase, exactly where the value is not there.
    pub fn try_get(this: &Self) -> Result<&T, AccessError>
        ensures { seen result ≡ looked this.now.phase this.now.value }
    {
        match &this.body {
            Some(value) => Ok(value),
            None => Err(AccessError {
                phase: Self::phase(this),
            }),
        }
    }
}
