//! What all locked cells hold: a value behind a lock, and the phase that a writer will publish.

ghost use Rattle.std.specs.Prelude.{◌≡◌, Option};
ghost use Rattle.phase_bits.specs.Number.{IsKnown};
ghost use Rattle.lazy_cells.specs.Locked.{new_cell};

use phase_bits::{Phase, Phased};
use phase_locker::UnSyncPhaseLocker;
use phase_seq::LazySequentializer;
use std::marker::Model;

mod entering;
mod finalizing;
mod keeping;
mod tickets;

/// A value behind the lock of one party. What its kind adds stands above.
///
/// A contract sees the cell as one value.
#[derive(Drop)]
pub(crate) struct Guarded<T, G, P> {
    body: Option<T>,
    sequentializer: LazySequentializer<UnSyncPhaseLocker, G>,
    // The phase that the release of the write ticket will publish; there exactly where one is open.
    next: Option<Phase>,
    generator: G,
    marker: P,
}

impl<T, G, P> Model for Guarded<T, G, P> {
    ghost use Rattle.lazy_cells.specs.Locked.{Locked};
    ghost use Rattle.lazy_cells.specs.Guards.{IsGuarded, cell_of};

    ghost Value = { Locked T G P };

    ghost view = { λ c. cell_of c.sequentializer.locker c.next c.body c.generator c.marker };

    ghost invariant = { λ c. IsGuarded c.sequentializer.locker c.next };
}

impl<T, G, P> Guarded<T, G, P> {
    /// A cell with this value, of the empty phase.
    pub(crate) fn new(body: Option<T>, generator: G, marker: P) -> Guarded<T, G, P>
        ensures { result ≡ new_cell body generator marker }
    {
        Guarded {
            body,
            sequentializer: LazySequentializer::new(UnSyncPhaseLocker::new(Phase::empty())),
            next: None,
            generator,
            marker,
        }
    }

    /// The phase of the cell.
    pub(crate) fn phase(&self) -> Phase
        ensures phase { result ≡ self.now.phase }
        ensures known { IsKnown result }
    {
        Phased::phase(&self.sequentializer)
    }

    /// The phase that the release of the write ticket will publish.
    pub(crate) fn next(&self) -> Phase
        ensures phase { result ≡ self.now.next }
        ensures known { IsKnown result }
    {
        match self.next {
            Some(phase) => phase,
            None => self.phase(),
        }
    }

    /// Whether a write ticket is open.
    pub(crate) fn is_writing(&self) -> bool
        ensures { result ≡ self.now.writing }
    {
        self.next.is_some()
    }
}
