//! Locked lazies: a value behind a lock, which its first user makes.

use crate::guarded::Guarded;
use crate::markers::Reach;
use std::marker::Model;

mod finalize;
mod lending;
mod making;
mod no_exit;
mod primed;
mod tickets;
mod trying;
mod with_exit;

/// A locked cell: a value behind the lock of one party. The marker `P` names its kind and its form. It stands for the
/// `GenericLockedLazy` of static_init, whose guards are tickets here.
///
/// A contract sees the cell as one value: its phase and value, how many read tickets are open, whether a write ticket is,
/// the phase that the release of the write ticket will publish, the generator and the marker. While a ticket is open the
/// value is there. A call that may run the generator needs that it may be called, which holds again after the call.
#[derive(Drop)]
pub struct GenericLockedLazy<T, G, P: Reach> {
    cell: Guarded<T, G, P>,
}

impl<T, G, P: Reach> Model for GenericLockedLazy<T, G, P> {
    ghost use Rattle.lazy_cells.specs.Locked.{Locked};
    ghost use Rattle.lazy_cells.specs.Sound.{IsSound};

    ghost Value = { Locked T G P };

    ghost view = { λ c. c.cell };

    ghost invariant = { λ c. IsSound P.hard P.primed c.cell };
}
