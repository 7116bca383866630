//! Cells that were started.

ghost use Rattle.std.specs.Prelude.{◌≡◌, true};
ghost use Rattle.phase_bits.specs.Flags.{has, initialized};
ghost use Rattle.phase_bits.specs.Number.{number};
ghost use Rattle.lazy_cells.specs.Startup.{MayStart, StartsOwn, IsLeft, started_where};

use crate::lesser::Startable;
use exit_registry::ExitRegistry;
use phase_bits::{Phase, Phased};
use phase_seq::InitError;
use std::marker::Model;

mod locked;
mod plain;
mod primed;
mod tickets;

/// A cell whose phase has INITIALIZED. No call on it asks whether a run is due. This project's own: static_init has a
/// hint.
///
/// A contract sees the cell.
#[derive(Drop)]
pub struct Started<C: Phased> {
    cell: C,
}

impl<C: Phased> Model for Started<C> {
    ghost Value = { C };

    ghost view = { λ s. s.cell };

    ghost invariant = { λ s. has (number (C.phase s.cell)) initialized ≡ true };
}

impl<C: Phased> Started<C> {
    /// The cell, which is to have its turn in an exit, say. It is as it was.
    pub fn into_inner(self) -> C
        ensures cell { result ≡ self }
        ensures initialized { has (number (C.phase result)) initialized ≡ true }
    {
        self.cell
    }
}

impl<C: Startable> Started<C> {
    /// A cell that is initialized already.
    ///
    /// # Errors
    ///
    /// The cell, exactly where its phase lacks INITIALIZED.
    pub fn of(cell: C) -> Result<Started<C>, C>
        ensures { result ≡ started_where (has (number (C.phase cell)) initialized) cell }
    {
        if Phased::phase(&cell).contains(Phase::INITIALIZED) {
            Ok(Started { cell })
        } else {
            Err(cell)
        }
    }
}

/// Starts a cell. What it needs and does is that of the cell's own `start`.
///
/// # Errors
///
/// The cell as that call left it, with its error.
pub fn start<C: Startable>(cell: C, reg: &mut ExitRegistry) -> Result<Started<C>, (C, InitError)>
    requires callable { C.may_run cell }
    requires exit { MayStart (C.standing cell) reg.old }
    ensures starts { StartsOwn C.standing cell result reg.old reg.new }
    ensures again { IsLeft C.may_run result }
{
    let mut cell = cell;
    match cell.start(reg) {
        Ok(_) => Ok(Started { cell }),
        Err(error) => Err((cell, error)),
    }
}
