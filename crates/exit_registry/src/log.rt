//! The log of an exit.

ghost use Rattle.std.specs.Prelude.{◌≡◌, ◌<◌, [], ◌∷◌, ◌++◌, IfOk, length};
ghost use Rattle.exit_registry.specs.Logs.{LogBook};

use crate::turns::Turned;
use std::alloc::{AllocError, Global};
use std::marker::Model;

/// The turns of an exit, in order. This project's own.
///
/// A contract sees the turns and the number of cells that the log was made for. Only `new` takes memory.
#[derive(Drop)]
pub struct Log {
    turns: Vec<Turned>,
}

impl Model for Log {
    ghost use Rattle.std.specs.Vec.{vec_capacity};
    ghost use Rattle.exit_registry.specs.Logs.{LogBook};

    ghost Value = { LogBook };

    ghost view = { λ l. record { turns = l.turns.items; cells = vec_capacity l.turns } };
}

impl Log {
    /// An empty log, with room for a turn of each of so many cells.
    ///
    /// # Errors
    ///
    /// `AllocError` where memory is short.
    pub fn new(alloc: Global, cells: u32) -> Result<Log, AllocError>
        ensures { IfOk result (λ l. l ≡ record { turns = []; cells = cells }) }
    {
        let turns = Vec::with_capacity(alloc, cells as usize)?;
        Ok(Log { turns })
    }

    /// The turns, in order.
    pub fn entries(&self) -> &[Turned]
        ensures { result.now ≡ self.now.turns }
    {
        &self.turns
    }

    /// Notes a turn.
    pub(crate) fn note(&mut self, turned: Turned)
        requires { length self.old.turns < self.old.cells }
        ensures { self.new ≡ record self.old { turns = self.old.turns ++ turned ∷ [] } }
    {
        self.turns.push_reserved(turned);
    }
}
