//! The moves of the exit.

ghost use Rattle.std.specs.Prelude.{◌<◌, length, vec_capacity};
ghost use Rattle.phase_moves.specs.Exits.{Owns, TakesTurn, MayLook, Looks, Skips};
ghost use Rattle.phase_moves.specs.Moves.{KeptGuards};

use crate::rows::Rows;
use exit_registry::Look;
use phase_locker::PhaseLocker;
use schedule_rules::{Turn, Turned};

impl<L: PhaseLocker> Rows<L> {
    /// The exit is this party's.
    pub fn own(&mut self, party: u32)
        ensures owns { Owns L.held L.place self.old party self.new }
        ensures kept { KeptGuards self.old self.new }
    {
        self.exit.owner = Some(party);
    }

    /// The first cell that is left of the round has its turn. `None` where none is left.
    pub fn next_turn(&mut self) -> Option<u32>
        ensures takes { TakesTurn L.held L.place self.old result self.new }
        ensures kept { KeptGuards self.old self.new }
    {
        self.exit.registry.next_turn()
    }

    /// The exit takes the cells that were registered since the last look. No cell may be left of it.
    pub fn look(&mut self) -> Look
        requires { MayLook L.held L.place self.old }
        ensures looks { Looks L.held L.place self.old result self.new }
        ensures kept { KeptGuards self.old self.new }
    {
        self.exit.registry.look()
    }

    /// The turn of a cell ends, which had no value to finalize.
    pub fn skip(&mut self, cell: u32)
        requires { length self.old.exit.turns.items < vec_capacity self.old.exit.turns }
        ensures skips { Skips L.held L.place self.old cell self.new }
        ensures kept { KeptGuards self.old self.new }
    {
        self.exit.turns.push_reserved(Turned {
            cell,
            turn: Turn::Skipped,
        });
    }
}
