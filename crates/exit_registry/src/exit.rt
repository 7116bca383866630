//! The exit: each registered cell has its turn.

ghost use Rattle.std.specs.Prelude.{◌≡◌, ◌≢◌, ℕ, ◌<◌, ◌≤◌, true, [], All, length, slice_get};
ghost use Rattle.exit_registry.specs.Registry.{IsSound, first_of, rest_of, occurs, due};
ghost use Rattle.exit_registry.specs.Exits.{closed, cells_of_turns, HasTurnedAt};
ghost use Rattle.exit_registry.specs.Turns.{Answers, left_by, is_still};

use crate::log::Log;
use crate::registry::ExitRegistry;
use crate::turns::{Finalizable, Turn, Turned};

/// The turn of this object.
fn turn_of(object: &mut Box<dyn Finalizable>) -> Turn
    ensures answers { Answers (meanings object.old) result }
    ensures leaves { meanings object.new ≡ left_by result (meanings object.old) }
    ensures still { is_still result ≡ true → object.new ≡ object.old }
{
    object.execute()
}

/// The turn of the object of this cell.
fn turn_at(cells: &mut [Box<dyn Finalizable>], cell: u32) -> Turned
    requires { cell < length cells.old }
    ensures cell { result.cell ≡ cell }
    ensures turned { HasTurnedAt (λ b. meanings b) result cells.old cells.new }
    ensures others { (k : ℕ) → k ≢ cell → slice_get cells.new k ≡ slice_get cells.old k }
{
    let turn = turn_of(&mut cells[cell as usize]);
    Turned { cell, turn }
}

impl ExitRegistry {
    /// Takes the next cell of the exit: the first that is left, and where none is left, the first of the next round.
    /// Answers `None` where that round has no cell; the registry is closed then.
    fn next_cell(&mut self) -> Option<u32>
        ensures cell { result ≡ first_of (due self.old) }
        ensures rest { due self.new ≡ rest_of (due self.old) }
        ensures known { self.new.known ≡ self.old.known }
        ensures closed { result ≡ None → self.new ≡ closed self.old }
        ensures sound { IsSound self.old }
    {
        match self.next_turn() {
            Some(cell) => Some(cell),
            None => {
                let _round = self.look();
                self.next_turn()
            }
        }
    }

    /// Takes rounds until a look closes the registry, and executes the object of each cell once: first those of the
    /// cells that are left, then those of the cells registered since the last look, the latest first. Each of these cells
    /// must have an object. The log has them with their turns; it must be empty, and made for at least as many cells as
    /// there are objects. It stands for static_init's `execute_at_exit`.
    pub fn run_exit(&mut self, cells: &mut [Box<dyn Finalizable>], log: &mut Log)
        requires below { All (λ c. c < length cells.old) (due self.old) }
        requires empty { log.old.turns ≡ [] }
        requires room { length cells.old ≤ log.old.cells }
        ensures closed { self.new ≡ closed self.old }
        ensures order { cells_of_turns log.new.turns ≡ due self.old }
        ensures once { (c : ℕ) → occurs c (cells_of_turns log.new.turns) ≤ 1 }
        ensures turns { All (λ t. HasTurnedAt (λ b. meanings b) t cells.old cells.new) log.new.turns }
        ensures others { (c : ℕ) → occurs c (due self.old) ≡ 0 → slice_get cells.new c ≡ slice_get cells.old c }
        ensures room { log.new.cells ≡ log.old.cells }
        ensures sound { IsSound self.new }
    {
        while let Some(cell) = self.next_cell() {
            log.note(turn_at(cells, cell));
        }
    }
}
