//! The value of a cell that is not in use is lent for a step.

ghost use Rattle.std.specs.Prelude.{◌≡◌, true, false};
ghost use Rattle.phase_bits.specs.Number.{IsKnown};
ghost use Rattle.phase_seq.specs.Phases.{reached, unregistered};
ghost use Rattle.lazy_cells.specs.Kinds.{lends_value};
ghost use Rattle.phase_moves.specs.Lends.{Finds, Lends, MayLend, ran_of};
ghost use Rattle.phase_moves.specs.Moves.{KeptGuards};

use crate::attempt::tolerance_of;
use crate::calls::{release_write, try_write};
use crate::rows::Rows;
use lazy_cells::accessible;
use phase_bits::Phase;
use phase_locker::PhaseLocker;
use phase_seq::shall_init;
use schedule_rules::CellPlan;

/// How a value is lent.
#[derive(Clone, Copy, PartialEq, Eq, Debug)]
pub struct Loan {
    /// Whether the generator runs where a run is asked.
    pub runs: bool,
    /// The outcome of that run: a value, or none where it fails.
    pub made: Option<u64>,
    /// The value that the party leaves.
    pub left: u64,
}

/// What came of it.
#[derive(Clone, Copy, PartialEq, Eq, Debug)]
pub enum Lent {
    /// A guard of the cell is open, a section of it runs, or something waits at it. Nothing changed.
    InUse,
    /// At this phase the value may not be accessed. Nothing changed.
    Denied(Phase),
    /// The generator ran and failed. Nothing was lent.
    Failed,
    /// This value was found, and another one left.
    Found(u64),
}

/// What a cell publishes.
#[derive(Clone, Copy)]
struct Published {
    phase: Phase,
    value: Option<u64>,
}

/// The phase that a run reaches, at a cell that is not registered for the exit.
fn reached(made: bool) -> Phase
    ensures phase { result ≡ reached unregistered made }
    ensures known { IsKnown result }
{
    if made {
        Phase::INITIALIZED
    } else {
        Phase::INITIALIZATION_PANICKED.union(Phase::INITIALIZATION_SKIPED)
    }
}

/// What comes of a loan at a cell that is not in use and publishes this, and what it publishes then.
fn find(plan: CellPlan, loan: Loan, was: Published) -> (Lent, Published)
    requires lends { lends_value plan.kind ≡ true }
    requires known { IsKnown was.phase }
    ensures finds { Finds plan loan was result }
    ensures known { IsKnown result.1.phase }
{
    if loan.runs && shall_init(tolerance_of(plan), was.phase) {
        return ran(loan, was);
    }
    if !accessible(plan.kind, was.phase) {
        return (Lent::Denied(was.phase), was);
    }
    let left = Published {
        phase: was.phase,
        value: Some(loan.left),
    };
    (Lent::Found(was.value.unwrap_or(0)), left)
}

/// The same, where the generator runs.
fn ran(loan: Loan, was: Published) -> (Lent, Published)
    ensures ran { result ≡ ran_of loan was }
    ensures known { IsKnown result.1.phase }
{
    match loan.made {
        None => {
            let left = Published {
                phase: reached(false),
                value: was.value,
            };
            (Lent::Failed, left)
        }
        Some(made) => {
            let left = Published {
                phase: reached(true),
                value: Some(loan.left),
            };
            (Lent::Found(made), left)
        }
    }
}

impl<L: PhaseLocker> Rows<L> {
    /// The value of a cell that is not in use is lent and given back at once. Nothing waits there, so nothing is given.
    pub fn lend(&mut self, cell: u32, loan: Loan) -> Lent
        requires { MayLend L.held L.place self.old cell }
        ensures lends { Lends L.held L.place self.old cell loan result self.new }
        ensures kept { KeptGuards self.old self.new }
    {
        if self.cells[cell as usize].waiting > 0 {
            return Lent::InUse;
        }
        let row = &mut self.cells[cell as usize];
        let Some(lock) = try_write(&mut row.seq, &mut self.parks, cell) else {
            return Lent::InUse;
        };
        let was = Published {
            phase: row.seq.locker().phase(),
            value: row.value,
        };
        let (lent, left) = find(row.plan, loan, was);
        row.value = left.value;
        let _given = release_write(&mut row.seq, &mut self.parks, cell, lock, left.phase);
        lent
    }
}
