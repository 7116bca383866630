//! One step on the rows, by who makes it and what it does.

ghost use Rattle.std.specs.Prelude.{◌≡◌, ◌<◌, length, vec_capacity};
ghost use Rattle.phase_moves.specs.Moves.{KeptWith, Pushes};
ghost use Rattle.phase_acts.specs.Steps.{MayStep, Steps, Refuses};

use phase_locker::{Given, PhaseLocker};
use phase_moves::{GuardRow, Rows};
use schedule_rules::{Answer, Line, Refusal, Step};

/// Rows that steps are made on.
pub struct Machine<L: PhaseLocker> {
    /// The rows.
    pub rows: Rows<L>,
}

impl<L: PhaseLocker> Machine<L> {
    /// The step ends with this row of guards and this line.
    pub(crate) fn end_step(&mut self, row: GuardRow, answer: Answer, given: Given) -> Line
        requires { length self.old.rows.guards.items < vec_capacity self.old.rows.guards }
        ensures pushes { Pushes L.held L.place self.old.rows row self.new.rows }
        ensures kept { KeptWith 1 self.old.rows self.new.rows }
        ensures line { result ≡ record { answer = answer; given = given } }
    {
        self.rows.push(row);
        Line { answer, given }
    }

    /// The step is refused, and leaves all but one more row of no guard.
    pub(crate) fn refuse(&mut self, refusal: Refusal) -> Line
        requires { length self.old.rows.guards.items < vec_capacity self.old.rows.guards }
        ensures { Refuses L.held L.place self.old.rows refusal result self.new.rows }
    {
        self.end_step(GuardRow::Free, Answer::Refused(refusal), Given::Nobody)
    }
}
