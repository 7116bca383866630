//! Values that are lent for a step.

ghost use Rattle.std.specs.Prelude.{◌≡◌};
ghost use Rattle.phase_moves.specs.Lends.{answer_of, lending};
ghost use Rattle.phase_acts.specs.Steps.{MayAct, Acts};

use crate::attempts::is_of_other;
use crate::machine::Machine;
use phase_locker::{Given, PhaseLocker};
use phase_moves::{GuardRow, Lent, Loan};
use schedule_rules::{Answer, Line, Refusal};

/// How a loan is answered.
fn answer_of(lent: Lent) -> Answer
    ensures { result ≡ answer_of lent }
{
    match lent {
        Lent::InUse => Answer::Refused(Refusal::InUse),
        Lent::Denied(phase) => Answer::Access(phase),
        Lent::Failed => Answer::Failed,
        Lent::Found(value) => Answer::Value(value),
    }
}

impl<L: PhaseLocker> Machine<L> {
    /// The value of a cell is lent to the party, which leaves another one. It is refused on a cell of another party,
    /// where cells of its kind do not lend their value, and where the cell is in use.
    pub(crate) fn lend(&mut self, party: u32, cell: u32, loan: Loan) -> Line
        requires { MayAct L.held L.place self.old.rows party (lending cell loan) }
        ensures { Acts L.held L.place self.old.rows party (lending cell loan) result self.new.rows }
    {
        let plan = self.rows.cells[cell as usize].plan;
        if is_of_other(plan.place, party) {
            return self.refuse(Refusal::NotOwner);
        }
        if !plan.kind.lends_value() {
            return self.refuse(Refusal::NoSuchCall);
        }
        let lent = self.rows.lend(cell, loan);
        self.end_step(GuardRow::Free, answer_of(lent), Given::Nobody)
    }
}
