//! The steps of the exit.

ghost use Rattle.std.specs.Prelude.{◌≡◌, ◌||◌, not};
ghost use Rattle.schedule_rules.specs.Due.{answer_of_look};
ghost use Rattle.schedule_rules.specs.Refusals.{is_other};
ghost use Rattle.phase_acts.specs.Steps.{MayAct, Acts};

use crate::machine::Machine;
use exit_registry::Look;
use phase_locker::{Given, PhaseLocker};
use phase_moves::{Exit, GuardRow, Target};
use schedule_rules::{Act, Answer, Line, Refusal, Want};

/// The answer of a look for registered cells.
fn looked(look: Look) -> Answer
    ensures { result ≡ answer_of_look look }
{
    match look {
        Look::Round(cells) => Answer::Round(cells),
        Look::Closed => Answer::Closed,
    }
}

/// Whether the exit is another party's, or has ended.
fn is_begun(exit: &Exit, party: u32) -> bool
    ensures { result ≡ (is_other exit.now.owner party || not exit.now.registry.is_open) }
{
    let other = match exit.owner {
        None => false,
        Some(owner) => owner != party,
    };
    other | !exit.registry.is_open()
}

impl<L: PhaseLocker> Machine<L> {
    /// A step of the exit: the turn of the first cell that is left of the round, or a look where none is left.
    pub(crate) fn exit(&mut self, party: u32) -> Line
        requires { MayAct L.held L.place self.old.rows party Act.Exit }
        ensures { Acts L.held L.place self.old.rows party Act.Exit result self.new.rows }
    {
        if is_begun(&self.rows.exit, party) {
            return self.refuse(Refusal::ExitBegun);
        }
        if self.rows.innermost(party).is_some() {
            return self.refuse(Refusal::Inside);
        }
        self.rows.own(party);
        match self.rows.next_turn() {
            Some(cell) => {
                let target = Target {
                    cell,
                    want: Want::Turns,
                };
                self.turn(party, target)
            }
            None => {
                let look = self.rows.look();
                self.end_step(GuardRow::Free, looked(look), Given::Nobody)
            }
        }
    }
}
