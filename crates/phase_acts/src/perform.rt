//! One step, by whether its party waits and by what it does.

ghost use Rattle.phase_acts.specs.Steps.{MayStep, Steps, MayAct, Acts};

use crate::machine::Machine;
use phase_locker::PhaseLocker;
use phase_moves::Loan;
use schedule_rules::{Act, Line, Refusal, Step};

impl<L: PhaseLocker> Machine<L> {
    /// Makes the step, and gives its line. A step that is refused leaves all but one more row of no guard.
    pub fn perform(&mut self, step: &Step) -> Line
        requires { MayStep L.held L.place self.old.rows step.now }
        ensures { Steps L.held L.place self.old.rows step.now result self.new.rows }
    {
        match self.rows.waiting(step.party) {
            None => self.perform_awake(step),
            Some(target) => match step.act {
                Act::Again => self.again(step.party, target),
                _ => self.refuse(Refusal::Waits),
            },
        }
    }

    /// The step of a party that does not wait.
    fn perform_awake(&mut self, step: &Step) -> Line
        requires { MayAct L.held L.place self.old.rows step.now.party step.now.act }
        ensures { Acts L.held L.place self.old.rows step.now.party step.now.act result self.new.rows }
    {
        let party = step.party;
        match step.act {
            Act::Call { cell, call } => self.call(party, cell, call),
            Act::Again => self.refuse(Refusal::NotWaiting),
            Act::Made { value } => self.outcome(party, Some(value)),
            Act::MadeFailed => self.outcome(party, None),
            Act::Finished { left } => self.finish(party, true, left),
            Act::FinishFailed { left } => self.finish(party, false, left),
            Act::Look { guard } => self.look(party, guard),
            Act::Set { guard, value } => self.set(party, guard, value),
            Act::Release { guard } => self.release(party, guard),
            Act::Downgrade { guard } => self.downgrade(party, guard),
            Act::Clone { guard } => self.clone_guard(party, guard),
            Act::GetMut { cell, made, left } => {
                let runs = true;
                self.lend(party, cell, Loan { runs, made, left })
            }
            Act::TryGetMut { cell, left } => {
                let (runs, made) = (false, None);
                self.lend(party, cell, Loan { runs, made, left })
            }
            Act::Exit => self.exit(party),
        }
    }
}
