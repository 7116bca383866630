//! What the holders of guards see, and what they set.

ghost use Rattle.phase_acts.specs.Steps.{MayAct, Acts};

use crate::machine::Machine;
use phase_locker::{Given, PhaseLocker};
use phase_moves::GuardRow;
use schedule_rules::{Act, Answer, Line, Refusal};

impl<L: PhaseLocker> Machine<L> {
    /// What the holder of the guard sees.
    pub(crate) fn look(&mut self, party: u32, guard: u32) -> Line
        requires { MayAct L.held L.place self.old.rows party (Act.Look guard) }
        ensures { Acts L.held L.place self.old.rows party (Act.Look guard) result self.new.rows }
    {
        let Some(held) = self.rows.held(party, guard) else {
            return self.refuse(Refusal::NoGuard);
        };
        let value = Answer::Value(held.value.unwrap_or(0));
        self.end_step(GuardRow::Free, value, Given::Nobody)
    }

    /// The holder of the write guard sets the value.
    pub(crate) fn set(&mut self, party: u32, guard: u32, value: u64) -> Line
        requires { MayAct L.held L.place self.old.rows party (Act.Set guard value) }
        ensures { Acts L.held L.place self.old.rows party (Act.Set guard value) result self.new.rows }
    {
        let Some(held) = self.rows.held(party, guard) else {
            return self.refuse(Refusal::NoGuard);
        };
        if !held.writes {
            return self.refuse(Refusal::NotWriter);
        }
        self.rows.set(held.cell, value);
        self.end_step(GuardRow::Free, Answer::Done, Given::Nobody)
    }
}
