//! Guards are given back, turned to readers and doubled.

ghost use Rattle.phase_acts.specs.Steps.{MayAct, Acts};

use crate::machine::Machine;
use phase_locker::{Given, PhaseLocker};
use phase_moves::GuardRow;
use schedule_rules::{Act, Answer, Line, Refusal};

impl<L: PhaseLocker> Machine<L> {
    /// The party gives a guard back. What the holder of a write guard sees is published.
    pub(crate) fn release(&mut self, party: u32, guard: u32) -> Line
        requires { MayAct L.held L.place self.old.rows party (Act.Release guard) }
        ensures { Acts L.held L.place self.old.rows party (Act.Release guard) result self.new.rows }
    {
        match self.rows.take(party, guard) {
            GuardRow::Free => self.refuse(Refusal::NoGuard),
            GuardRow::Read {
                party: _,
                cell,
                lock,
            } => {
                let given = self.rows.leave_read(cell, lock);
                self.end_step(GuardRow::Free, Answer::Done, given)
            }
            GuardRow::Write {
                party: _,
                cell,
                lock,
            } => {
                let given = self.rows.leave_write(cell, lock);
                self.end_step(GuardRow::Free, Answer::Done, given)
            }
        }
    }

    /// The party gives a write guard back and reads on. What it sees is published.
    pub(crate) fn downgrade(&mut self, party: u32, guard: u32) -> Line
        requires { MayAct L.held L.place self.old.rows party (Act.Downgrade guard) }
        ensures { Acts L.held L.place self.old.rows party (Act.Downgrade guard) result self.new.rows }
    {
        let Some(held) = self.rows.held(party, guard) else {
            return self.refuse(Refusal::NoGuard);
        };
        if !held.writes {
            return self.refuse(Refusal::NotWriter);
        }
        match self.rows.take(party, guard) {
            GuardRow::Write {
                party: _,
                cell,
                lock,
            } => {
                let (lock, given) = self.rows.downgrade(cell, lock);
                let row = GuardRow::Read { party, cell, lock };
                self.end_step(row, Answer::ReadGuard, given)
            }
            // The row of a guard that writes is no other: what follows does not occur.
            GuardRow::Read {
                party: _,
                cell,
                lock,
            } => {
                let given = self.rows.leave_read(cell, lock);
                self.end_step(GuardRow::Free, Answer::Done, given)
            }
            GuardRow::Free => self.refuse(Refusal::NoGuard),
        }
    }

    /// The party gets one more read guard beside this one, unless the readers of its cell are at their limit.
    pub(crate) fn clone_guard(&mut self, party: u32, guard: u32) -> Line
        requires { MayAct L.held L.place self.old.rows party (Act.Clone guard) }
        ensures { Acts L.held L.place self.old.rows party (Act.Clone guard) result self.new.rows }
    {
        let Some(held) = self.rows.held(party, guard) else {
            return self.refuse(Refusal::NoGuard);
        };
        if held.writes {
            return self.refuse(Refusal::NoGuard);
        }
        match self.rows.clone_guard(guard, held.cell) {
            Some(lock) => {
                let row = GuardRow::Read {
                    party,
                    cell: held.cell,
                    lock,
                };
                self.end_step(row, Answer::ReadGuard, Given::Nobody)
            }
            None => self.end_step(GuardRow::Free, Answer::Borrowed, Given::Nobody),
        }
    }
}
