//! A run so far.

ghost use Rattle.std.specs.Prelude.{◌≡◌, ◌<◌, ◌≤◌, ◌^◌, [], IfOk, length, map, vec_capacity};
ghost use Rattle.schedule_rules.specs.Transcripts.{most_parties};
ghost use Rattle.phase_schedule.specs.Finals.{final_of_row};
ghost use Rattle.phase_schedule.specs.Progress.{AreShared, EndsSo, HasMade, MayEnd, MayStep, Steps, TakesPlaces, frame_of_plan};

use crate::ending::Ending;
use phase_acts::Machine;
use phase_locker::PhaseLocker;
use phase_moves::{CellRow, Rows};
use schedule_rules::{Final, Line, Plan, Step};
use std::alloc::{AllocError, Global};

/// A run so far: the rows. Whoever runs it keeps the steps, and the lines where it wants them. It is spent by `finish`.
pub struct Progress<L: PhaseLocker> {
    /// The rows, on which steps are made.
    pub machine: Machine<L>,
    /// Empty, with room for what each cell is left with.
    pub finals: Vec<Final>,
}

impl<L: PhaseLocker> Progress<L> {
    /// A run of this plan before its first step. All memory is taken here, for so many steps.
    ///
    /// # Errors
    ///
    /// `AllocError` where memory is short.
    pub fn new(alloc: Global, plan: &Plan, count: u32) -> Result<Progress<L>, AllocError>
        requires parties { plan.now.parties < most_parties }
        requires cells { length plan.now.cells.items < 2 ^ 32 }
        requires places { TakesPlaces L.takes plan.now.cells.items }
        requires shared { AreShared plan.now.cells.items }
        ensures { IfOk result (HasMade L.held L.place (frame_of_plan plan.now count) []) }
    {
        let finals = Vec::with_capacity(alloc, plan.cells.len())?;
        let rows = Rows::new(alloc, plan, count)?;
        let machine = Machine { rows };
        Ok(Progress { machine, finals })
    }

    /// Makes one step more. It takes no memory.
    pub fn step(&mut self, step: &Step) -> Line
        requires { MayStep L.held L.place self.old step.now }
        ensures { Steps L.held L.place self.old step.now result self.new }
    {
        self.machine.perform(step)
    }

    /// What each cell is left with, and the turns of the exit that ended. What is still open is given back. It takes no
    /// memory.
    pub fn finish(self) -> Ending
        requires { MayEnd L.held L.place self }
        ensures { EndsSo L.held L.place self result }
    {
        let Progress {
            machine,
            mut finals,
        } = self;
        let Machine { rows } = machine;
        tell_finals(&rows.cells, &mut finals);
        let exits = rows.close();
        Ending { finals, exits }
    }
}

/// What each cell is left with, in a list that has the room.
fn tell_finals<L: PhaseLocker>(rows: &[CellRow<L>], finals: &mut Vec<Final>)
    requires empty { finals.old.items ≡ [] }
    requires room { length rows.now ≤ vec_capacity finals.old }
    ensures { finals.new.items ≡ map (final_of_row L.held) rows.now }
{
    for row in rows {
        finals.push_reserved(Final {
            phase: row.seq.locker().phase(),
            value: row.value,
        });
    }
}
