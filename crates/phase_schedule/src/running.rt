//! A run that hands out each line as it is made, for whoever writes a transcript as it goes.

ghost use Rattle.std.specs.Prelude.{◌≡◌, ◌<◌, ◌^◌, [], length, None, IfOk, IfErr, IsOkUnless};
ghost use Rattle.schedule_rules.specs.Transcripts.{schedule_of, IsValid};
ghost use Rattle.phase_schedule.specs.Errors.{cause_of, IsCause};
ghost use Rattle.phase_schedule.specs.Running.{EndsSo, GoesOn, HasMade, IsRun};

use crate::cause::cause_of_list;
use crate::ending::Ending;
use crate::error::RunError;
use crate::progress::Progress;
use phase_locker::HolderLocker;
use schedule_rules::{Line, Plan};
use std::alloc::Global;
use step_list::StepList;

/// A schedule that runs, and hands out the line of each step as it is made. It keeps no line. It is spent by `finish`.
/// This project's own, as its calls are.
///
/// What a contract says of it, it says for every schedule that it may be of and all lines that it may have handed out.
pub struct Run {
    progress: Progress<HolderLocker>,
    /// Those that were not made yet.
    steps: StepList,
}

impl Run {
    /// A run of this schedule before its first step. All memory is taken here, and every cause but want of memory is
    /// looked for before any memory is taken.
    ///
    /// # Errors
    ///
    /// `TooManyParties` for 2^20 parties or more, else `BadPlan` at the first cell that can't belong to its party, else
    /// `UnknownParty` or `UnknownCell` at the first step that names one, the party first; `Memory` where memory ran out.
    pub fn new(alloc: Global, plan: &Plan, steps: StepList) -> Result<Run, RunError>
        requires cells { length plan.now.cells.items < 2 ^ 32 }
        requires steps { length steps < 2 ^ 32 }
        ensures made { IfOk result (HasMade (schedule_of plan.now steps) []) }
        ensures cause { IfErr result (IsCause (cause_of (schedule_of plan.now steps))) }
        // What can be run is run, unless memory runs out.
        ensures complete { IsValid (schedule_of plan.now steps) → IsOkUnless result RunError.Memory }
    {
        if let Some(error) = cause_of_list(plan, &steps) {
            return Err(error);
        }
        let progress = Progress::new(alloc, plan, steps.len() as u32)?;
        Ok(Run { progress, steps })
    }

    /// Makes the next step, and gives its line; `None` where every step was made. It takes no memory.
    pub fn next_line(&mut self) -> Option<Line>
        requires { IsRun self.old }
        ensures goes { GoesOn self.old result self.new }
        ensures is { IsRun self.new }
    {
        let step = self.steps.pop_front()?;
        Some(self.progress.step(&step))
    }

    /// What each cell is left with, and the turns of the exit that ended. What is still open is given back. It takes no
    /// memory.
    pub fn finish(self) -> Ending
        requires { IsRun self }
        ensures { EndsSo self result }
    {
        let Run { progress, steps } = self;
        drop(steps);
        progress.finish()
    }
}
