//! Begins the run of the schedule that a text spells.

ghost use Rattle.std.specs.Prelude.{◌≡◌, ◌≤◌, ◌<◌, ◌^◌, [], length, IfOk, IfErr};
ghost use Rattle.phase_schedule.specs.Running.{HasMade};
ghost use Rattle.schedule_rules.specs.Transcripts.{Schedule, schedule_of};
ghost use Rattle.schedule_text.specs.ScheduleText.{most_bytes};
ghost use Rattle.phase_run.specs.Steps.{SpellsOnly, IsBegun};
ghost use Rattle.phase_run.specs.Stops.{StopsRun, StopsAnswer};

use crate::stop::Stop;
use phase_schedule::{Plan, ReadError, Run, RunError, StepList, read_schedule};
use std::alloc::Global;

/// The plan and the steps of a text, which is let go.
fn read_plan(alloc: Global, text: Vec<u8>) -> Result<(Plan, StepList), Stop>
    requires { length text.items ≤ most_bytes }
    ensures read { IfOk result (λ r. SpellsOnly text.items (schedule_of r.0 r.1)) }
    ensures stops { IfErr result (StopsAnswer text.items) }
{
    match read_schedule(alloc, &text) {
        Ok(read) => Ok(read),
        Err(ReadError::BadLine(_)) => Err(Stop::BadLine),
        Err(ReadError::Memory) => Err(Stop::Memory),
    }
}

/// The run of a plan, which is let go, and of its steps.
fn begin_plan(alloc: Global, plan: Plan, steps: StepList) -> Result<Run, Stop>
    requires cells { length plan.cells.items < 2 ^ 32 }
    requires steps { length steps < 2 ^ 32 }
    ensures made { IfOk result (HasMade (schedule_of plan steps) []) }
    ensures stops { IfErr result (StopsRun (schedule_of plan steps)) }
{
    match Run::new(alloc, &plan, steps) {
        Ok(run) => Ok(run),
        Err(RunError::Memory) => Err(Stop::Memory),
        Err(_) => Err(Stop::Refused),
    }
}

/// The run of the schedule that a text spells, before its first step. It stops where the text is not that of a schedule
/// that can be run.
pub fn begin(alloc: Global, text: Vec<u8>) -> Result<Run, Stop>
    requires { length text.items ≤ most_bytes }
    ensures begun { IfOk result (IsBegun text.items) }
    ensures stops { IfErr result (StopsAnswer text.items) }
{
    let (plan, steps) = read_plan(alloc, text)?;
    begin_plan(alloc, plan, steps)
}
