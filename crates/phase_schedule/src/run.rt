//! Whole runs.

ghost use Rattle.std.specs.Prelude.{◌≡◌, ◌<◌, ◌^◌, length, None, IfOk, IfErr, IsOkUnless};
ghost use Rattle.schedule_rules.specs.Transcripts.{schedule_of, account_of, IsValid, IsLegalTranscript};
ghost use Rattle.phase_schedule.specs.Errors.{cause_of, IsCause};
ghost use Rattle.phase_schedule.specs.Known.{AreKnown};
ghost use Rattle.phase_schedule.specs.Progress.{TakesPlaces};

use crate::cause::cause;
use crate::ending::Ending;
use crate::error::RunError;
use crate::progress::Progress;
use phase_locker::{HolderLocker, PhaseLocker};
use schedule_rules::{Plan, Step, Transcript};
use std::alloc::{AllocError, Global};

/// Runs a schedule. All memory is taken before the first step, and every cause but want of memory is looked for before
/// any memory is taken. This project's own.
///
/// # Errors
///
/// `TooManyParties` for 2^20 parties or more, else `BadPlan` at the first cell that can't belong to its party, else
/// `UnknownParty` or `UnknownCell` at the first step that names one, the party first; `Memory` where memory ran out.
pub fn run_schedule(alloc: Global, plan: &Plan, steps: &[Step]) -> Result<Transcript, RunError>
    requires cells { length plan.now.cells.items < 2 ^ 32 }
    requires steps { length steps.now < 2 ^ 32 }
    ensures valid { IfOk result (λ _. IsValid (schedule_of plan.now steps.now)) }
    ensures legal { IfOk result (λ t. IsLegalTranscript (schedule_of plan.now steps.now) (account_of t)) }
    ensures known { IfOk result (λ t. AreKnown t.finals.items) }
    ensures cause { IfErr result (IsCause (cause_of (schedule_of plan.now steps.now))) }
    // What can be run is run, unless memory runs out.
    ensures complete { IsValid (schedule_of plan.now steps.now) → IsOkUnless result RunError.Memory }
{
    if let Some(error) = cause(plan, steps) {
        return Err(error);
    }
    Ok(run_on::<HolderLocker>(alloc, plan, steps)?)
}

/// Runs a schedule without a cause over lockers of this type.
fn run_on<L: PhaseLocker>(
    alloc: Global,
    plan: &Plan,
    steps: &[Step],
) -> Result<Transcript, AllocError>
    requires cells { length plan.now.cells.items < 2 ^ 32 }
    requires steps { length steps.now < 2 ^ 32 }
    requires places { TakesPlaces L.takes plan.now.cells.items }
    requires runs { cause_of (schedule_of plan.now steps.now) ≡ None }
    ensures legal { IfOk result (λ t. IsLegalTranscript (schedule_of plan.now steps.now) (account_of t)) }
    ensures known { IfOk result (λ t. AreKnown t.finals.items) }
{
    let mut lines = Vec::with_capacity(alloc, steps.len())?;
    let mut progress = Progress::<L>::new(alloc, plan, steps.len() as u32)?;
    for step in steps {
        lines.push_reserved(progress.step(step));
    }
    let Ending { finals, exits } = progress.finish();
    Ok(Transcript {
        lines,
        finals,
        exits,
    })
}
