//! The causes for which a schedule does not run.

ghost use Rattle.std.specs.Prelude.{◌≡◌, ◌<◌, ◌^◌, length};
ghost use Rattle.schedule_rules.specs.Kinds.{is_placed};
ghost use Rattle.schedule_rules.specs.Transcripts.{names_known_cell, schedule_of};
ghost use Rattle.phase_schedule.specs.Errors.{cause_of, cause_of_plan, first_found, misplaced_of, unknown_of};

use crate::error::RunError;
use schedule_rules::{Act, CellPlan, Kind, Place, Plan, Step};
use step_list::StepList;

/// A schedule has fewer parties than this.
const MOST_PARTIES: u32 = 1 << 20;

/// Why the schedule does not run, where there is a cause.
pub fn cause(plan: &Plan, steps: &[Step]) -> Option<RunError>
    requires cells { length plan.now.cells.items < 2 ^ 32 }
    requires steps { length steps.now < 2 ^ 32 }
    ensures { result ≡ cause_of (schedule_of plan.now steps.now) }
{
    match plan_cause(plan) {
        Some(error) => Some(error),
        None => unknown_step(plan, steps),
    }
}

/// Why the schedule of these steps does not run, where there is a cause.
pub fn cause_of_list(plan: &Plan, steps: &StepList) -> Option<RunError>
    requires cells { length plan.now.cells.items < 2 ^ 32 }
    requires steps { length steps.now < 2 ^ 32 }
    ensures { result ≡ cause_of (schedule_of plan.now steps.now) }
{
    match plan_cause(plan) {
        Some(error) => Some(error),
        None => unknown_step_of_list(plan, steps),
    }
}

/// Why a plan does not run, where there is a cause.
pub fn plan_cause(plan: &Plan) -> Option<RunError>
    requires { length plan.now.cells.items < 2 ^ 32 }
    ensures { result ≡ cause_of_plan plan.now.parties plan.now.cells.items }
{
    if plan.parties >= MOST_PARTIES {
        return Some(RunError::TooManyParties);
    }
    misplaced_cell(plan.parties, &plan.cells)
}

/// The first cell that can't be at its place.
fn misplaced_cell(parties: u32, cells: &[CellPlan]) -> Option<RunError>
    requires { length cells.now < 2 ^ 32 }
    ensures { result ≡ first_found (misplaced_of parties) 0 cells.now }
{
    for (c, cell) in cells.iter().enumerate() {
        if let Some(error) = misplaced(parties, c as u32, cell) {
            return Some(error);
        }
    }
    None
}

/// That the cell with this number can't be at its place.
fn misplaced(parties: u32, c: u32, cell: &CellPlan) -> Option<RunError>
    ensures { result ≡ misplaced_of parties c cell.now }
{
    if is_placed(parties, cell.kind, cell.place) {
        None
    } else {
        Some(RunError::BadPlan { cell: c })
    }
}

/// Whether so many parties may have a cell of this kind at this place.
fn is_placed(parties: u32, kind: Kind, place: Place) -> bool
    ensures { result ≡ is_placed parties kind place }
{
    match place {
        Place::Park | Place::Spin => true,
        Place::Own(party) => matches!(kind, Kind::Lazy | Kind::LockedLazy) && party < parties,
    }
}

/// The first step that names a party or a cell that the plan does not have.
fn unknown_step(plan: &Plan, steps: &[Step]) -> Option<RunError>
    requires { length steps.now < 2 ^ 32 }
    ensures { result ≡ first_found (unknown_of plan.now.parties (length plan.now.cells.items)) 0 steps.now }
{
    for (i, s) in steps.iter().enumerate() {
        if let Some(error) = unknown(plan, i as u32, s) {
            return Some(error);
        }
    }
    None
}

/// The first step of a list that does so.
fn unknown_step_of_list(plan: &Plan, steps: &StepList) -> Option<RunError>
    requires { length steps.now < 2 ^ 32 }
    ensures { result ≡ first_found (unknown_of plan.now.parties (length plan.now.cells.items)) 0 steps.now }
{
    let mut left = steps.iter();
    let mut n = 0;
    while let Some(step) = left.next() {
        if let Some(error) = unknown(plan, n, &step) {
            return Some(error);
        }
        n += 1;
    }
    None
}

/// What the step with this number names that the plan does not have. The party is looked at first.
fn unknown(plan: &Plan, n: u32, s: &Step) -> Option<RunError>
    ensures { result ≡ unknown_of plan.now.parties (length plan.now.cells.items) n s.now }
{
    if s.party >= plan.parties {
        return Some(RunError::UnknownParty { step: n });
    }
    if names_known_cell(plan.cells.len(), s.act) {
        None
    } else {
        Some(RunError::UnknownCell { step: n })
    }
}

/// Whether the act names no cell, or one of so many.
fn names_known_cell(cells: usize, act: Act) -> bool
    ensures { result ≡ names_known_cell cells act }
{
    match act {
        Act::Call { cell, .. } => (cell as usize) < cells,
        Act::GetMut { cell, .. } => (cell as usize) < cells,
        Act::TryGetMut { cell, .. } => (cell as usize) < cells,
        _ => true,
    }
}
