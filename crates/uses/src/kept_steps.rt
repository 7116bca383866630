//! The steps of a schedule, kept small and taken one by one.

ghost use Rattle.std.specs.Prelude.{◌≡◌, ◌-◌, length, slice_get, IfOk};

use schedule_rules::Step;
use std::alloc::{AllocError, Global};
use step_list::StepList;

/// Keeps these steps in rows of twelve bytes, takes the first of them, and tells how many are left.
pub fn take_first(alloc: Global, steps: &[Step]) -> Result<(Option<Step>, usize), AllocError>
    ensures first { IfOk result (λ taken. taken.0 ≡ slice_get steps.now 0) }
    ensures left { IfOk result (λ taken. taken.1 ≡ length steps.now - 1) }
{
    let mut list = StepList::from_slice(alloc, steps)?;
    // Only the list is asked for memory: taking a step asks for none.
    let first = list.pop_front();
    Ok((first, list.len()))
}
