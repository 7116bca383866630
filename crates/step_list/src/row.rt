//! One step as a row, beside the values that it has.

ghost use Rattle.std.specs.Prelude.{◌≡◌, ◌++◌, ◌+◌, ◌≤◌, length, vec_capacity, IfOk, IfErr};
ghost use Rattle.step_list.specs.Rows.{count_if, value_if, row_of, step_of, values_in, values_if, values_of, target_of, code_of, is_there};

use lazy_cells::Call;
use schedule_rules::{Act, Step};
use std::alloc::AllocError;

/// What a step does, without the cell or the guard that it names and without its values.
#[derive(Clone, Copy)]
pub enum Code {
    Call(Call),
    Again,
    Made,
    MadeFailed,
    /// Whether the finalizer left a value.
    Finished { leaves: bool },
    /// Whether the finalizer left a value.
    FinishFailed { leaves: bool },
    Look,
    Set,
    Release,
    Downgrade,
    Clone,
    /// Whether the generator, where it runs, makes a value.
    GetMut { makes: bool },
    TryGetMut,
    Exit,
}

/// A step without its values. It takes twelve bytes.
#[derive(Clone, Copy)]
pub struct StepRow {
    /// The number of the party.
    pub party: u32,
    /// The number of the cell or the guard that the step names, or 0 where it names none.
    pub target: u32,
    /// What it does.
    pub code: Code,
}

impl StepRow {
    /// The row of a step, whose values are put behind these.
    ///
    /// # Errors
    ///
    /// `AllocError` where there is no room and memory is short. The values stay as they were.
    pub fn new(step: Step, values: &mut Vec<u64>) -> Result<StepRow, AllocError>
        ensures row { IfOk result (λ row. row ≡ row_of step) }
        ensures pushed { IfOk result (λ _. values.new.items ≡ values.old.items ++ values_in step.act) }
        ensures stays { IfErr result (λ _. values.new.items ≡ values.old.items) }
    {
        let party = step.party;
        let (target, code) = keep(step.act, values)?;
        Ok(StepRow {
            party,
            target,
            code,
        })
    }

    /// The step of this row, whose values are the first of these, and how many values that are.
    pub fn step(self, values: &[u64]) -> (Step, usize)
        requires { values_of self.code ≤ length values.now }
        ensures step { result.0 ≡ step_of self values.now }
        ensures count { result.1 ≡ values_of self.code }
    {
        let (party, cell, guard) = (self.party, self.target, self.target);
        let (act, count) = match self.code {
            Code::Call(call) => (Act::Call { cell, call }, 0),
            Code::Again => (Act::Again, 0),
            Code::Made => (Act::Made { value: values[0] }, 1),
            Code::MadeFailed => (Act::MadeFailed, 0),
            Code::Finished { leaves } => {
                let left = value_if(leaves, values);
                (Act::Finished { left }, usize::from(leaves))
            }
            Code::FinishFailed { leaves } => {
                let left = value_if(leaves, values);
                (Act::FinishFailed { left }, usize::from(leaves))
            }
            Code::Look => (Act::Look { guard }, 0),
            Code::Set => {
                let value = values[0];
                (Act::Set { guard, value }, 1)
            }
            Code::Release => (Act::Release { guard }, 0),
            Code::Downgrade => (Act::Downgrade { guard }, 0),
            Code::Clone => (Act::Clone { guard }, 0),
            Code::GetMut { makes } => {
                let made = value_if(makes, &values[1..]);
                let left = values[0];
                (Act::GetMut { cell, made, left }, usize::from(makes) + 1)
            }
            Code::TryGetMut => {
                let left = values[0];
                (Act::TryGetMut { cell, left }, 1)
            }
            Code::Exit => (Act::Exit, 0),
        };
        (Step { party, act }, count)
    }
}

/// The first of these values, where one is there.
fn value_if(is_there: bool, values: &[u64]) -> Option<u64>
    requires { count_if is_there ≤ length values.now }
    ensures { result ≡ value_if is_there values.now }
{
    if is_there { Some(values[0]) } else { None }
}

/// What a row keeps of an act, whose values are put behind these.
fn keep(act: Act, values: &mut Vec<u64>) -> Result<(u32, Code), AllocError>
    ensures kept { IfOk result (λ kept. kept ≡ (target_of act, code_of act)) }
    ensures pushed { IfOk result (λ _. values.new.items ≡ values.old.items ++ values_in act) }
    ensures stays { IfErr result (λ _. values.new.items ≡ values.old.items) }
{
    let kept = match act {
        Act::Call { cell, call } => (cell, Code::Call(call)),
        Act::Again => (0, Code::Again),
        Act::Made { value } => {
            values.push(value)?;
            (0, Code::Made)
        }
        Act::MadeFailed => (0, Code::MadeFailed),
        Act::Finished { left } => {
            values.reserve(1)?;
            let leaves = push_if(values, left);
            (0, Code::Finished { leaves })
        }
        Act::FinishFailed { left } => {
            values.reserve(1)?;
            let leaves = push_if(values, left);
            (0, Code::FinishFailed { leaves })
        }
        Act::Look { guard } => (guard, Code::Look),
        Act::Set { guard, value } => {
            values.push(value)?;
            (guard, Code::Set)
        }
        Act::Release { guard } => (guard, Code::Release),
        Act::Downgrade { guard } => (guard, Code::Downgrade),
        Act::Clone { guard } => (guard, Code::Clone),
        Act::GetMut { cell, made, left } => {
            values.reserve(2)?;
            values.push_reserved(left);
            let makes = push_if(values, made);
            (cell, Code::GetMut { makes })
        }
        Act::TryGetMut { cell, left } => {
            values.push(left)?;
            (cell, Code::TryGetMut)
        }
        Act::Exit => (0, Code::Exit),
    };
    Ok(kept)
}

/// Puts this value behind these, where it is there, and tells whether it is. They have room for it.
fn push_if(values: &mut Vec<u64>, more: Option<u64>) -> bool
    requires { length values.old.items + length (values_if more) ≤ vec_capacity values.old }
    ensures pushed { values.new.items ≡ values.old.items ++ values_if more }
    ensures there { result ≡ is_there more }
{
    match more {
        Some(value) => {
            values.push_reserved(value);
            true
        }
        None => false,
    }
}
