//! Goes over steps in their order.

ghost use Rattle.std.specs.Prelude.{◌≡◌, length};
ghost use Rattle.step_list.specs.Steps.{count_values, steps_of, TakesFirst};

use crate::row::StepRow;
use schedule_rules::Step;
use std::marker::Model;

/// Goes over the steps of a list in their order, and copies each. It takes no memory.
///
/// A contract sees the steps that are left.
#[derive(Drop)]
pub struct StepIter<'a> {
    rows: &'a [StepRow],
    values: &'a [u64],
}

impl<'a> Model for StepIter<'a> {
    ghost use Rattle.std.specs.Prelude.{List, ◌≡◌, length};
    ghost use Rattle.schedule_rules.specs.declared.step.Step.{Step};

    ghost Value = { List Step };

    ghost use Rattle.step_list.specs.Steps.{count_values, steps_of};

    ghost view = { λ it. steps_of it.rows.now it.values.now };

    ghost invariant = { λ it. count_values it.rows.now ≡ length it.values.now };
}

impl<'a> StepIter<'a> {
    /// Goes over the steps of these rows, which have these values.
    pub(crate) fn new(rows: &'a [StepRow], values: &'a [u64]) -> StepIter<'a>
        requires { count_values rows.now ≡ length values.now }
        ensures { result ≡ steps_of rows.now values.now }
    {
        StepIter { rows, values }
    }

    /// The first step that is left, where there is one.
    pub fn next(&mut self) -> Option<Step>
        ensures { TakesFirst self.old result self.new }
    {
        let (row, rows) = self.rows.split_first()?;
        let (step, count) = row.step(self.values);
        self.values = &self.values[count..];
        self.rows = rows;
        Some(step)
    }
}
