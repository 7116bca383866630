//! The steps of a schedule as a list that is added to at its end and taken from at its front.

ghost use Rattle.std.specs.Prelude.{◌≡◌, ◌++◌, ◌∷◌, [], length, IfOk, IfErr};
ghost use Rattle.step_list.specs.Steps.{TakesFirst};

use crate::iter::StepIter;
use crate::row::StepRow;
use schedule_rules::Step;
use std::alloc::{AllocError, Global};
use std::marker::Model;

/// The steps of a schedule in their order: a step is added at the end, and the first one is taken. It takes twelve bytes
/// for each step, and eight for each value that a step has. What a step takes is given back with the list alone.
///
/// A contract sees the steps that were not taken.
#[derive(Drop)]
pub struct StepList {
    /// A row for each step that was added.
    rows: Vec<StepRow>,
    /// Their values.
    values: Vec<u64>,
    /// How many steps were taken.
    row: usize,
    /// How many values these had.
    value: usize,
}

impl Model for StepList {
    ghost use Rattle.std.specs.Prelude.{List};
    ghost use Rattle.schedule_rules.specs.declared.step.Step.{Step};

    ghost Value = { List Step };

    ghost use Rattle.step_list.specs.Lists.{steps_in, IsKept};

    ghost view = { steps_in };

    ghost invariant = { IsKept };
}

impl StepList {
    /// No steps, with room for so many steps, and for so many values of theirs.
    ///
    /// # Errors
    ///
    /// `AllocError` where memory is short.
    pub fn with_capacity(alloc: Global, steps: usize, values: usize) -> Result<StepList, AllocError>
        ensures { IfOk result (λ list. list ≡ []) }
    {
        let rows = Vec::with_capacity(alloc, steps)?;
        let values = Vec::with_capacity(alloc, values)?;
        Ok(StepList {
            rows,
            values,
            row: 0,
            value: 0,
        })
    }

    /// These steps.
    ///
    /// # Errors
    ///
    /// `AllocError` where memory is short.
    pub fn from_slice(alloc: Global, steps: &[Step]) -> Result<StepList, AllocError>
        ensures { IfOk result (λ list. list ≡ steps.now) }
    {
        let mut list = StepList::with_capacity(alloc, steps.len(), 0)?;
        for step in steps {
            list.push(*step)?;
        }
        Ok(list)
    }

    /// Adds a step at the end.
    ///
    /// # Errors
    ///
    /// `AllocError` where there is no room and memory is short. The steps stay as they were.
    pub fn push(&mut self, step: Step) -> Result<(), AllocError>
        ensures pushed { IfOk result (λ _. self.new ≡ self.old ++ step ∷ []) }
        ensures stays { IfErr result (λ _. self.new ≡ self.old) }
    {
        self.rows.reserve(1)?;
        let row = StepRow::new(step, &mut self.values)?;
        self.rows.push_reserved(row);
        Ok(())
    }

    /// The number of steps.
    pub fn len(&self) -> usize
        ensures { result ≡ length self.now }
    {
        self.rows.len() - self.row
    }

    /// Goes over the steps in their order, and takes none.
    pub fn iter(&self) -> StepIter<'_>
        ensures { result ≡ self.now }
    {
        StepIter::new(&self.rows[self.row..], &self.values[self.value..])
    }

    /// The steps in their order, as a vector.
    ///
    /// # Errors
    ///
    /// `AllocError` where memory is short.
    pub fn to_vec(&self, alloc: Global) -> Result<Vec<Step>, AllocError>
        ensures { IfOk result (λ steps. steps.items ≡ self.now) }
    {
        let mut steps = Vec::with_capacity(alloc, self.len())?;
        let mut left = self.iter();
        while let Some(step) = left.next() {
            steps.push(step)?;
        }
        Ok(steps)
    }

    /// Takes the first step, where there is one. It takes no memory.
    pub fn pop_front(&mut self) -> Option<Step>
        ensures { TakesFirst self.old result self.new }
    {
        let row = *self.rows.get(self.row)?;
        let (step, count) = row.step(&self.values[self.value..]);
        self.row += 1;
        self.value += count;
        Some(step)
    }
}
