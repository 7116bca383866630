//! The steps of a schedule, kept small: a row of twelve bytes for each step, and beside the rows the values of all steps.
//! It stands on `schedule_rules` for what a step is, and on `lazy_cells` for the calls.
#![tactic(auto)]

mod iter;
mod list;
mod row;
#[cfg(test)]
mod tests;

pub use iter::StepIter;
pub use list::StepList;
