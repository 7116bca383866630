//! The moves of an engine: what a step does to the rows of cells, parties and steps, to who is parked and to the exit, a
//! piece at a time. What the rows stand for is a *standing*: what stands open, what is published, and where the exit
//! stands. Each move is proved once, over the contracts of `phase_seq`, `phase_locker` and `exit_registry`, to make of
//! rows that stand for something the rows that stand for its move.
#![tactic(auto)]

mod attempt;
mod calls;
mod close;
mod ends;
mod exit;
mod fresh;
mod lend;
mod look_up;
mod moves;
mod rows;

pub use lend::{Lent, Loan};
pub use look_up::{Held, Running};
pub use rows::{CellRow, Draft, Exit, GuardRow, OpenRun, PartyRow, Rows, RunRow, Taken, Target};
