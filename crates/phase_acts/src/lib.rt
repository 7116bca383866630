//! The acts of an engine: one step on its rows, from what stands open after a history to what stands open after one
//! event more. An act is one to three moves of `phase_moves`; here it is proved that its line is legal, so that rows
//! which follow a legal history follow the longer one.
#![tactic(auto)]

mod attempts;
mod exit;
mod guards;
mod lend;
mod line;
mod machine;
mod perform;
mod sections;
mod settle;
mod values;

pub use machine::Machine;
