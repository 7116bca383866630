//! Tests of the lazies of one thread (`lazy_cells`). They stand apart from what they test, so that the gate proves the
//! library once, and not once more beside its tests.
//!
//! - `generic`, `locked`: lazies without an exit, plain and behind a lock.
//! - `exit`, `locked_exit`: those that are registered for the exit.
//! - `start`, `started_exit`: lazies that are started before they are used.
//! - `call_table`: each call of a plain lazy at each phase that it can meet.

#![tactic(auto)]

#[cfg(test)]
mod call_table;
#[cfg(test)]
mod exit;
#[cfg(test)]
mod generic;
#[cfg(test)]
mod locked;
#[cfg(test)]
mod locked_exit;
#[cfg(test)]
mod start;
#[cfg(test)]
mod started_exit;
