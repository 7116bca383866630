//! Callers of the crates below, as a user writes them. Each file is one story:
//!
//! - `plugins`: a host shuts two plugins down in the opposite order of their start. It is the one to read first.
//! - `service`: cells are started, used, and finalized by the exit.
//! - `configuration`, `kinds`: a caller of each kind of lazies.
//! - `shared_value`: a value is made once, and read by two.
//! - `stepping`: a harness makes the steps of an engine one by one, over lockers of its own, and looks at who waits.
//! - `built`: a schedule is built in code, run and printed.
//! - `kept_steps`: the steps of a schedule are kept small, and taken one by one.
//! - `from_text`: a schedule is read from text, and its errors are told.
//! - `parked`: a reader waits behind a writer.
//! - `access`: a phase says whether a value may be read.
//! - `in_memory`: the whole program runs over memory.
#![tactic(auto)]

mod access;
mod built;
mod configuration;
mod from_text;
mod in_memory;
mod kept_steps;
mod kinds;
mod parked;
mod plugins;
mod service;
mod shared_counter;
mod shared_value;
mod stepping;
#[cfg(test)]
mod tests;

pub use access::read_at;
pub use built::{a_reader_waits, run_and_print, two_parties};
pub use configuration::port;
pub use from_text::{TextError, run_text};
pub use in_memory::{Ended, run_in_memory};
pub use kept_steps::take_first;
pub use kinds::{count, enqueue, log_file, setting};
pub use parked::{Barred, read_behind_a_writer};
pub use plugins::{Plugin, run_host};
pub use service::{Pool, Served, ServiceError, connect, serve, stop};
pub use shared_counter::count_together;
pub use shared_value::{Seen, read_by_two};
pub use stepping::{step_and_look, watch_a_reader};
