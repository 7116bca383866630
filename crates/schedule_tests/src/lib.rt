//! Tests of the crates that run schedules. They stand apart from what they test, so that the gate proves each library once,
//! and not once more beside its tests. What each act answers is told by the `examples/`, which `example_runs` runs.
//!
//! - `reading`, `bad_lines`, `printing`: the texts (`schedule_text`).
//! - `runs`: whole runs, runs line by line and engines (`phase_schedule`).
//! - `program`: the program over memory and over std's readers and writers (`phase_run`).

#![tactic(auto)]

#[cfg(test)]
mod bad_lines;
#[cfg(test)]
mod printing;
#[cfg(test)]
mod program;
#[cfg(test)]
mod reading;
#[cfg(test)]
mod runs;
#[cfg(test)]
mod ways;
