//! The texts: a schedule is read from its text, and a transcript is printed. It stands on `schedule_rules` for what
//! schedules and transcripts are, on `step_list` for the steps that it reads, on `phase_locker` and `exit_registry` for
//! the waits, gifts and turns that a transcript tells, and on `phase_bits` for the text of a phase.
#![tactic(auto)]

mod print;
mod read;

pub use print::{Page, print_transcript};
pub use read::{ReadError, read_schedule};
