//! Runs schedules: an engine over lockers of any type that keeps its own steps and lines, a run that hands out each line
//! as it is made, and whole runs. It stands on `phase_acts` for one step, on `phase_moves` for the rows that a step
//! changes, on `phase_locker` for the lockers, on `phase_bits` for phases, on `schedule_rules` for what a legal transcript
//! is, on `step_list` for the steps that a run keeps, and on `schedule_text`, whose reader and printer it hands on.
#![tactic(auto)]

mod cause;
mod ending;
mod engine;
mod error;
mod progress;
mod run;
mod running;

pub use ending::Ending;
pub use engine::Engine;
pub use error::RunError;
pub use phase_locker::{HolderLocker, Parks, PhaseLocker, Waiting};
pub use run::run_schedule;
pub use running::Run;
pub use schedule_rules::{
    Act, Answer, Call, CellPlan, Final, Given, How, Kind, Line, Place, Plan, Refusal, Step,
    Transcript, Turn, Turned,
};
pub use schedule_text::{ReadError, print_transcript, read_schedule};
pub use step_list::StepList;
