//! The program over any source of bytes and any sink: reads a schedule, runs it, and writes its transcript as it is made.
//! Its code stands on `phase_schedule` and on the page of `schedule_text`; its contracts speak of what `schedule_rules` and
//! `schedule_text` define.
#![tactic(auto)]

mod begin;
mod failed;
mod memory;
mod program;
mod read;
mod sink;
mod source;
mod standard;
mod status;
mod stop;
mod tell;
mod write;

pub use failed::Failed;
pub use memory::{MemSink, MemSource};
pub use program::run_program;
pub use sink::Sink;
pub use source::Source;
pub use standard::{StdSink, StdSource};
pub use status::Status;
