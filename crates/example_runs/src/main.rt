//! Runs each example, and says whether the program writes the transcript that lies beside it. It stands on `phase_run`.
#![tactic(auto)]

use phase_run::{MemSink, MemSource, Status, run_program};
use std::rt::Files;
use std::{fs, io};

/// The examples, by the names of their files.
const NAMES: [&str; 23] = [
    "first",
    "readers_and_a_writer",
    "nested_generators",
    "a_failing_generator",
    "refusals",
    "a_hand_over",
    "downgrade_and_clone",
    "a_generator_that_runs_once",
    "a_round_and_a_late_cell",
    "a_turn_skips_a_cell",
    "a_refused_registration",
    "a_value_without_guards",
    "a_service",
    "a_primed_cell",
    "a_dropped_value",
    "own_cells",
    "calls_that_do_not_wait",
    "a_value_lent",
    "answers_of_each_kind",
    "parked_readers_and_writers",
    "values_lent_in_turn",
    "a_finalizer_that_waits",
    "turns_latest_first",
];

/// More bytes than any of their transcripts has.
const ROOM: usize = 65_536;

/// Whether the program ends well on the example, and writes the transcript that lies beside it.
fn is_as_written<R: Files + AllocGlobal>(rt: &R, name: &str) -> io::Result<bool> {
    let alloc = rt.alloc();
    let schedule = fs::read(rt, format!(in alloc; "{name}.schedule")?.as_str())?;
    let transcript = fs::read(rt, format!(in alloc; "{name}.transcript")?.as_str())?;
    let mut source = MemSource::new(schedule, Vec::new(alloc));
    let mut sink = MemSink::new(alloc, ROOM, Vec::new(alloc))?;
    let status = run_program(alloc, &[], &mut source, &mut sink);
    Ok(status == Status::Done && sink.given() == transcript.as_slice())
}

fn main(rt: HostRuntime) -> io::Result<()> {
    for name in NAMES {
        let verdict = if is_as_written(&rt, name)? {
            "as written"
        } else {
            "differs"
        };
        println!(rt; "{name}: {verdict}")?;
    }
    Ok(())
}
