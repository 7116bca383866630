//! The program over memory: what it does with a text, without standard input and output.

ghost use Rattle.std.specs.Prelude.{ℕ, ◌≡◌, List, [], IfOk, Some};
ghost use Rattle.std.specs.declared.option.Option.{Option};
ghost use Rattle.phase_run.specs.Runs.{IsWritten};
ghost use Rattle.phase_run.specs.Statuses.{OnDone};

use phase_run::{MemSink, MemSource, Status, run_program};
use std::alloc::{AllocError, Global};

/// How a run ended, and what it wrote.
#[derive(Drop)]
pub struct Ended {
    pub status: Status,
    pub written: Vec<u8>,
}

/// Runs the program on a text, with room for so many bytes of the transcript. Where it is done, what was written is the
/// text of a legal transcript.
pub fn run_in_memory(alloc: Global, text: Vec<u8>, room: usize) -> Result<Ended, AllocError>
    ensures { IfOk result (λ ended. OnDone ended.status
        ((rest : Option (List ℕ)) × IsWritten [] (Some text.items) rest Status.Done (Some []) (Some ended.written.items))) }
{
    // No call of the source or of the sink is listed as one that fails.
    let mut source = MemSource::new(text, Vec::new(alloc));
    let mut sink = MemSink::new(alloc, room, Vec::new(alloc))?;
    let status = run_program(alloc, &[], &mut source, &mut sink);
    let mut written = Vec::new(alloc);
    written.extend_from_slice(sink.given())?;
    Ok(Ended { status, written })
}
