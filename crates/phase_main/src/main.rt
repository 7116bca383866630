//! Reads a schedule from the standard input, runs it, and writes its transcript to the standard output. The status tells
//! how it ended; nothing else is printed. It stands on `phase_run`, which has the program over any source and sink.
#![tactic(auto)]

ghost use Rattle.std.specs.Prelude.{IfErr};
ghost use Rattle.phase_run.specs.Statuses.{IsUsageOrMemory};

use phase_run::{Status, StdSink, StdSource, run_program};
use std::alloc::AllocError;
use std::env;
use std::io::ErrorKind;
use std::process::ExitCode;

/// The words that the program was called with, without its own name. One that is no text is refused.
fn words_of(rt: &HostRuntime) -> Result<Vec<String>, Status>
    ensures { IfErr result IsUsageOrMemory }
{
    let words = match env::args(rt) {
        Ok(words) => words,
        Err(e) if e.kind() == ErrorKind::OutOfMemory => return Err(Status::Memory),
        Err(_) => return Err(Status::Usage),
    };
    let named: Result<Vec<String>, AllocError> = words.skip(1).collect(rt.alloc());
    match named {
        Ok(words) => Ok(words),
        Err(_) => Err(Status::Memory),
    }
}

fn main(rt: HostRuntime) -> ExitCode {
    let status = match words_of(&rt) {
        Ok(words) => {
            let mut source = StdSource::new(rt.stdin());
            let mut sink = StdSink::new(rt.stdout());
            run_program(rt.alloc(), &words, &mut source, &mut sink)
        }
        Err(status) => status,
    };
    ExitCode::from(status.code())
}
