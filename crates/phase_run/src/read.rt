//! Reads a source to its end.

ghost use Rattle.std.specs.Prelude.{◌≤◌, ◌+◌, ◌^◌, length, IfOk, IfErr};
ghost use Rattle.schedule_text.specs.ScheduleText.{most_bytes};
ghost use Rattle.phase_run.specs.Runs.{TakesAtMost};
ghost use Rattle.phase_run.specs.Steps.{IsWhole};
ghost use Rattle.phase_run.specs.Stops.{StopsReading};

use crate::source::Source;
use crate::stop::Stop;
use std::alloc::Global;

/// The most bytes that a text has.
pub const MOST_BYTES: usize = 16_777_216;

/// How many bytes are asked for at a time, at most.
const BLOCK: usize = 65_536;

/// Reads the source to its end. It stops where the source fails, and where there are more bytes than a text may have.
pub fn read_text<S: Source>(alloc: Global, src: &mut S) -> Result<Vec<u8>, Stop>
    ensures fits { IfOk result (λ text. length text.items ≤ most_bytes) }
    ensures whole { IfOk result (λ text. IsWhole (S.remaining src.old) (S.remaining src.new) text.items) }
    ensures stops { IfErr result (StopsReading (S.remaining src.old) (S.faults src.old) (S.faults src.new)) }
    ensures taken { TakesAtMost (most_bytes + 1) (S.remaining src.old) (S.remaining src.new) }
    ensures steady { S.faults src.old ≤ S.faults src.new }
{
    let Ok(mut block) = vec![in alloc; 0u8; BLOCK] else {
        return Err(Stop::Memory);
    };
    let mut text = Vec::new(alloc);
    while text.len() <= MOST_BYTES {
        let room = BLOCK.min(MOST_BYTES + 1 - text.len());
        let window = &mut block[..room];
        let Ok(n) = src.take(window) else {
            return Err(Stop::Fault);
        };
        if n == 0 {
            return Ok(text);
        }
        if text.extend_from_slice(&window[..n]).is_err() {
            return Err(Stop::Memory);
        }
    }
    Err(Stop::TooLong)
}
