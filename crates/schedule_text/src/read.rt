//! Reads a schedule from its text.

ghost use Rattle.std.specs.Prelude.{◌≡◌, ◌≤◌, length, IfOk, IfErr, MatchResult};
ghost use Rattle.schedule_rules.specs.Transcripts.{Schedule, schedule_of};
ghost use Rattle.schedule_text.specs.ScheduleText.{Spells, most_bytes};
ghost use Rattle.schedule_text.specs.Reading.{IsMemory, IsUnnumbered};
ghost use Rattle.schedule_text.specs.declared.read.ReadError.TheVariants.{Memory};

mod act;
mod field;
mod line;

use schedule_rules::Plan;
use std::alloc::{AllocError, Global};
use step_list::StepList;
use thiserror::Error;

/// Why a text is not read.
#[derive(Debug, Drop, Error)]
pub enum ReadError {
    /// A line is none that may stand at its place. The number is 0: which line it is is not told yet.
    #[error("bad line {0}")]
    BadLine(u32),
    /// Memory ran out.
    #[error("out of memory")]
    Memory,
}

impl From<AllocError> for ReadError {
    ghost from_gives = { λ _ e. e ≡ Memory };

    fn from(_e: AllocError) -> ReadError {
        ReadError::Memory
    }
}

/// Reads the schedule that the text spells. It passes over the bytes once.
pub fn read_schedule(alloc: Global, text: &[u8]) -> Result<(Plan, StepList), ReadError>
    requires { length text.now ≤ most_bytes }
    // What is read is spelled so.
    ensures found { IfOk result (λ r. Spells text.now (schedule_of r.0 r.1)) }
    // What spells a schedule is read as that one, unless memory runs out.
    ensures only { (x : Schedule) → Spells text.now x → MatchResult result (λ r. schedule_of r.0 r.1 ≡ x) IsMemory }
    // The number of a bad line is not told yet.
    ensures bad { IfErr result IsUnnumbered }
{
    let Some((parties, rest)) = line::parties(text) else {
        return Err(ReadError::BadLine(0));
    };
    let (cells, rest) = line::cells(alloc, rest)?;
    let Some(rest) = field::after_word(rest, b"steps\n") else {
        return Err(ReadError::BadLine(0));
    };
    let (steps, rest) = line::steps(alloc, rest)?;
    if !line::is_end(rest) {
        return Err(ReadError::BadLine(0));
    }
    Ok((Plan { parties, cells }, steps))
}
