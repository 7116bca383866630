//! A schedule that is read from text, and why that may fail.

ghost use Rattle.std.specs.Prelude.{◌≡◌, IfOk};
ghost use Rattle.schedule_rules.specs.Transcripts.{Account, IsLegalTranscript, Schedule};
ghost use Rattle.schedule_text.specs.ScheduleText.{Spells};
ghost use Rattle.schedule_text.specs.TranscriptText.{transcript_text};

use crate::built::run_and_print;
use phase_schedule::{ReadError, RunError, read_schedule};
use std::alloc::Global;
use thiserror::Error;

/// A text has at most so many bytes.
const MOST_BYTES: usize = 1 << 24;

/// Why a text has no transcript, in words for its writer.
#[derive(Debug, Drop, Error)]
pub enum TextError {
    #[error("the text has more than 2^24 bytes")]
    Long,
    #[error("the text is no schedule: {0}")]
    Read(#[from] ReadError),
    #[error("the schedule does not run: {0}")]
    Run(#[from] RunError),
}

/// Runs the schedule that a text spells. What is answered is the text of a legal transcript of it.
pub fn run_text(alloc: Global, text: &[u8]) -> Result<Vec<u8>, TextError>
    ensures { IfOk result (λ told. (x : Schedule) × Spells text.now x
        × (t : Account) × IsLegalTranscript x t × (told.items ≡ transcript_text t)) }
{
    if text.len() > MOST_BYTES {
        return Err(TextError::Long);
    }
    let (plan, steps) = read_schedule(alloc, text)?;
    // Each cell and each step has a line of the text, so there are not so many.
    if plan.cells.len() > MOST_BYTES || steps.len() > MOST_BYTES {
        return Err(TextError::Long);
    }
    let steps = steps.to_vec(alloc).map_err(RunError::from)?;
    Ok(run_and_print(alloc, &plan, &steps)?)
}
