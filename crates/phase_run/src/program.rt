//! The program over any source and sink.

ghost use Rattle.std.specs.Prelude.{◌≡◌, ◌≤◌, ◌+◌, ◌↔◌, map, string_bytes, IfOk, IfErr, IfSome, IsSomeAnd, IsTrue};
ghost use Rattle.phase_run.specs.Faults.{Rose};
ghost use Rattle.phase_run.specs.Words.{IsScheduleCall};
ghost use Rattle.schedule_text.specs.ScheduleText.{most_bytes};
ghost use Rattle.phase_run.specs.Runs.{TakesAtMost, Accepted, IsRefused, IsWritten, IsWrittenInPart};
ghost use Rattle.phase_run.specs.Steps.{IsReady};
ghost use Rattle.phase_run.specs.Stops.{StopsBeforeWriting};
ghost use Rattle.phase_run.specs.Statuses.{OnDone, OnUsage, OnBadLine, OnReadFault, OnWriteFault, OnNothingWritten, IsSteady, IsDoneUnlessMemory, IsBadLineUnlessMemory};

use crate::begin::begin;
use crate::read::read_text;
use crate::sink::Sink;
use crate::source::Source;
use crate::status::Status;
use crate::stop::Stop;
use crate::tell::tell;
use phase_schedule::Run;
use schedule_text::Page;
use std::alloc::Global;

/// Whether these are the words of a call that runs a schedule: none, or the one word `schedule`.
fn is_schedule_call(words: &[String]) -> bool
    ensures { IsTrue result ↔ IsScheduleCall (map string_bytes words.now) }
{
    match words {
        [] => true,
        [word] => word.as_str() == "schedule",
        _ => false,
    }
}

/// Reads the source to its end, and begins the run of its schedule, with a page for its transcript. All memory is taken
/// here.
#[tactic(auto, using(crate::proofs::Handed::stops_before))]
fn prepare<S: Source>(alloc: Global, src: &mut S) -> Result<(Run, Page), Stop>
    ensures ready { IfOk result (λ r. IsReady (S.remaining src.old) (S.remaining src.new) r.0 r.1) }
    ensures stops { IfErr result (StopsBeforeWriting (S.remaining src.old) (S.faults src.old) (S.faults src.new)) }
    ensures taken { TakesAtMost (most_bytes + 1) (S.remaining src.old) (S.remaining src.new) }
    ensures steady { S.faults src.old ≤ S.faults src.new }
{
    let Ok(page) = Page::new(alloc) else {
        return Err(Stop::Memory);
    };
    let text = read_text(alloc, src)?;
    let run = begin(alloc, text)?;
    Ok((run, page))
}

/// Reads the text of a schedule from the source to its end, runs it, and writes its transcript to the sink.
///
/// The words are none, or the one word `schedule`. What comes out is tested in this order: the words, the source, the
/// text, the sink. Memory may run out at any time before the first byte is written. What is said of the bytes of the
/// source and of the sink is said where they tell them.
pub fn run_program<S: Source, K: Sink>(
    alloc: Global,
    words: &[String],
    src: &mut S,
    out: &mut K,
) -> Status
    // What is due is written whole: all that was read is the text of a valid schedule, and what was written that of a legal
    // transcript of it.
    ensures whole { OnDone result (IsWritten (map string_bytes words.now) (S.remaining src.old) (S.remaining src.new)
        Status.Done (K.given out.old) (K.given out.new)) }
    // Where the sink fails, the first bytes of what is due are written.
    ensures part { OnWriteFault result (IsWrittenInPart (map string_bytes words.now) (S.remaining src.old) (S.remaining src.new)
        Status.Done (K.given out.old) (K.given out.new)) }
    // Under every other status nothing is written.
    ensures unwritten { OnNothingWritten result (out.new ≡ out.old) }
    // Other words are refused, and nothing is read.
    ensures usage { (result ≡ Status.Usage) ↔ (¬ (IsScheduleCall (map string_bytes words.now))) }
    ensures unread { OnUsage result (src.new ≡ src.old) }
    // The source failed, the sink failed.
    ensures read_fault { OnReadFault result (Rose (S.faults src.old) (S.faults src.new)) }
    ensures write_fault { OnWriteFault result (Rose (K.faults out.old) (K.faults out.new)) }
    // There are too many bytes, they are no text of a schedule, or its schedule cannot be run.
    ensures bad_line { OnBadLine result (IfSome (S.remaining src.old) IsRefused) }
    // Such bytes are refused where the source does not fail, unless memory runs out.
    ensures refused { IsScheduleCall (map string_bytes words.now)
        → IsSomeAnd (S.remaining src.old) IsRefused
        → ¬ (Rose (S.faults src.old) (S.faults src.new))
        → IsBadLineUnlessMemory result }
    // The text of a valid schedule is answered where nothing fails, unless memory runs out.
    ensures complete { IsScheduleCall (map string_bytes words.now)
        → IsSomeAnd (S.remaining src.old) Accepted
        → ¬ (Rose (S.faults src.old) (S.faults src.new))
        → ¬ (Rose (K.faults out.old) (K.faults out.new))
        → IsDoneUnlessMemory result }
    // How much is read, whatever comes out, and that the counts of faults do not fall.
    ensures taken { TakesAtMost (most_bytes + 1) (S.remaining src.old) (S.remaining src.new) }
    ensures steady { IsSteady (S.faults src.old) (S.faults src.new) (K.faults out.old) (K.faults out.new) }
{
    if !is_schedule_call(words) {
        return Status::Usage;
    }
    match prepare(alloc, src) {
        Err(Stop::Fault) => Status::ReadFault,
        Err(Stop::TooLong) => Status::BadLine,
        Err(Stop::BadLine) => Status::BadLine,
        Err(Stop::Refused) => Status::BadLine,
        Err(Stop::Memory) => Status::Memory,
        Ok((run, page)) => match tell(out, run, page) {
            Ok(()) => Status::Done,
            Err(_) => Status::WriteFault,
        },
    }
}
