//! A schedule that is built in code, run, and printed.

ghost use Rattle.std.specs.Prelude.{◌≡◌, ◌^◌, ◌<◌, IfOk, length};
ghost use Rattle.schedule_rules.specs.Transcripts.{Account, IsLegalTranscript, schedule_of};
ghost use Rattle.schedule_text.specs.TranscriptText.{transcript_text};

use phase_schedule::{
    Act, Call, CellPlan, Kind, Place, Plan, RunError, Step, print_transcript, run_schedule,
};
use schedule_rules::no_turn_is_busy;
use std::alloc::{AllocError, Global};

/// A cell that a read or a write initializes, and whose barred calls park.
const CELL: CellPlan = CellPlan {
    kind: Kind::LockedLazy,
    retry: true,
    leak: false,
    place: Place::Park,
    prime: 0,
};

/// A plan of two parties and one cell.
pub fn two_parties(alloc: Global) -> Result<Plan, AllocError>
    ensures parties { IfOk result (λ plan. plan.parties ≡ 2) }
    ensures cells { IfOk result (λ plan. length plan.cells.items ≡ 1) }
{
    let cells = vec![in alloc; CELL]?;
    Ok(Plan { parties: 2, cells })
}

/// Party 0 makes the value and writes on, while party 1 asks to read.
pub fn a_reader_waits() -> [Step; 3] {
    let asks = |party, call| Step {
        party,
        act: Act::Call { cell: 0, call },
    };
    let made = Act::Made { value: 22 };
    [
        asks(0, Call::Write),
        Step {
            party: 0,
            act: made,
        },
        asks(1, Call::Read),
    ]
}

/// Runs a schedule. What is answered is the text of a legal transcript of it.
pub fn run_and_print(alloc: Global, plan: &Plan, steps: &[Step]) -> Result<Vec<u8>, RunError>
    requires cells { length plan.now.cells.items < 2 ^ 32 }
    requires steps { length steps.now < 2 ^ 32 }
    ensures { IfOk result (λ text.
        (t : Account) × IsLegalTranscript (schedule_of plan.now steps.now) t × (text.items ≡ transcript_text t)) }
{
    let transcript = run_schedule(alloc, plan, steps)?;
    // A law: no turn of a legal transcript is busy, so each has a text. `proofs/` applies it in one line.
    no_turn_is_busy();
    Ok(print_transcript(alloc, &transcript)?)
}
