//! Transcripts are printed.

ghost use Rattle.schedule_rules.specs.Exits.{NoneBusy};

use phase_bits::Phase;
use schedule_rules::{Answer, Final, Given, How, Line, Refusal, Transcript, Turn, Turned};
use schedule_text::print_transcript;
use std::alloc::{AllocError, Global};
use std::test::Fail;

/// The text of the transcript of these lines and finals, without an exit.
fn printed_lines(alloc: Global, lines: &[Line], finals: &[Final]) -> Result<Vec<u8>, AllocError> {
    let lines = Vec::from_slice(alloc, lines)?;
    let finals = Vec::from_slice(alloc, finals)?;
    let exits = Vec::new(alloc);
    print_transcript(
        alloc,
        &Transcript {
            lines,
            finals,
            exits,
        },
    )
}

/// The lines of these answers, where no step gave anything.
fn lines_of(alloc: Global, answers: &[Answer]) -> Result<Vec<Line>, AllocError> {
    let mut lines = Vec::with_capacity(alloc, answers.len())?;
    for answer in answers {
        lines.push(Line {
            answer: *answer,
            given: Given::Nobody,
        })?;
    }
    Ok(lines)
}

/// The text of the transcript of these answers, where no step gave anything, and finals, without an exit.
fn printed(alloc: Global, answers: &[Answer], finals: &[Final]) -> Result<Vec<u8>, AllocError> {
    let lines = lines_of(alloc, answers)?;
    printed_lines(alloc, &lines, finals)
}

/// The text of the transcript of these answers, where no step gave anything, and finals, with the turns of an exit.
fn printed_exit(
    alloc: Global,
    answers: &[Answer],
    finals: &[Final],
    turns: &[Turned],
) -> Result<Vec<u8>, AllocError>
    requires { NoneBusy turns.now }
{
    let lines = lines_of(alloc, answers)?;
    let finals = Vec::from_slice(alloc, finals)?;
    let exits = Vec::from_slice(alloc, turns)?;
    print_transcript(
        alloc,
        &Transcript {
            lines,
            finals,
            exits,
        },
    )
}

const FIRST: &[u8] = b"transcript 1
0 running
1 read-guard
2 value 22
3 done
4 write-guard
5 done
6 done
7 read-guard
8 value 33
cell 0 Phase (Initialized) 33
end
";

const OTHERS: &[u8] = b"transcript 1
0 phase Phase (not initialized)
1 phase Phase (Initialization panicked | Initialization skiped)
2 phase Phase (Initialized | Registered)
3 failed
4 cyclic
5 waiting spin
6 refused 1 Waits
7 refused 2 NotWaiting
8 refused 5 NoGuard
9 refused 6 NotWriter
10 refused 7 NoSection
11 value 18446744073709551615
12 access Phase (Initialization panicked | Initialization skiped)
13 access Phase (not initialized)
14 access Phase (Initialized | Registered)
15 err-guard
16 none
17 refused 3 NotOwner
18 refused 4 NoSuchCall
19 refused 9 InUse
cell 0 Phase (not initialized) none
cell 1 Phase (Initialization panicked | Initialization skiped) none
end
";

const GIFTS: &[u8] = b"transcript 1
0 waiting read
1 waiting write
2 waiting drain
3 waiting drain gives writer 12
4 done gives readers
5 waiting read gives writer 0
6 done gives writer 1
7 waiting spin
8 borrowed
9 read-guard gives readers
10 failed gives writer 4294967295
11 phase Phase (Initialized) gives readers
12 value 18446744073709551615 gives writer 10
13 refused 7 NoSection
14 access Phase (Initialization panicked | Initialization skiped) gives readers
15 access Phase (not initialized) gives writer 4294967295
cell 0 Phase (Initialized) 1
end
";

/// A cell that is registered while its turn is skipped.
const SKIPPED: &[u8] = b"transcript 1
0 running
1 round 1
2 skipped 0
3 read-guard
4 done
5 closed
6 phase Phase (Initialized | Registered)
7 refused 10 ExitBegun
cell 0 Phase (Initialized | Registered) 4
exit 0 skipped
end
";

/// Each way in which a turn ends, and the refusals of an exit.
const TURNS: &[u8] = b"transcript 1
0 round 4294967295
1 finalizing 4294967295
2 phase Phase (Initialized | Registered | Finalized)
3 finalizing 10
4 phase Phase (Initialized | Registered | Finalization panicked)
5 refused 8 NoOutcome
6 refused 11 Inside
7 access Phase (Initialization skiped | Registration refused)
8 skipped 4294967295
9 phase Phase (Initialization panicked | Initialization skiped | Registered)
cell 0 Phase (Initialized | Registered | Finalized) 5
cell 1 Phase (Initialized | Registration refused) 6
exit 4294967295 done
exit 10 failed
exit 4294967295 skipped
end
";

#[test]
fn transcripts_are_printed(rt: HostRuntime) -> Result<(), Fail> {
    let alloc = rt.alloc();
    let failed = Phase::INITIALIZATION_PANICKED.union(Phase::INITIALIZATION_SKIPED);
    let first = [
        Answer::Running,
        Answer::ReadGuard,
        Answer::Value(22),
        Answer::Done,
        Answer::WriteGuard,
        Answer::Done,
        Answer::Done,
        Answer::ReadGuard,
        Answer::Value(33),
    ];
    let others = [
        Answer::Phase(Phase::empty()),
        Answer::Phase(failed),
        Answer::Phase(Phase::INITIALIZED_AND_REGISTERED),
        Answer::Failed,
        Answer::Cyclic,
        Answer::Waiting(How::Spin),
        Answer::Refused(Refusal::Waits),
        Answer::Refused(Refusal::NotWaiting),
        Answer::Refused(Refusal::NoGuard),
        Answer::Refused(Refusal::NotWriter),
        Answer::Refused(Refusal::NoSection),
        Answer::Value(18446744073709551615),
        Answer::Access(failed),
        Answer::Access(Phase::empty()),
        Answer::Access(Phase::INITIALIZED_AND_REGISTERED),
        Answer::ErrGuard,
        Answer::Missed,
        Answer::Refused(Refusal::NotOwner),
        Answer::Refused(Refusal::NoSuchCall),
        Answer::Refused(Refusal::InUse),
    ];
    let left = |phase, value| Final { phase, value };
    let set = left(Phase::INITIALIZED, Some(33));
    let unset = [left(Phase::empty(), None), left(failed, None)];
    assert_eq!(rt;
        printed(alloc, &[], &[])?.as_slice(),
        b"transcript 1\nend\n".as_slice()
    );
    assert_eq!(rt; printed(alloc, &first, &[set])?.as_slice(), FIRST);
    assert_eq!(rt; printed(alloc, &others, &unset)?.as_slice(), OTHERS);
    Ok(())
}

#[test]
fn a_skipped_turn_is_printed(rt: HostRuntime) -> Result<(), Fail> {
    let registered = Phase::INITIALIZED_AND_REGISTERED;
    let answers = [
        Answer::Running,
        Answer::Round(1),
        Answer::Skipped(0),
        Answer::ReadGuard,
        Answer::Done,
        Answer::Closed,
        Answer::Phase(registered),
        Answer::Refused(Refusal::ExitBegun),
    ];
    let left = Final {
        phase: registered,
        value: Some(4),
    };
    let turned = Turned {
        cell: 0,
        turn: Turn::Skipped,
    };
    assert_eq!(rt;
        printed_exit(rt.alloc(), &answers, &[left], &[turned])?.as_slice(),
        SKIPPED
    );
    Ok(())
}

#[test]
fn turns_are_printed(rt: HostRuntime) -> Result<(), Fail> {
    let registered = Phase::INITIALIZED_AND_REGISTERED;
    let finalized = registered.union(Phase::FINALIZED);
    let unfinalized = registered.union(Phase::FINALIZATION_PANICKED);
    let skiped = Phase::INITIALIZATION_SKIPED;
    let failed = skiped.union(Phase::INITIALIZATION_PANICKED);
    let answers = [
        Answer::Round(u32::MAX),
        Answer::Finalizing(u32::MAX),
        Answer::Phase(finalized),
        Answer::Finalizing(10),
        Answer::Phase(unfinalized),
        Answer::Refused(Refusal::NoOutcome),
        Answer::Refused(Refusal::Inside),
        Answer::Access(skiped.union(Phase::REGISTRATION_REFUSED)),
        Answer::Skipped(u32::MAX),
        Answer::Phase(failed.union(Phase::REGISTERED)),
    ];
    let left = |phase, value| Final { phase, value };
    let turned = |cell, turn| Turned { cell, turn };
    let unregistered = Phase::INITIALIZED.union(Phase::REGISTRATION_REFUSED);
    let finals = [left(finalized, Some(5)), left(unregistered, Some(6))];
    let exits = [
        turned(u32::MAX, Turn::Done),
        turned(10, Turn::Failed),
        turned(u32::MAX, Turn::Skipped),
    ];
    assert_eq!(rt;
        printed_exit(rt.alloc(), &answers, &finals, &exits)?.as_slice(),
        TURNS
    );
    Ok(())
}

#[test]
fn gifts_are_printed(rt: HostRuntime) -> Result<(), Fail> {
    let line = |answer, given| Line { answer, given };
    let failed = Phase::INITIALIZATION_PANICKED.union(Phase::INITIALIZATION_SKIPED);
    let lines = [
        line(Answer::Waiting(How::ParkedRead), Given::Nobody),
        line(Answer::Waiting(How::ParkedWrite), Given::Nobody),
        line(Answer::Waiting(How::Drain), Given::Nobody),
        line(Answer::Waiting(How::Drain), Given::Writer(12)),
        line(Answer::Done, Given::Readers),
        line(Answer::Waiting(How::ParkedRead), Given::Writer(0)),
        line(Answer::Done, Given::Writer(1)),
        line(Answer::Waiting(How::Spin), Given::Nobody),
        line(Answer::Borrowed, Given::Nobody),
        line(Answer::ReadGuard, Given::Readers),
        line(Answer::Failed, Given::Writer(u32::MAX)),
        line(Answer::Phase(Phase::INITIALIZED), Given::Readers),
        line(Answer::Value(u64::MAX), Given::Writer(10)),
        line(Answer::Refused(Refusal::NoSection), Given::Nobody),
        line(Answer::Access(failed), Given::Readers),
        line(Answer::Access(Phase::empty()), Given::Writer(u32::MAX)),
    ];
    let set = Final {
        phase: Phase::INITIALIZED,
        value: Some(1),
    };
    assert_eq!(rt;
        printed_lines(rt.alloc(), &lines, &[set])?.as_slice(),
        GIFTS
    );
    Ok(())
}
