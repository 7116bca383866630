//! Schedules are read from their texts.

use schedule_rules::{Act, Call, CellPlan, Kind, Place, Plan, Step};
use schedule_text::{ReadError, read_schedule};
use std::alloc::Global;
use std::test::Fail;

const NOTHING: &[u8] = b"schedule 1\nparties 0\nsteps\nend\n";

const NINE_STEPS: &[u8] = b"schedule 1
parties 1
cell LockedLazy spin
steps
0 read 0
0 made 22
0 look 1
0 release 1
0 write 0
0 set 4 33
0 release 4
0 read 0
0 look 7
end
";

/// Cells of each kind and place, with each option, and guards that are cloned and downgraded.
const EACH_CELL: &[u8] = b"schedule 1
parties 2
cell LockedLazy park
cell LockedLazy spin
cell LockedLazy park once
cell LockedLazy spin once
cell LockedLazy spin leak
cell LockedLazyFinalize park
cell LockedLazyFinalize spin once
cell LockedLazyFinalize park leak
cell LockedLazyFinalize spin once leak
cell Lazy own 0
cell LazyFinalize spin
cell LockedLazyDroped park leak
cell PrimedLockedLazy park prime 1
cell PrimedLockedLazyDroped spin once leak prime 18446744073709551615
cell LockedLazy own 4294967295 once leak prime 7
steps
1 write 0
1 made 5
1 downgrade 1
0 clone 4294967295
end
";

/// Each call, each way in which a finalizer ends, and values that are lent.
const EACH_CALL: &[u8] = b"schedule 1
parties 1
steps
0 phase 0
0 try_get 1
0 get 2
0 init 3
0 read 4
0 write 5
0 fast_read 6
0 fast_write 7
0 try_read 8
0 try_write 9
0 fast_try_read 10
0 fast_try_write 11
0 primed_read 12
0 primed_write 13
0 primed_read_non_initializing 14
0 primed_write_non_initializing 15
0 finished
0 finished 0
0 finish_failed
0 finish_failed 18446744073709551615
0 get_mut 16 17 18
0 get_mut 19 fail 20
0 try_get_mut 21 22
end
";

/// The largest numbers that are read, and the acts that the other texts leave out.
const LARGEST: &[u8] = b"schedule 1
parties 4294967295
steps
4294967295 phase 4294967295
0 again
0 made 18446744073709551615
0 made_failed
0 set 4294967295 18446744073709551615
0 get_mut 4294967295 18446744073709551615 18446744073709551615
0 downgrade 4294967295
end
";

/// The acts of an exit.
const EXIT: &[u8] = b"schedule 1
parties 2
steps
1 exit
1 finished
0 finish_failed
end
";

/// What the text is read as, where it has at most a thousand bytes.
pub(crate) fn read(alloc: Global, text: &[u8]) -> Result<(Plan, Vec<Step>), ReadError> {
    if text.len() > 1000 {
        return Err(ReadError::Memory);
    }
    let (plan, steps) = read_schedule(alloc, text)?;
    Ok((plan, steps.to_vec(alloc)?))
}

#[test]
fn reads_nine_steps(rt: HostRuntime) -> Result<(), Fail> {
    let (plan, steps) = read(rt.alloc(), NINE_STEPS)?;
    let cell = CellPlan {
        kind: Kind::LockedLazy,
        retry: true,
        leak: false,
        place: Place::Spin,
        prime: 0,
    };
    let call = |call| Act::Call { cell: 0, call };
    let acts = [
        call(Call::Read),
        Act::Made { value: 22 },
        Act::Look { guard: 1 },
        Act::Release { guard: 1 },
        call(Call::Write),
        Act::Set {
            guard: 4,
            value: 33,
        },
        Act::Release { guard: 4 },
        call(Call::Read),
        Act::Look { guard: 7 },
    ];
    assert_eq!(rt; plan.parties, 1);
    assert_eq!(rt; plan.cells.as_slice(), [cell].as_slice());
    assert_eq!(rt; steps.len(), acts.len());
    for (step, act) in steps.iter().zip(acts.iter()) {
        assert_eq!(rt; step.party, 0);
        assert_eq!(rt; step.act, *act);
    }
    Ok(())
}

#[test]
fn reads_cells_and_acts_on_guards(rt: HostRuntime) -> Result<(), Fail> {
    let (plan, steps) = read(rt.alloc(), EACH_CELL)?;
    let primed = |kind, place, retry, leak, prime| CellPlan {
        kind,
        retry,
        leak,
        place,
        prime,
    };
    let cell = |kind, place, retry, leak| primed(kind, place, retry, leak, 0);
    let cells = [
        cell(Kind::LockedLazy, Place::Park, true, false),
        cell(Kind::LockedLazy, Place::Spin, true, false),
        cell(Kind::LockedLazy, Place::Park, false, false),
        cell(Kind::LockedLazy, Place::Spin, false, false),
        cell(Kind::LockedLazy, Place::Spin, true, true),
        cell(Kind::LockedLazyFinalize, Place::Park, true, false),
        cell(Kind::LockedLazyFinalize, Place::Spin, false, false),
        cell(Kind::LockedLazyFinalize, Place::Park, true, true),
        cell(Kind::LockedLazyFinalize, Place::Spin, false, true),
        cell(Kind::Lazy, Place::Own(0), true, false),
        cell(Kind::LazyFinalize, Place::Spin, true, false),
        cell(Kind::LockedLazyDroped, Place::Park, true, true),
        primed(Kind::PrimedLockedLazy, Place::Park, true, false, 1),
        primed(
            Kind::PrimedLockedLazyDroped,
            Place::Spin,
            false,
            true,
            u64::MAX,
        ),
        primed(Kind::LockedLazy, Place::Own(u32::MAX), false, true, 7),
    ];
    let step = |party, act| Step { party, act };
    let write = Act::Call {
        cell: 0,
        call: Call::Write,
    };
    let expected = [
        step(1, write),
        step(1, Act::Made { value: 5 }),
        step(1, Act::Downgrade { guard: 1 }),
        step(0, Act::Clone { guard: u32::MAX }),
    ];
    assert_eq!(rt; plan.parties, 2);
    assert_eq!(rt; plan.cells.as_slice(), cells.as_slice());
    assert_eq!(rt; steps.as_slice(), expected.as_slice());
    Ok(())
}

#[test]
fn reads_the_largest_numbers(rt: HostRuntime) -> Result<(), Fail> {
    let (plan, steps) = read(rt.alloc(), LARGEST)?;
    let acts = [
        Act::Call {
            cell: u32::MAX,
            call: Call::Phase,
        },
        Act::Again,
        Act::Made { value: u64::MAX },
        Act::MadeFailed,
        Act::Set {
            guard: u32::MAX,
            value: u64::MAX,
        },
        Act::GetMut {
            cell: u32::MAX,
            made: Some(u64::MAX),
            left: u64::MAX,
        },
        Act::Downgrade { guard: u32::MAX },
    ];
    assert_eq!(rt; plan.parties, u32::MAX);
    assert_eq!(rt; plan.cells.len(), 0);
    assert_eq!(rt; steps.len(), acts.len());
    for (step, act) in steps.iter().zip(acts.iter()) {
        assert_eq!(rt; step.act, *act);
    }
    Ok(())
}

#[test]
fn reads_an_exit(rt: HostRuntime) -> Result<(), Fail> {
    let (plan, steps) = read(rt.alloc(), EXIT)?;
    let step = |party, act| Step { party, act };
    let expected = [
        step(1, Act::Exit),
        step(1, Act::Finished { left: None }),
        step(0, Act::FinishFailed { left: None }),
    ];
    assert_eq!(rt; plan.parties, 2);
    assert_eq!(rt; steps.as_slice(), expected.as_slice());
    Ok(())
}

#[test]
fn reads_each_call(rt: HostRuntime) -> Result<(), Fail> {
    let (_plan, steps) = read(rt.alloc(), EACH_CALL)?;
    let calls = [
        Call::Phase,
        Call::TryGet,
        Call::Get,
        Call::Init,
        Call::Read,
        Call::Write,
        Call::FastRead,
        Call::FastWrite,
        Call::TryRead,
        Call::TryWrite,
        Call::FastTryRead,
        Call::FastTryWrite,
        Call::PrimedRead,
        Call::PrimedWrite,
        Call::PrimedReadNonInitializing,
        Call::PrimedWriteNonInitializing,
    ];
    let ends = [
        Act::Finished { left: None },
        Act::Finished { left: Some(0) },
        Act::FinishFailed { left: None },
        Act::FinishFailed {
            left: Some(u64::MAX),
        },
        Act::GetMut {
            cell: 16,
            made: Some(17),
            left: 18,
        },
        Act::GetMut {
            cell: 19,
            made: None,
            left: 20,
        },
        Act::TryGetMut { cell: 21, left: 22 },
    ];
    assert_eq!(rt; steps.len(), calls.len() + ends.len());
    for (i, (step, call)) in steps.iter().zip(calls.iter()).enumerate() {
        let act = Act::Call {
            cell: i as u32,
            call: *call,
        };
        assert_eq!(rt; step.act, act);
    }
    for (step, end) in steps.iter().skip(calls.len()).zip(ends.iter()) {
        assert_eq!(rt; step.act, *end);
    }
    Ok(())
}

#[test]
fn refuses_each_part_of_a_text(rt: HostRuntime) -> Result<(), Fail> {
    for text in [NOTHING, NINE_STEPS, EACH_CELL, EACH_CALL, LARGEST, EXIT] {
        let _read = read(rt.alloc(), text)?;
        for end in 0..text.len() {
            let part = read(rt.alloc(), &text[..end]);
            assert!(rt; matches!(part, Err(ReadError::BadLine(0))), "cut at {end}");
        }
    }
    Ok(())
}
