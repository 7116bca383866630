//! Steps are added, gone over and taken.

ghost use Rattle.std.specs.Prelude.{◌<◌, ◌^◌};

use crate::list::StepList;
use crate::row::StepRow;
use lazy_cells::Call;
use schedule_rules::{Act, Step};
use std::alloc::{AllocError, Global};
use std::test::Fail;

/// One step of each act, those that may have a value with and without it.
const ACTS: [Act; 17] = [
    Act::Call {
        cell: 4_000_000_000,
        call: Call::TryWrite,
    },
    Act::Again,
    Act::Made {
        value: 18_000_000_000_000_000_000,
    },
    Act::MadeFailed,
    Act::Finished { left: Some(7) },
    Act::Finished { left: None },
    Act::FinishFailed { left: Some(8) },
    Act::FinishFailed { left: None },
    Act::Look { guard: 1 },
    Act::Set { guard: 2, value: 9 },
    Act::Release { guard: 3 },
    Act::Downgrade { guard: 4 },
    Act::Clone { guard: 5 },
    Act::GetMut {
        cell: 6,
        made: Some(10),
        left: 11,
    },
    Act::GetMut {
        cell: 7,
        made: None,
        left: 12,
    },
    Act::TryGetMut { cell: 8, left: 13 },
    Act::Exit,
];

/// A list of these acts, each of a party of its own.
fn listed(alloc: Global) -> Result<StepList, AllocError> {
    let mut list = StepList::with_capacity(alloc, 0, 0)?;
    for (party, act) in ACTS.into_iter().enumerate() {
        list.push(by(party, act))?;
    }
    Ok(list)
}

/// The step of a party.
fn by(party: usize, act: Act) -> Step
    requires { party < 2 ^ 32 }
{
    Step {
        party: party as u32,
        act,
    }
}

#[test]
fn a_row_takes_twelve_bytes(rt: HostRuntime) {
    assert_eq!(rt; std::mem::size_of::<StepRow>(), 12);
}

#[test]
fn steps_are_gone_over_in_their_order(rt: HostRuntime) -> Result<(), Fail> {
    let list = listed(rt.alloc())?;
    assert_eq!(rt; list.len(), ACTS.len());
    let mut steps = list.iter();
    for (party, act) in ACTS.into_iter().enumerate() {
        assert_eq!(rt; steps.next(), Some(by(party, act)));
    }
    assert_eq!(rt; steps.next(), None);
    Ok(())
}

#[test]
fn steps_are_taken_in_their_order(rt: HostRuntime) -> Result<(), Fail> {
    let mut list = listed(rt.alloc())?;
    for (party, act) in ACTS.into_iter().enumerate() {
        assert_eq!(rt; list.pop_front(), Some(by(party, act)));
    }
    assert_eq!(rt; list.pop_front(), None);
    assert_eq!(rt; list.len(), 0);
    Ok(())
}

#[test]
fn steps_are_added_behind_those_that_were_taken(rt: HostRuntime) -> Result<(), Fail> {
    let mut list = listed(rt.alloc())?;
    for act in ACTS.into_iter().take(7) {
        assert!(rt; list.pop_front().is_some_and(|step| step.act == act));
    }
    list.push(by(17, Act::Made { value: 3 }))?;
    let steps = list.to_vec(rt.alloc())?;
    assert_eq!(rt; steps.len(), 11);
    assert_eq!(rt; steps[1], by(8, ACTS[8]));
    assert_eq!(rt; steps[10], by(17, Act::Made { value: 3 }));
    Ok(())
}
