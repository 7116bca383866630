//! Whole runs, runs line by line and engines agree, on a hand-over and on an exit, and the causes for which a schedule does
//! not run. What each act answers is told by the `examples/`, which the program runs.

use crate::ways::{
    again, call, exit, expect_rows, expect_waits, get_mut, gives, left, made, plan, plan_of,
    release, row,
};
use exit_registry::{Turn, Turned};
use phase_bits::Phase;
use phase_locker::Waiting;
use phase_moves::GuardRow;
use phase_schedule::{RunError, run_schedule};
use schedule_rules::{Answer, Call, CellPlan, Given, How, Kind, Place, Refusal};
use std::process::Abort;
use std::test::Fail;

#[test]
fn a_row_of_a_guard_takes_twelve_bytes(rt: HostRuntime) {
    assert_eq!(rt; std::mem::size_of::<GuardRow>(), 12);
}

#[test]
fn locks_are_handed_over(rt: HostRuntime) -> Result<(), Fail> {
    let alloc = rt.alloc();
    let plan = plan(alloc, 3, 1, Place::Park)?;
    let rows = [
        row(call(0, 0, Call::Write), Answer::Running),
        row(made(0, 7), Answer::WriteGuard),
        row(call(1, 0, Call::Write), Answer::Waiting(How::ParkedWrite)),
        row(call(2, 0, Call::Read), Answer::Waiting(How::ParkedRead)),
        gives(release(0, 1), Given::Readers),
        row(again(2), Answer::ReadGuard),
        gives(release(2, 5), Given::Writer(1)),
        row(again(1), Answer::WriteGuard),
    ];
    let is_left = [left(Phase::INITIALIZED, 7)];
    expect_rows(&rt, alloc, &plan, &rows, &is_left, &[])?;
    let parked = [Waiting::Free, Waiting::ParkedWrite, Waiting::ParkedRead];
    expect_waits(&rt, alloc, &plan, &rows[..4], Phase::empty(), &parked)?;
    let shared = [Waiting::Free, Waiting::ParkedWrite, Waiting::ShareRead];
    expect_waits(&rt, alloc, &plan, &rows[..5], Phase::INITIALIZED, &shared)?;
    let reads = [Waiting::Free, Waiting::ParkedWrite, Waiting::Free];
    expect_waits(&rt, alloc, &plan, &rows[..6], Phase::INITIALIZED, &reads)?;
    let handed = [Waiting::Free, Waiting::ShareWrite, Waiting::Free];
    expect_waits(&rt, alloc, &plan, &rows[..7], Phase::INITIALIZED, &handed)?;
    let free = [Waiting::Free, Waiting::Free, Waiting::Free];
    expect_waits(&rt, alloc, &plan, &rows, Phase::INITIALIZED, &free)
}

#[test]
fn a_cell_without_a_value_is_skipped(rt: HostRuntime) -> Result<(), Fail> {
    let registered = Phase::INITIALIZED_AND_REGISTERED;
    let rows = [
        row(call(0, 0, Call::Read), Answer::Running),
        row(exit(1), Answer::Round(1)),
        row(exit(1), Answer::Skipped(0)),
        row(made(0, 4), Answer::ReadGuard),
        row(release(0, 3), Answer::Done),
        row(exit(1), Answer::Closed),
        row(call(1, 0, Call::Phase), Answer::Phase(registered)),
        row(exit(1), Answer::Refused(Refusal::ExitBegun)),
    ];
    let finalized = CellPlan {
        kind: Kind::LockedLazyFinalize,
        retry: true,
        leak: false,
        place: Place::Park,
        prime: 0,
    };
    let plan = plan_of(rt.alloc(), 2, 1, finalized)?;
    let turns = [Turned {
        cell: 0,
        turn: Turn::Skipped,
    }];
    expect_rows(
        &rt,
        rt.alloc(),
        &plan,
        &rows,
        &[left(registered, 4)],
        &turns,
    )
}

#[test]
fn causes_are_found(rt: HostRuntime) -> Result<(), Fail> {
    let alloc = rt.alloc();
    let many = plan(alloc, 1 << 20, 1, Place::Park)?;
    let one = plan(alloc, 1, 1, Place::Park)?;
    let stranger = [call(5, 9, Call::Read)];
    let far = [call(0, 0, Call::Read), call(0, 9, Call::Read)];
    let lent = [get_mut(0, 1, None, 2)];
    let is_found = matches!(
        run_schedule(alloc, &many, &stranger),
        Err(RunError::TooManyParties)
    );
    assert!(rt; is_found);
    let is_found = matches!(
        run_schedule(alloc, &one, &stranger),
        Err(RunError::UnknownParty { step: 0 })
    );
    assert!(rt; is_found);
    let is_found = matches!(
        run_schedule(alloc, &one, &far),
        Err(RunError::UnknownCell { step: 1 })
    );
    assert!(rt; is_found);
    let is_found = matches!(
        run_schedule(alloc, &one, &lent),
        Err(RunError::UnknownCell { step: 0 })
    );
    assert!(rt; is_found);
    Ok(())
}
