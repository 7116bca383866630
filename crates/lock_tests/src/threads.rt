//! One caller steps a word through its holds, two workers share one, and callers wait.

ghost use Rattle.std.specs.Prelude.{◌≡◌};
ghost use Rattle.phase_bits.specs.Number.{number};
ghost use Rattle.lazy_threads.specs.Seats.{IsSeatOf, view_of};
ghost use Rattle.lazy_threads.specs.Views.{HasInitialized};
ghost use Rattle.lazy_threads.specs.declared.view.Hold.TheVariants as hold;

use lazy_threads::{CellSeat, SpinWait, SyncTable, WaitCell};
use phase_bits::Phase;
use phase_locker::{LockNature, LockResult};
use std::process::Abort;
use std::sync::Wait;
use std::test::Fail;
use std::thread::join;

#[test]
fn one_caller_steps_through_the_holds(rt: HostRuntime) -> Result<(), Fail> {
    let (table, mut a) = SyncTable::new(rt.alloc())?;
    assert_eq!(rt; table.phase(&mut a), Phase::empty());
    let write = |_: Phase| -> LockNature
        ensures { result ≡ LockNature.Write }
    { LockNature::Write };
    let read = |_: Phase| -> LockNature
        ensures { result ≡ LockNature.Read }
    { LockNature::Read };
    let Some(LockResult::Write(())) = table.try_enter(&mut a, &write) else {
        rt.abort()
    };
    let mut b = table.split(&mut a);
    assert_eq!(rt; table.phase(&mut b), Phase::empty());
    let None = table.try_enter(&mut b, &read) else {
        rt.abort()
    };
    table.leave_write(&mut a, Phase::INITIALIZED, false, 0);
    assert_eq!(rt; table.phase(&mut b), Phase::INITIALIZED);
    let Some(LockResult::Read(())) = table.try_enter(&mut b, &read) else {
        rt.abort()
    };
    assert!(rt; table.try_clone(&mut b, &mut a));
    table.leave_read(&mut a, 0);
    table.leave_read(&mut b, 0);
    table.join(&mut a, b);
    let Some(LockResult::Write(())) = table.try_enter(&mut a, &write) else {
        rt.abort()
    };
    Ok(())
}

/// Enters to write, reads on and leaves, and then enters and leaves as a reader, so many times.
fn enter_and_leave<R: Wait>(rt: &R, table: &SyncTable, mut seat: CellSeat, turns: u32) -> CellSeat
    requires table { IsSeatOf table.now seat }
    requires hold { (view_of seat).hold ≡ hold.Free }
    ensures table { IsSeatOf table.now result }
    ensures hold { (view_of result).hold ≡ hold.Free }
{
    let write = |_: Phase| -> LockNature
        ensures { result ≡ LockNature.Write }
    { LockNature::Write };
    let read = |_: Phase| -> LockNature
        ensures { result ≡ LockNature.Read }
    { LockNature::Read };
    for turn in 0..turns {
        match table.enter(rt, &mut seat, &write) {
            LockResult::Write(()) => {
                table.downgrade(&mut seat, Phase::INITIALIZED, true, 0);
                table.leave_read(&mut seat, 0);
            }
            LockResult::Read(()) | LockResult::None(_) => {}
        }
        match table.enter(rt, &mut seat, &read) {
            LockResult::Read(()) => table.leave_read(&mut seat, 0),
            LockResult::Write(()) | LockResult::None(_) => {}
        }
    }
    seat
}

#[test]
fn two_workers_enter_and_leave(rt: HostRuntime) -> Result<(), Fail> {
    let (table, mut seat) = SyncTable::new(rt.alloc())?;
    let other = table.split(&mut seat);
    let (shared, handle) = (&table, &rt);
    let (mut seat, other) = join(
        &rt,
        move || -> CellSeat
            requires { IsSeatOf shared.now seat × ((view_of seat).hold ≡ hold.Free) }
            ensures { IsSeatOf shared.entry.now result × ((view_of result).hold ≡ hold.Free) }
        { enter_and_leave(handle, shared, seat, 100_000) },
        move || -> CellSeat
            requires { IsSeatOf shared.now other × ((view_of other).hold ≡ hold.Free) }
            ensures { IsSeatOf shared.entry.now result × ((view_of result).hold ≡ hold.Free) }
        { enter_and_leave(handle, shared, other, 100_000) },
    );
    table.join(&mut seat, other);
    assert_eq!(rt; seat.recorded(), 200_000);
    let write = |_: Phase| -> LockNature
        ensures { result ≡ LockNature.Write }
    { LockNature::Write };
    let Some(LockResult::Write(())) = table.try_enter(&mut seat, &write) else {
        rt.abort()
    };
    assert_eq!(rt; seat.phase_got(), Phase::INITIALIZED);
    Ok(())
}

/// Two looks of one seat: where the first finds INITIALIZED, so does the second.
fn look_twice(table: &SyncTable, seat: &mut CellSeat) -> (Phase, Phase)
    requires { IsSeatOf table.now seat.old }
    ensures { HasInitialized (number result.0) → HasInitialized (number result.1) }
{
    let first = table.phase(seat);
    (first, table.phase(seat))
}

#[test]
fn a_rule_may_ask_for_no_lock(rt: HostRuntime) -> Result<(), Fail> {
    let (table, mut seat) = SyncTable::new(rt.alloc())?;
    let look = |_: Phase| -> LockNature
        ensures { result ≡ LockNature.None }
    { LockNature::None };
    let Some(LockResult::None(phase)) = table.try_enter(&mut seat, &look) else {
        rt.abort()
    };
    assert_eq!(rt; (phase, phase), look_twice(&table, &mut seat));
    assert_eq!(rt; seat.trail_seen(), 0);
    Ok(())
}

#[test]
fn a_wake_counts(rt: HostRuntime) -> Result<(), Fail> {
    let cell = WaitCell::new();
    cell.wake(&rt);
    assert_eq!(rt; cell.count(&rt), 1);
    assert_eq!(rt; cell.wait(&rt, 0), 1);
    Ok(())
}

#[test]
fn a_wait_ends_with_a_wake(rt: HostRuntime) -> Result<(), Fail> {
    let cell = WaitCell::new();
    let (shared, handle) = (&cell, &rt);
    let (seen, ()) = join(
        &rt,
        move || shared.wait(handle, 0),
        move || shared.wake(handle),
    );
    assert_eq!(rt; seen, 1);
    Ok(())
}

#[test]
fn ten_calls_spin(rt: HostRuntime) -> Result<(), Fail> {
    let mut spin = SpinWait::new();
    for _ in 0..5 {
        assert!(rt; spin.spin());
        assert!(rt; spin.spin_no_yield());
    }
    assert!(rt; !spin.spin());
    assert!(rt; spin.spin_no_yield());
    spin.reset();
    assert!(rt; spin.spin());
    Ok(())
}
