//! Calls of the sequentializer over the plain locker, and generators.

ghost use Rattle.std.specs.Prelude.{◌≡◌, false};

use phase_bits::{Phase, Phased};
use phase_locker::{Given, HolderLocker, How, LockerKind, Parks, PhaseLocker, Waiting, Who};
use phase_seq::{
    Ask, Begun, DefaultGenerator, Finished, LazySequentializer, Section, Tolerance, Want,
};
use std::process::Abort;
use std::test::Fail;

type Cell = LazySequentializer<HolderLocker, DefaultGenerator>;

/// The phase that a failed run reaches.
const FAILED: u32 = 6;

/// A call that may wait, on a cell that tries again.
fn retry(want: Want) -> Ask
    ensures { result.fast ≡ false }
{
    let tol = Tolerance {
        retry: true,
        leak: false,
    };
    Ask {
        want,
        fast: false,
        tol,
    }
}

/// A call that may wait, on a cell that tries once.
fn once(want: Want) -> Ask
    ensures { result.fast ≡ false }
{
    let tol = Tolerance {
        retry: false,
        leak: false,
    };
    Ask {
        want,
        fast: false,
        tol,
    }
}

/// A call that does not wait, on a cell that tries again.
fn fast(want: Want) -> Ask {
    Ask {
        fast: true,
        ..retry(want)
    }
}

/// A party, at cell 0.
fn party(party: u32) -> Who
    ensures { result ≡ record { cell = 0; party = party } }
{
    Who { cell: 0, party }
}

/// The section that a call opened. The process ends where it opened none.
fn run(rt: &impl Abort, begun: Begun) -> Section
    ensures { begun ≡ Begun.Run result }
{
    let Begun::Run(section) = begun else {
        rt.abort()
    };
    section
}

/// How a call waits. The process ends where it does not.
fn wait(rt: &impl Abort, begun: Begun) -> How
    ensures { begun ≡ Begun.Wait result }
{
    let Begun::Wait(how) = begun else { rt.abort() };
    how
}

/// The process ends where a call was not turned back.
fn cyclic(rt: &impl Abort, begun: Begun)
    ensures { begun ≡ Begun.Cyclic }
{
    let Begun::Cyclic = begun else { rt.abort() };
}

/// The process ends where a call was not missed.
fn missed(rt: &impl Abort, begun: Begun)
    ensures { begun ≡ Begun.Missed }
{
    let Begun::Missed = begun else { rt.abort() };
}

#[test]
fn only_one_party_runs(rt: HostRuntime) -> Result<(), Fail> {
    let mut parks = Parks::new(rt.alloc(), 1, 2)?;
    let mut cell: Cell = LazySequentializer::new(HolderLocker::new(
        LockerKind::Spin,
        Phase::empty(),
    ));
    let (begun, given) = cell.begin(&mut parks, party(0), retry(Want::Read), None);
    assert_eq!(rt; given, Given::Nobody);
    let section = run(&rt, begun);
    assert_eq!(rt; section.who(), party(0));
    assert_eq!(rt; section.want(), Want::Read);
    let (begun, _) = cell.begin(&mut parks, party(0), retry(Want::Read), None);
    cyclic(&rt, begun);
    let (begun, _) = cell.begin(&mut parks, party(0), fast(Want::Init), None);
    cyclic(&rt, begun);
    let (begun, _) = cell.begin(&mut parks, party(1), fast(Want::Write), None);
    missed(&rt, begun);
    let (finished, given) = cell.finish(&mut parks, section, true);
    let Finished::Read(ticket, phase) = finished else {
        rt.abort()
    };
    assert_eq!(rt; given, Given::Nobody);
    assert_eq!(rt; phase, Phase::INITIALIZED);
    let given = cell.locker_mut().release_read(&mut parks, 0, ticket);
    assert_eq!(rt; given, Given::Nobody);
    Ok(())
}

#[test]
fn a_barred_call_goes_on(rt: HostRuntime) -> Result<(), Fail> {
    let mut parks = Parks::new(rt.alloc(), 1, 2)?;
    let mut cell: Cell = LazySequentializer::new(HolderLocker::new(
        LockerKind::Spin,
        Phase::empty(),
    ));
    let (begun, _) = cell.begin(&mut parks, party(0), once(Want::Init), None);
    let section = run(&rt, begun);
    let (begun, _) = cell.begin(&mut parks, party(1), once(Want::Init), None);
    assert_eq!(rt; wait(&rt, begun), How::Spin);
    let (begun, _) = cell.again(&mut parks, party(1), once(Want::Init), None);
    assert_eq!(rt; wait(&rt, begun), How::Spin);
    let (finished, _) = cell.finish(&mut parks, section, true);
    let Finished::Phase(phase) = finished else {
        rt.abort()
    };
    assert_eq!(rt; phase, Phase::INITIALIZED);
    let (begun, given) = cell.again(&mut parks, party(1), once(Want::Init), None);
    let Begun::Nothing(phase) = begun else {
        rt.abort()
    };
    assert_eq!(rt; given, Given::Nobody);
    assert_eq!(rt; phase, Phase::INITIALIZED);
    assert_eq!(rt; parks.waiting(1), Waiting::Free);
    Ok(())
}

#[test]
fn a_failed_run_is_tried_again(rt: HostRuntime) -> Result<(), Fail> {
    let mut parks = Parks::new(rt.alloc(), 1, 1)?;
    let mut cell: Cell = LazySequentializer::new(HolderLocker::new(
        LockerKind::Spin,
        Phase::empty(),
    ));
    let (begun, _) = cell.begin(&mut parks, party(0), retry(Want::Init), None);
    let section = run(&rt, begun);
    let (finished, given) = cell.finish(&mut parks, section, false);
    let Finished::Failed(phase) = finished else {
        rt.abort()
    };
    assert_eq!(rt; given, Given::Nobody);
    assert_eq!(rt; phase.bits(), FAILED);
    let (begun, _) = cell.begin(&mut parks, party(0), retry(Want::Init), None);
    let section = run(&rt, begun);
    let (finished, given) = cell.finish(&mut parks, section, true);
    let Finished::Phase(phase) = finished else {
        rt.abort()
    };
    assert_eq!(rt; given, Given::Nobody);
    assert_eq!(rt; phase, Phase::INITIALIZED);
    let (begun, _) = cell.begin(&mut parks, party(0), retry(Want::Init), None);
    let Begun::Nothing(phase) = begun else {
        rt.abort()
    };
    assert_eq!(rt; phase, Phase::INITIALIZED);
    Ok(())
}

#[test]
fn a_failed_run_is_tried_once(rt: HostRuntime) -> Result<(), Fail> {
    let mut parks = Parks::new(rt.alloc(), 1, 1)?;
    let mut cell: Cell = LazySequentializer::new(HolderLocker::new(
        LockerKind::Spin,
        Phase::empty(),
    ));
    let (begun, _) = cell.begin(&mut parks, party(0), once(Want::Write), None);
    let section = run(&rt, begun);
    let (finished, _) = cell.finish(&mut parks, section, false);
    let Finished::Failed(failed) = finished else {
        rt.abort()
    };
    assert_eq!(rt; failed.bits(), FAILED);
    let (begun, _) = cell.begin(&mut parks, party(0), once(Want::Read), None);
    let Begun::Read(ticket, phase) = begun else {
        rt.abort()
    };
    assert_eq!(rt; phase, failed);
    let _ = cell.locker_mut().release_read(&mut parks, 0, ticket);
    let (begun, _) = cell.begin(&mut parks, party(0), once(Want::Write), None);
    let Begun::Write(ticket, phase) = begun else {
        rt.abort()
    };
    assert_eq!(rt; phase, failed);
    let _ = cell
        .locker_mut()
        .release_write(&mut parks, 0, ticket, failed);
    let (begun, _) = cell.begin(&mut parks, party(0), once(Want::Init), None);
    let Begun::Nothing(phase) = begun else {
        rt.abort()
    };
    assert_eq!(rt; phase, failed);
    Ok(())
}

#[test]
fn the_end_of_a_run_hands_over(rt: HostRuntime) -> Result<(), Fail> {
    let mut parks = Parks::new(rt.alloc(), 1, 2)?;
    let mut cell: Cell = LazySequentializer::new(HolderLocker::new(
        LockerKind::Park,
        Phase::empty(),
    ));
    let (begun, _) = cell.begin(&mut parks, party(0), retry(Want::Init), None);
    let section = run(&rt, begun);
    let (begun, _) = cell.begin(&mut parks, party(1), retry(Want::Read), None);
    assert_eq!(rt; wait(&rt, begun), How::ParkedRead);
    let (finished, given) = cell.finish(&mut parks, section, true);
    let Finished::Phase(phase) = finished else {
        rt.abort()
    };
    assert_eq!(rt; given, Given::Readers);
    assert_eq!(rt; phase, Phase::INITIALIZED);
    assert_eq!(rt; parks.waiting(1), Waiting::ShareRead);
    assert_eq!(rt; parks.cell_of(1), 0);
    let (begun, given) = cell.again(&mut parks, party(1), retry(Want::Read), None);
    let Begun::Read(ticket, phase) = begun else {
        rt.abort()
    };
    assert_eq!(rt; given, Given::Nobody);
    assert_eq!(rt; phase, Phase::INITIALIZED);
    let given = cell.locker_mut().release_read(&mut parks, 0, ticket);
    assert_eq!(rt; given, Given::Nobody);
    Ok(())
}

#[test]
fn a_writer_publishes_at_its_release(rt: HostRuntime) -> Result<(), Fail> {
    let mut parks = Parks::new(rt.alloc(), 1, 2)?;
    let mut cell: Cell = LazySequentializer::new(HolderLocker::new(
        LockerKind::Park,
        Phase::empty(),
    ));
    let (begun, _) = cell.begin(&mut parks, party(0), retry(Want::Write), None);
    let section = run(&rt, begun);
    let (begun, _) = cell.begin(&mut parks, party(1), retry(Want::Write), None);
    assert_eq!(rt; wait(&rt, begun), How::ParkedWrite);
    let (finished, given) = cell.finish(&mut parks, section, true);
    let Finished::Write(ticket, phase) = finished else {
        rt.abort()
    };
    assert_eq!(rt; given, Given::Nobody);
    assert_eq!(rt; phase, Phase::INITIALIZED);
    assert_eq!(rt; cell.locker().phase(), Phase::empty());
    let given = cell
        .locker_mut()
        .release_write(&mut parks, 0, ticket, phase);
    assert_eq!(rt; given, Given::Writer(1));
    assert_eq!(rt; cell.locker().phase(), Phase::INITIALIZED);
    assert_eq!(rt; parks.waiting(1), Waiting::ShareWrite);
    Ok(())
}
