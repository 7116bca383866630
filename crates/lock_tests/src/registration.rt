//! Calls of the sequentializer on cells that are registered for the exit.

use crate::calls::{Cell, ask, look, nothing, party, reads, ready, run, writes};
use exit_registry::{ExitRegistry, Look};
use phase_bits::{Phase, Phased};
use phase_locker::{Given, HolderLocker, LockerKind, Parks, PhaseLocker};
use phase_seq::{Begun, Finished, LazySequentializer, Want};
use std::alloc::Global;
use std::process::Abort;
use std::test::Fail;

/// The phase of a cell that could not be registered: REGISTRATION_REFUSED | INITIALIZATION_SKIPED.
const REFUSED: u32 = 36;

#[test]
fn a_cell_is_registered_once(rt: HostRuntime) -> Result<(), Fail> {
    let mut parks = Parks::new(rt.alloc(), 1, 1)?;
    let mut registry = ExitRegistry::new(rt.alloc(), 1)?;
    let mut cell: Cell = LazySequentializer::new(HolderLocker::new(
        LockerKind::Spin,
        Phase::empty(),
    ));
    ready(&rt, cell.locker().phase(), &registry);
    let (begun, given) = cell.begin(
        &mut parks,
        party(0),
        ask(Want::Init, false),
        Some(&mut registry),
    );
    assert_eq!(rt; given, Given::Nobody);
    assert!(rt; registry.knows(0));
    let section = run(&rt, begun);
    let (finished, given) = cell.finish(&mut parks, section, false);
    let Finished::Failed(phase) = finished else {
        rt.abort()
    };
    assert_eq!(rt; given, Given::Nobody);
    assert_eq!(rt; phase.bits(), 14);
    ready(&rt, cell.locker().phase(), &registry);
    let (begun, _) = cell.begin(
        &mut parks,
        party(0),
        ask(Want::Init, false),
        Some(&mut registry),
    );
    let section = run(&rt, begun);
    let (finished, _) = cell.finish(&mut parks, section, true);
    let Finished::Phase(phase) = finished else {
        rt.abort()
    };
    assert_eq!(rt; phase, Phase::INITIALIZED_AND_REGISTERED);
    assert_eq!(rt; look(&rt, &mut registry), Look::Round(1));
    Ok(())
}

/// A cell whose calls wait so is refused, and is read.
fn is_read_refused(rt: &impl Abort, alloc: Global, kind: LockerKind) -> Result<(), Fail> {
    let mut parks = Parks::new(alloc, 1, 1)?;
    let mut registry = ExitRegistry::new(alloc, 1)?;
    assert_eq!(rt; look(rt, &mut registry), Look::Closed);
    let mut cell: Cell = LazySequentializer::new(HolderLocker::new(kind, Phase::empty()));
    ready(rt, cell.locker().phase(), &registry);
    let (begun, given) = cell.begin(
        &mut parks,
        party(0),
        ask(Want::Read, false),
        Some(&mut registry),
    );
    assert_eq!(rt; given, Given::Nobody);
    let (ticket, phase) = reads(rt, begun);
    assert_eq!(rt; phase.bits(), REFUSED);
    assert_eq!(rt; cell.locker().phase(), phase);
    let given = cell.locker_mut().release_read(&mut parks, 0, ticket);
    assert_eq!(rt; given, Given::Nobody);
    assert!(rt; !registry.knows(0));
    assert!(rt; !registry.is_open());
    Ok(())
}

#[test]
fn a_refused_cell_is_read_where_calls_spin(rt: HostRuntime) -> Result<(), Fail> {
    is_read_refused(&rt, rt.alloc(), LockerKind::Spin)
}

#[test]
fn a_refused_cell_is_read_where_calls_park(rt: HostRuntime) -> Result<(), Fail> {
    is_read_refused(&rt, rt.alloc(), LockerKind::Park)
}

#[test]
fn a_refused_cell_is_written(rt: HostRuntime) -> Result<(), Fail> {
    let mut parks = Parks::new(rt.alloc(), 1, 1)?;
    let mut registry = ExitRegistry::new(rt.alloc(), 1)?;
    assert_eq!(rt; look(&rt, &mut registry), Look::Closed);
    let mut cell: Cell = LazySequentializer::new(HolderLocker::new(
        LockerKind::Park,
        Phase::empty(),
    ));
    ready(&rt, cell.locker().phase(), &registry);
    let (begun, given) = cell.begin(
        &mut parks,
        party(0),
        ask(Want::Write, false),
        Some(&mut registry),
    );
    assert_eq!(rt; given, Given::Nobody);
    let (ticket, phase) = writes(&rt, begun);
    assert_eq!(rt; phase.bits(), REFUSED);
    assert_eq!(rt; cell.locker().phase(), Phase::empty());
    let given = cell
        .locker_mut()
        .release_write(&mut parks, 0, ticket, phase);
    assert_eq!(rt; given, Given::Nobody);
    ready(&rt, cell.locker().phase(), &registry);
    let (begun, given) = cell.begin(
        &mut parks,
        party(0),
        ask(Want::Init, false),
        Some(&mut registry),
    );
    assert_eq!(rt; given, Given::Nobody);
    assert_eq!(rt; nothing(&rt, begun).bits(), REFUSED);
    assert_eq!(rt; cell.locker().phase().bits(), REFUSED);
    assert!(rt; !registry.knows(0));
    assert!(rt; !registry.is_open());
    Ok(())
}

#[test]
fn a_cell_that_leaks_is_initialized(rt: HostRuntime) -> Result<(), Fail> {
    let mut parks = Parks::new(rt.alloc(), 1, 1)?;
    let mut registry = ExitRegistry::new(rt.alloc(), 1)?;
    assert_eq!(rt; look(&rt, &mut registry), Look::Closed);
    let mut cell: Cell = LazySequentializer::new(HolderLocker::new(
        LockerKind::Spin,
        Phase::empty(),
    ));
    ready(&rt, cell.locker().phase(), &registry);
    let (begun, given) = cell.begin(
        &mut parks,
        party(0),
        ask(Want::Init, true),
        Some(&mut registry),
    );
    assert_eq!(rt; given, Given::Nobody);
    assert!(rt; !registry.knows(0));
    assert!(rt; !registry.is_open());
    let section = run(&rt, begun);
    let (finished, given) = cell.finish(&mut parks, section, true);
    let Finished::Phase(phase) = finished else {
        rt.abort()
    };
    assert_eq!(rt; given, Given::Nobody);
    assert_eq!(rt; phase.bits(), 33);
    assert_eq!(rt; cell.locker().phase(), phase);
    Ok(())
}
