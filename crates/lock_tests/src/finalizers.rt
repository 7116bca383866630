//! Finalizer sections of the sequentializer, and finalizers.

ghost use Rattle.std.specs.Prelude.{◌≡◌, is_ok};

use crate::calls::{Cell, ask, last, nothing, party, ready};
use exit_registry::ExitRegistry;
use phase_bits::{Phase, Phased};
use phase_locker::{Given, HolderLocker, LockerKind, Parks, PhaseLocker};
use phase_seq::{Ask, Begun, FinalFault, Finaly, LazySequentializer, Want};
use std::alloc::Global;
use std::process::Abort;
use std::test::Fail;

/// A cell whose calls wait so is finalized, and is left with this phase.
fn is_finalized(
    rt: &impl Abort,
    alloc: Global,
    kind: LockerKind,
    fine: bool,
    left: u32,
) -> Result<(), Fail> {
    let mut parks = Parks::new(alloc, 1, 2)?;
    let mut registry = ExitRegistry::new(alloc, 1)?;
    let mut cell: Cell = LazySequentializer::new(HolderLocker::new(
        kind,
        Phase::INITIALIZED_AND_REGISTERED,
    ));
    ready(rt, cell.locker().phase(), &registry);
    let (begun, given) = cell.begin(
        &mut parks,
        party(0),
        ask(Want::Finalize, false),
        Some(&mut registry),
    );
    assert_eq!(rt; given, Given::Nobody);
    let section = last(rt, begun);
    assert_eq!(rt; section.who(), party(0));
    let fast = Ask {
        fast: true,
        ..ask(Want::Finalize, false)
    };
    ready(rt, cell.locker().phase(), &registry);
    let (begun, _) = cell.begin(&mut parks, party(1), fast, Some(&mut registry));
    let Begun::Missed = begun else { rt.abort() };
    let (phase, given) = cell.finish_final(&mut parks, section, fine);
    assert_eq!(rt; given, Given::Nobody);
    assert_eq!(rt; phase.bits(), left);
    assert_eq!(rt; cell.locker().phase(), phase);
    Ok(())
}

#[test]
fn a_finalizer_that_succeeds_leaves_its_flag(rt: HostRuntime) -> Result<(), Fail> {
    is_finalized(&rt, rt.alloc(), LockerKind::Spin, true, 73)
}

#[test]
fn a_finalizer_that_fails_leaves_its_flag(rt: HostRuntime) -> Result<(), Fail> {
    is_finalized(&rt, rt.alloc(), LockerKind::Park, false, 137)
}

#[test]
fn an_empty_cell_is_not_finalized(rt: HostRuntime) -> Result<(), Fail> {
    let mut parks = Parks::new(rt.alloc(), 1, 1)?;
    let mut registry = ExitRegistry::new(rt.alloc(), 1)?;
    let mut cell: Cell = LazySequentializer::new(HolderLocker::new(
        LockerKind::Park,
        Phase::empty(),
    ));
    ready(&rt, cell.locker().phase(), &registry);
    let (begun, given) = cell.begin(
        &mut parks,
        party(0),
        ask(Want::Finalize, false),
        Some(&mut registry),
    );
    assert_eq!(rt; given, Given::Nobody);
    assert_eq!(rt; nothing(&rt, begun), Phase::empty());
    assert!(rt; !registry.knows(0));
    assert!(rt; registry.is_open());
    Ok(())
}

/// A value whose finalizer succeeds once it is full.
struct Cup {
    full: bool,
}

impl Finaly for Cup {
    ghost finalizes = { λ c r. is_ok r ≡ c.full };

    fn finaly(&self) -> Result<(), FinalFault> {
        if self.full { Ok(()) } else { Err(FinalFault) }
    }
}

/// Finalizes a value.
fn finalize<V: Finaly>(value: &V) -> Result<(), FinalFault>
    ensures { V.finalizes value.now result }
{
    value.finaly()
}

#[test]
fn values_are_finalized(rt: HostRuntime) {
    assert_eq!(rt; finalize(&Cup { full: true }), Ok(()));
    assert_eq!(rt; finalize(&Cup { full: false }), Err(FinalFault));
}
