//! Locked lazies that the exit finalizes.

ghost use Rattle.std.specs.Prelude.{◌≡◌, ◌<◌, IfOk};
ghost use Rattle.lazy_cells.specs.Cells.{MayBeRegistered};

use exit_registry::{ExitRegistry, Finalizable, Turn};
use lazy_cells::{Content, GenericLockedLazy, LockedLazyDroped, PrimedLockedLazyDroped, WithExit};
use phase_bits::{AccessError, Phase};
use phase_locker::ReadTicket;
use phase_seq::{FinalFault, Generator, InitError, InitFault, Uninit};
use std::process::Abort;
use std::test::Fail;

/// That a cell may be registered. The process ends where it may not.
fn ready(rt: &impl Abort, cell: u32, phase: Phase, registry: &ExitRegistry)
    ensures { MayBeRegistered cell phase registry.now }
{
    if registry.cells() <= cell {
        rt.abort()
    }
    if registry.knows(cell) & phase.is_empty() {
        rt.abort()
    }
}

/// A read ticket of the cell with this number. The process ends where it may not be registered.
fn read<T: Drop, G: Generator<T>, C: Content>(
    rt: &impl Abort,
    lazy: &mut GenericLockedLazy<T, G, WithExit<C>>,
    cell: u32,
    registry: &mut ExitRegistry,
) -> Result<ReadTicket, InitError>
    requires callable { G.may_call lazy.old.generator }
    requires cell { lazy.old.marker.cell ≡ cell }
    ensures opens { IfOk result (λ _. 0 < lazy.new.readers) }
    ensures again { G.may_call lazy.new.generator }
    ensures marker { lazy.new.marker ≡ lazy.old.marker }
{
    ready(rt, cell, lazy.phase(), registry);
    lazy.read(registry)
}

#[test]
fn the_exit_drops_a_value(rt: HostRuntime) -> Result<(), Fail> {
    let mut registry = ExitRegistry::new(rt.alloc(), 1)?;
    let mut lazy = LockedLazyDroped::from_generator(0, || -> Result<u64, InitFault> { Ok(22) });
    let answer = read(&rt, &mut lazy, 0, &mut registry);
    let Ok(ticket) = answer else { rt.abort() };
    assert_eq!(rt; *lazy.look(&ticket), 22);
    assert_eq!(rt; lazy.execute(), Turn::Busy);
    lazy.release(ticket);
    assert_eq!(rt; lazy.execute(), Turn::Done);
    assert_eq!(rt; lazy.phase().bits(), 73);
    let answer = read(&rt, &mut lazy, 0, &mut registry);
    let Err(error) = answer else { rt.abort() };
    let phase = lazy.phase();
    assert_eq!(rt; error, InitError::Access(AccessError { phase }));
    Ok(())
}

/// A number that is put back to 0.
#[derive(Drop)]
struct Back(u64);

impl Uninit for Back {
    ghost uninits = { λ v r left. Unit {0} };

    fn uninit(&mut self) -> Result<(), FinalFault> {
        self.0 = 0;
        Ok(())
    }
}

/// What a primed cell shows before any run, or after its end. The process ends where the value is in reach.
fn primed<G>(rt: &impl Abort, lazy: &mut PrimedLockedLazyDroped<Back, G>) -> u64
    ensures marker { lazy.new.marker ≡ lazy.old.marker }
    ensures generator { lazy.new.generator ≡ lazy.old.generator }
{
    let answer = lazy.primed_read_non_initializing();
    let Ok(held) = answer else { rt.abort() };
    let Err(ticket) = held else { rt.abort() };
    let value = lazy.look(&ticket).0;
    lazy.release(ticket);
    value
}

/// What a primed cell shows to a call that wants to write it after its end. The process ends where it may be written.
fn written<G: Generator<Back>>(
    rt: &impl Abort,
    lazy: &mut PrimedLockedLazyDroped<Back, G>,
    cell: u32,
    registry: &mut ExitRegistry,
) -> u64
    requires callable { G.may_call lazy.old.generator }
    requires cell { lazy.old.marker.cell ≡ cell }
    ensures again { G.may_call lazy.new.generator }
    ensures marker { lazy.new.marker ≡ lazy.old.marker }
{
    ready(rt, cell, lazy.phase(), registry);
    let answer = lazy.primed_write(registry);
    let Ok(held) = answer else { rt.abort() };
    let Err(ticket) = held else { rt.abort() };
    let value = lazy.look(&ticket).0;
    lazy.release(ticket);
    value
}

#[test]
fn the_exit_puts_a_primed_value_back(rt: HostRuntime) -> Result<(), Fail> {
    let mut registry = ExitRegistry::new(rt.alloc(), 1)?;
    let mut lazy = PrimedLockedLazyDroped::from_generator(
        0,
        Back(42),
        || -> Result<Back, InitFault> { Ok(Back(22)) },
    );
    assert_eq!(rt; primed(&rt, &mut lazy), 42);
    let answer = read(&rt, &mut lazy, 0, &mut registry);
    let Ok(ticket) = answer else { rt.abort() };
    assert_eq!(rt; lazy.look(&ticket).0, 22);
    lazy.release(ticket);
    assert_eq!(rt; lazy.execute(), Turn::Done);
    assert_eq!(rt; lazy.phase().bits(), 73);
    assert_eq!(rt; written(&rt, &mut lazy, 0, &mut registry), 0);
    assert_eq!(rt; primed(&rt, &mut lazy), 0);
    let answer = read(&rt, &mut lazy, 0, &mut registry);
    let Err(error) = answer else { rt.abort() };
    let phase = lazy.phase();
    assert_eq!(rt; error, InitError::Access(AccessError { phase }));
    Ok(())
}
