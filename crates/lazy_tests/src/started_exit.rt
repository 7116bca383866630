//! Cells of Lesser forms from their start to the exit over their boxes.

ghost use Rattle.std.specs.Prelude.{◌≡◌, true, false};

use exit_registry::{ExitRegistry, Finalizable, Log, Turn, Turned};
use lazy_cells::{Lesser, LesserLockedLazyDroped, PrimedLesserLockedLazyDroped, start};
use phase_bits::{AccessError, Phase};
use phase_seq::{FinalFault, Generator, GeneratorTolerance, InitError, InitFault, Uninit};
use std::alloc::Global;
use std::process::Abort;
use std::test::Fail;

/// The turns of the exit over this cell, whose number is 0. The process ends where the registry has other cells.
fn turns(
    rt: &impl Abort,
    alloc: Global,
    registry: &mut ExitRegistry,
    cell: Box<dyn Finalizable>,
) -> Result<Log, Fail> {
    if registry.cells() != 1 {
        rt.abort()
    }
    let mut log = Log::new(alloc, 1)?;
    let mut cells = [cell];
    registry.run_exit(&mut cells, &mut log);
    Ok(log)
}

/// What was got. The process ends where nothing was.
fn got<K>(rt: &impl Abort, answer: Result<K, InitError>) -> K
    ensures { answer ≡ Ok result }
{
    let Ok(ticket) = answer else { rt.abort() };
    ticket
}

/// Why nothing was got. The process ends where a ticket was.
fn refused<K>(rt: &impl Abort, answer: Result<K, InitError>) -> InitError
    ensures { answer ≡ Err result }
{
    let Err(error) = answer else { rt.abort() };
    error
}

/// The same of a call that does not wait. The process ends where it was barred.
fn missed<K>(rt: &impl Abort, answer: Option<Result<K, AccessError>>) -> AccessError
    ensures { answer ≡ Some (Err result) }
{
    let Some(told) = answer else { rt.abort() };
    let Err(error) = told else { rt.abort() };
    error
}

/// One turn of cell 0, which is done.
const DONE: [Turned; 1] = [Turned {
    cell: 0,
    turn: Turn::Done,
}];

/// A generator that makes this number.
#[derive(Drop)]
struct Numbered(u64);

impl GeneratorTolerance for Numbered {
    ghost INIT_FAILURE = { true };

    ghost FINAL_REGISTRATION_FAILURE = { false };

    const INIT_FAILURE: bool = true;

    const FINAL_REGISTRATION_FAILURE: bool = false;
}

impl Generator<u64> for Numbered {
    ghost may_call = { λ g. Unit {0} };

    ghost generates = { λ g r. Unit {0} };

    ghost attempts = { λ g r left. Unit {0} };

    fn generate(&self) -> Result<u64, InitFault> {
        Ok(self.0)
    }

    fn attempt(&mut self) -> Result<u64, InitFault> {
        Generator::<u64>::generate(self)
    }
}

#[test]
fn a_dropped_cell_is_started_written_and_dropped(rt: HostRuntime) -> Result<(), Fail> {
    let mut registry = ExitRegistry::new(rt.alloc(), 1)?;
    let mut lazy: LesserLockedLazyDroped<u64, Numbered> = LesserLockedLazyDroped::from_generator(
        0,
        Numbered(33),
    );
    let empty = AccessError {
        phase: Phase::empty(),
    };
    assert_eq!(rt; lazy.phase_now(), empty.phase);
    assert_eq!(rt; refused(&rt, lazy.try_read()), InitError::Access(empty));
    assert_eq!(rt; refused(&rt, lazy.try_write()), InitError::Access(empty));
    assert_eq!(rt; missed(&rt, lazy.fast_try_read()), empty);
    assert_eq!(rt; missed(&rt, lazy.fast_try_write()), empty);
    assert_eq!(rt;
        lazy.start(&mut registry),
        Ok(Phase::INITIALIZED_AND_REGISTERED)
    );
    let mut ticket = got(&rt, lazy.try_write());
    assert_eq!(rt; *lazy.look_write(&ticket), 33);
    lazy.set(&mut ticket, 12);
    lazy.release_write(ticket);
    let ticket = got(&rt, lazy.try_read());
    assert_eq!(rt; *lazy.look(&ticket), 12);
    lazy.release(ticket);
    let log = turns(&rt, rt.alloc(), &mut registry, Box::new(rt.alloc(), lazy)?)?;
    assert_eq!(rt; log.entries(), DONE.as_slice());
    Ok(())
}

impl Generator<Back> for Numbered {
    ghost may_call = { λ g. Unit {0} };

    ghost generates = { λ g r. Unit {0} };

    ghost attempts = { λ g r left. Unit {0} };

    fn generate(&self) -> Result<Back, InitFault> {
        Ok(Back(self.0))
    }

    fn attempt(&mut self) -> Result<Back, InitFault> {
        Generator::<Back>::generate(self)
    }
}

/// A number that is put back to 0.
#[derive(Drop)]
struct Back(u64);

impl Uninit for Back {
    ghost uninits = { λ v r left. Unit {0} };

    fn uninit(&mut self) -> Result<(), FinalFault> {
        self.0 = 0;
        Ok(())
    }
}

#[test]
fn a_primed_cell_is_started_written_and_put_back(rt: HostRuntime) -> Result<(), Fail> {
    let mut registry = ExitRegistry::new(rt.alloc(), 1)?;
    let lazy: PrimedLesserLockedLazyDroped<Back, Numbered> =
        PrimedLesserLockedLazyDroped::from_generator(0, Back(1), Numbered(33));
    let Ok(mut started) = start(lazy, &mut registry) else {
        return Err("its generator succeeds".into());
    };
    let held = got(&rt, started.primed_write());
    let Ok(mut ticket) = held else { rt.abort() };
    assert_eq!(rt; started.look_write(&ticket).0, 33);
    started.set(&mut ticket, Back(42));
    started.release_write(ticket);
    let held = got(&rt, started.primed_read());
    let Ok(ticket) = held else { rt.abort() };
    assert_eq!(rt; started.look(&ticket).0, 42);
    started.release(ticket);
    let lazy = Box::new(rt.alloc(), started.into_inner())?;
    let log = turns(&rt, rt.alloc(), &mut registry, lazy)?;
    assert_eq!(rt; log.entries(), DONE.as_slice());
    Ok(())
}
