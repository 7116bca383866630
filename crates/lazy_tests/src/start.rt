//! Cells that are started.

ghost use Rattle.std.specs.Prelude.{true, false};

use exit_registry::ExitRegistry;
use lazy_cells::{
    Lesser, LesserLazy, LesserLockedLazy, PrimedLesserLockedLazy, Started, start, start_all,
};
use phase_bits::Phase;
use phase_seq::{Generator, GeneratorTolerance, InitError, InitFault};
use std::test::Fail;

#[test]
fn a_started_lazy_shows_its_value(rt: HostRuntime) -> Result<(), Fail> {
    let mut registry = ExitRegistry::new(rt.alloc(), 1)?;
    let lazy = LesserLazy::from_generator(|| -> Result<u64, InitFault> { Ok(4) });
    let Err(lazy) = Started::of(lazy) else {
        return Err("it is not initialized".into());
    };
    let Ok(mut started) = start(lazy, &mut registry) else {
        return Err("its generator succeeds".into());
    };
    let Ok(value) = Started::get(&mut started) else {
        return Err("it is there".into());
    };
    assert_eq!(rt; *value, 4);
    Ok(())
}

#[test]
fn a_start_that_fails_hands_the_cell_back(rt: HostRuntime) -> Result<(), Fail> {
    let mut registry = ExitRegistry::new(rt.alloc(), 1)?;
    let lazy = LesserLockedLazy::from_generator(|| -> Result<u64, InitFault> { Err(InitFault) });
    let Err((lazy, error)) = start(lazy, &mut registry) else {
        return Err("its generator fails".into());
    };
    assert_eq!(rt; error, InitError::Failed);
    assert_eq!(rt; lazy.phase_now().bits(), 6);
    Ok(())
}

#[test]
fn a_started_primed_lazy_is_written(rt: HostRuntime) -> Result<(), Fail> {
    let mut registry = ExitRegistry::new(rt.alloc(), 1)?;
    let lazy = PrimedLesserLockedLazy::from_generator(42, || -> Result<u64, InitFault> { Ok(22) });
    let Ok(mut started) = start(lazy, &mut registry) else {
        return Err("its generator succeeds".into());
    };
    let answer = started.write();
    let Ok(mut ticket) = answer else {
        return Err("nobody holds it".into());
    };
    assert_eq!(rt; *started.look_write(&ticket), 22);
    started.set(&mut ticket, 33);
    let ticket = started.downgrade(ticket);
    assert_eq!(rt; *started.look(&ticket), 33);
    assert_eq!(rt; started.phase_of(&ticket), Phase::INITIALIZED);
    started.release(ticket);
    Ok(())
}

/// A generator that makes 1, or fails.
#[derive(Drop)]
struct Makes {
    fails: bool,
}

impl GeneratorTolerance for Makes {
    ghost INIT_FAILURE = { true };

    ghost FINAL_REGISTRATION_FAILURE = { false };

    const INIT_FAILURE: bool = true;

    const FINAL_REGISTRATION_FAILURE: bool = false;
}

impl Generator<u64> for Makes {
    ghost may_call = { λ g. Unit {0} };

    ghost generates = { λ g r. Unit {0} };

    ghost attempts = { λ g r left. Unit {0} };

    fn generate(&self) -> Result<u64, InitFault> {
        if self.fails {
            return Err(InitFault);
        }
        Ok(1)
    }

    fn attempt(&mut self) -> Result<u64, InitFault> {
        Generator::<u64>::generate(self)
    }
}

#[test]
fn a_list_is_started_in_order(rt: HostRuntime) -> Result<(), Fail> {
    let alloc = rt.alloc();
    let mut registry = ExitRegistry::new(alloc, 1)?;
    let first = LesserLazy::from_generator(Makes { fails: false });
    let second = LesserLazy::from_generator(Makes { fails: true });
    let mut cells: [Box<dyn Lesser>; 2] = [Box::new(alloc, first)?, Box::new(alloc, second)?];
    let answer = start_all(&mut cells, &mut registry);
    assert_eq!(rt; answer, Err((1, InitError::Failed)));
    assert_eq!(rt; cells[0].phase_now(), Phase::INITIALIZED);
    assert_eq!(rt; cells[1].phase_now().bits(), 6);
    Ok(())
}
