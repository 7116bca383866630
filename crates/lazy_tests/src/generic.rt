//! Plain lazies in use.

ghost use Rattle.std.specs.Prelude.{true, false};

use exit_registry::{ExitRegistry, Finalizable, Turn};
use lazy_cells::{Lazy, LazyFinalize};
use phase_bits::{AccessError, Phase};
use phase_seq::{FinalFault, Finaly, Generator, GeneratorTolerance, InitError, InitFault};
use std::process::Abort;
use std::test::Fail;

/// A generator that fails so often, and then makes the number of its runs.
#[derive(Drop)]
struct Counted {
    failures: u32,
    runs: u32,
}

impl GeneratorTolerance for Counted {
    ghost INIT_FAILURE = { true };

    ghost FINAL_REGISTRATION_FAILURE = { false };

    const INIT_FAILURE: bool = true;

    const FINAL_REGISTRATION_FAILURE: bool = false;
}

impl Generator<u64> for Counted {
    ghost may_call = { λ g. Unit {0} };

    ghost generates = { λ g r. Unit {0} };

    ghost attempts = { λ g r left. Unit {0} };

    fn generate(&self) -> Result<u64, InitFault> {
        Err(InitFault)
    }

    fn attempt(&mut self) -> Result<u64, InitFault> {
        self.runs = self.runs.saturating_add(1);
        if self.failures == 0 {
            return Ok(self.runs as u64);
        }
        self.failures -= 1;
        Err(InitFault)
    }
}

/// What a call shows, by value.
fn shown<E: Copy>(got: Result<&u64, E>) -> Result<u64, E> {
    match got {
        Ok(value) => Ok(*value),
        Err(e) => Err(e),
    }
}

#[test]
fn a_generator_is_called_again_until_it_succeeds(rt: HostRuntime) {
    let mut lazy: Lazy<u64, Counted> = Lazy::from_generator(Counted {
        failures: 2,
        runs: 0,
    });
    assert_eq!(rt; shown(Lazy::get(&mut lazy)), Err(InitError::Failed));
    assert_eq!(rt; Lazy::phase(&lazy).bits(), 6);
    assert_eq!(rt; shown(Lazy::get(&mut lazy)), Err(InitError::Failed));
    assert_eq!(rt; shown(Lazy::try_get(&lazy)).is_err(), true);
    assert_eq!(rt; shown(Lazy::get(&mut lazy)), Ok(3));
    assert_eq!(rt; shown(Lazy::get(&mut lazy)), Ok(3));
    assert_eq!(rt; shown(Lazy::try_get(&lazy)), Ok(3));
    assert_eq!(rt; Lazy::phase(&lazy), Phase::INITIALIZED);
}

#[test]
fn a_function_that_is_called_once_is_not_called_again(rt: HostRuntime) {
    let mut lazy = Lazy::new(|| -> Result<u64, InitFault> { Err(InitFault) });
    let empty = AccessError {
        phase: Phase::empty(),
    };
    assert_eq!(rt; shown(Lazy::try_get(&lazy)), Err(empty));
    assert_eq!(rt; shown(Lazy::get(&mut lazy)), Err(InitError::Failed));
    assert_eq!(rt; Lazy::phase(&lazy).bits(), 6);
    let failed = AccessError {
        phase: Lazy::phase(&lazy),
    };
    assert_eq!(rt; shown(Lazy::get(&mut lazy)), Err(InitError::Access(failed)));
    assert_eq!(rt; Lazy::init(&mut lazy), Ok(failed.phase));
}

#[test]
fn an_empty_lazy_lends_nothing(rt: HostRuntime) -> Result<(), Fail> {
    let mut lazy: Lazy<u64, Counted> = Lazy::from_generator(Counted {
        failures: 0,
        runs: 0,
    });
    assert!(rt; Lazy::try_get_mut(&mut lazy).is_err());
    assert_eq!(rt; Lazy::init(&mut lazy), Ok(Phase::INITIALIZED));
    if let Ok(value) = Lazy::try_get_mut(&mut lazy) {
        *value = 3;
    }
    assert_eq!(rt; shown(Lazy::try_get(&lazy)), Ok(3));
    assert_eq!(rt; format!(in rt.alloc(); "{lazy:?}")?.as_str(), "3");
    Ok(())
}

/// A value whose finalizer succeeds where it is even.
#[derive(Drop)]
struct Even(u64);

impl Finaly for Even {
    ghost finalizes = { λ v r. Unit {0} };

    fn finaly(&self) -> Result<(), FinalFault> {
        if self.0 % 2 == 0 {
            Ok(())
        } else {
            Err(FinalFault)
        }
    }
}

/// Initializes a cell of the registry. The process ends where it may not be registered.
fn initialize(
    rt: &impl Abort,
    lazy: &mut LazyFinalize<Even, Numbered>,
    registry: &mut ExitRegistry,
    cell: u32,
) -> Result<Phase, InitError> {
    if LazyFinalize::cell(lazy) != cell {
        rt.abort()
    }
    if registry.cells() <= cell {
        rt.abort()
    }
    if registry.knows(cell) & LazyFinalize::phase(lazy).is_empty() {
        rt.abort()
    }
    LazyFinalize::init(lazy, registry)
}

/// A generator that makes this number.
#[derive(Drop)]
struct Numbered(u64);

impl GeneratorTolerance for Numbered {
    ghost INIT_FAILURE = { true };

    ghost FINAL_REGISTRATION_FAILURE = { false };

    const INIT_FAILURE: bool = true;

    const FINAL_REGISTRATION_FAILURE: bool = false;
}

impl Generator<Even> for Numbered {
    ghost may_call = { λ g. Unit {0} };

    ghost generates = { λ g r. Unit {0} };

    ghost attempts = { λ g r left. Unit {0} };

    fn generate(&self) -> Result<Even, InitFault> {
        Ok(Even(self.0))
    }

    fn attempt(&mut self) -> Result<Even, InitFault> {
        Generator::<Even>::generate(self)
    }
}

#[test]
fn a_finalized_lazy_keeps_its_value(rt: HostRuntime) -> Result<(), Fail> {
    let mut registry = ExitRegistry::new(rt.alloc(), 2)?;
    let mut fine = LazyFinalize::from_generator(0, Numbered(42));
    let mut failing = LazyFinalize::from_generator(1, Numbered(43));
    assert_eq!(rt; fine.execute(), Turn::Skipped);
    assert_eq!(rt;
        initialize(&rt, &mut fine, &mut registry, 0),
        Ok(Phase::INITIALIZED_AND_REGISTERED)
    );
    assert_eq!(rt;
        initialize(&rt, &mut failing, &mut registry, 1),
        Ok(Phase::INITIALIZED_AND_REGISTERED)
    );
    assert!(rt; registry.knows(0));
    assert_eq!(rt; fine.execute(), Turn::Done);
    assert_eq!(rt; LazyFinalize::phase(&fine).bits(), 73);
    assert_eq!(rt; failing.execute(), Turn::Failed);
    assert_eq!(rt; LazyFinalize::phase(&failing).bits(), 137);
    assert!(rt; LazyFinalize::try_get(&failing).is_ok());
    Ok(())
}
