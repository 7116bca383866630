//! Plain lazies that the exit finalizes, and values that their owner changes.

ghost use Rattle.std.specs.Prelude.{true, false};
ghost use Rattle.lazy_cells.specs.Cells.{MayBeRegistered};

use exit_registry::{ExitRegistry, Finalizable, Log, Look, Turn, Turned};
use lazy_cells::{Lazy, LazyFinalize};
use phase_bits::{AccessError, Phase};
use phase_seq::{FinalFault, Finaly, Generator, GeneratorTolerance, InitError, InitFault};
use std::alloc::Global;
use std::process::Abort;
use std::test::Fail;

/// A number whose finalizer succeeds where it is even.
#[derive(Drop)]
struct Even(u64);

impl Finaly for Even {
    ghost finalizes = { λ v r. Unit {0} };

    fn finaly(&self) -> Result<(), FinalFault> {
        if self.0 % 2 == 0 {
            Ok(())
        } else {
            Err(FinalFault)
        }
    }
}

/// A generator that fails so often, and then makes this number. Its cells do not put up with a refused registration.
#[derive(Drop)]
struct Late {
    failures: u32,
    value: u64,
}

impl GeneratorTolerance for Late {
    ghost INIT_FAILURE = { true };

    ghost FINAL_REGISTRATION_FAILURE = { false };

    const INIT_FAILURE: bool = true;

    const FINAL_REGISTRATION_FAILURE: bool = false;
}

impl Generator<Even> for Late {
    ghost may_call = { λ g. Unit {0} };

    ghost generates = { λ g r. Unit {0} };

    ghost attempts = { λ g r left. Unit {0} };

    fn generate(&self) -> Result<Even, InitFault> {
        Err(InitFault)
    }

    fn attempt(&mut self) -> Result<Even, InitFault> {
        if self.failures == 0 {
            return Ok(Even(self.value));
        }
        self.failures -= 1;
        Err(InitFault)
    }
}

/// A generator that makes this number. Its cells put up with a refused registration.
#[derive(Drop)]
struct Leaking(u64);

impl GeneratorTolerance for Leaking {
    ghost INIT_FAILURE = { true };

    ghost FINAL_REGISTRATION_FAILURE = { true };

    const INIT_FAILURE: bool = true;

    const FINAL_REGISTRATION_FAILURE: bool = true;
}

impl Generator<Even> for Leaking {
    ghost may_call = { λ g. Unit {0} };

    ghost generates = { λ g r. Unit {0} };

    ghost attempts = { λ g r left. Unit {0} };

    fn generate(&self) -> Result<Even, InitFault> {
        Ok(Even(self.0))
    }

    fn attempt(&mut self) -> Result<Even, InitFault> {
        Generator::<Even>::generate(self)
    }
}

/// That a cell may be registered. The process ends where it may not.
fn ready(rt: &impl Abort, cell: u32, phase: Phase, registry: &ExitRegistry)
    ensures { MayBeRegistered cell phase registry.now }
{
    if registry.cells() <= cell {
        rt.abort()
    }
    if registry.knows(cell) & phase.is_empty() {
        rt.abort()
    }
}

/// The number that a lazy shows. The process ends where it may not be registered.
fn get<G: Generator<Even>>(
    rt: &impl Abort,
    lazy: &mut LazyFinalize<Even, G>,
    registry: &mut ExitRegistry,
) -> Result<u64, InitError>
    requires { G.may_call lazy.old.generator }
    ensures { G.may_call lazy.new.generator }
{
    ready(
        rt,
        LazyFinalize::cell(lazy),
        LazyFinalize::phase(lazy),
        registry,
    );
    LazyFinalize::init(lazy, registry)?;
    match LazyFinalize::try_get(lazy) {
        Ok(value) => Ok(value.0),
        Err(error) => Err(InitError::Access(error)),
    }
}

#[test]
fn a_cell_is_registered_once(rt: HostRuntime) -> Result<(), Fail> {
    let mut registry = ExitRegistry::new(rt.alloc(), 1)?;
    let mut lazy = LazyFinalize::from_generator(
        0,
        Late {
            failures: 2,
            value: 42,
        },
    );
    assert_eq!(rt; get(&rt, &mut lazy, &mut registry), Err(InitError::Failed));
    assert_eq!(rt; get(&rt, &mut lazy, &mut registry), Err(InitError::Failed));
    assert_eq!(rt; LazyFinalize::phase(&lazy).bits(), 14);
    assert_eq!(rt; get(&rt, &mut lazy, &mut registry), Ok(42));
    assert_eq!(rt; LazyFinalize::phase(&lazy).bits(), 9);
    Ok(())
}

/// A registry that is closed. The process ends where it can't be.
fn closed(rt: &impl Abort, alloc: Global) -> Result<ExitRegistry, Fail> {
    let mut registry = ExitRegistry::new(alloc, 2)?;
    if registry.next_turn().is_some() {
        rt.abort()
    }
    if registry.look() != Look::Closed {
        rt.abort()
    }
    Ok(registry)
}

#[test]
fn a_closed_registry_refuses(rt: HostRuntime) -> Result<(), Fail> {
    let mut registry = closed(&rt, rt.alloc())?;
    let mut strict = LazyFinalize::from_generator(
        0,
        Late {
            failures: 0,
            value: 42,
        },
    );
    let mut leaking = LazyFinalize::from_generator(1, Leaking(9));
    let Err(refused) = get(&rt, &mut strict, &mut registry) else {
        return Err("it is refused".into());
    };
    let phase = LazyFinalize::phase(&strict);
    assert_eq!(rt; phase.bits(), 36);
    assert_eq!(rt; refused, InitError::Access(AccessError { phase }));
    assert_eq!(rt; get(&rt, &mut strict, &mut registry), Err(refused));
    assert_eq!(rt; get(&rt, &mut leaking, &mut registry), Ok(9));
    assert_eq!(rt; LazyFinalize::phase(&leaking).bits(), 33);
    Ok(())
}

#[test]
fn the_exit_runs_over_boxed_lazies(rt: HostRuntime) -> Result<(), Fail> {
    let alloc = rt.alloc();
    let mut registry = ExitRegistry::new(alloc, 2)?;
    let mut first = LazyFinalize::from_generator(0, Leaking(43));
    let mut second = LazyFinalize::from_generator(1, Leaking(42));
    assert_eq!(rt; get(&rt, &mut first, &mut registry), Ok(43));
    assert_eq!(rt; get(&rt, &mut second, &mut registry), Ok(42));
    let mut cells: [Box<dyn Finalizable>; 2] = [Box::new(alloc, first)?, Box::new(alloc, second)?];
    if registry.cells() != 2 {
        rt.abort()
    }
    let mut log = Log::new(alloc, 2)?;
    registry.run_exit(&mut cells, &mut log);
    let due = [
        Turned {
            cell: 1,
            turn: Turn::Done,
        },
        Turned {
            cell: 0,
            turn: Turn::Failed,
        },
    ];
    assert_eq!(rt; log.entries(), due.as_slice());
    Ok(())
}

/// The next look of an exit. The process ends where a cell is left of the last one.
fn look(rt: &impl Abort, registry: &mut ExitRegistry) -> Look {
    if registry.next_turn().is_some() {
        rt.abort()
    }
    registry.look()
}

#[test]
fn a_lazy_that_is_made_in_an_exit_has_its_turn(rt: HostRuntime) -> Result<(), Fail> {
    let mut registry = ExitRegistry::new(rt.alloc(), 3)?;
    let mut first = LazyFinalize::from_generator(0, Leaking(2));
    let mut second = LazyFinalize::from_generator(1, Leaking(4));
    let mut third = LazyFinalize::from_generator(2, Leaking(6));
    assert_eq!(rt; get(&rt, &mut first, &mut registry), Ok(2));
    assert_eq!(rt; get(&rt, &mut second, &mut registry), Ok(4));
    assert_eq!(rt; look(&rt, &mut registry), Look::Round(2));
    assert_eq!(rt; registry.next_turn(), Some(1));
    assert_eq!(rt; second.execute(), Turn::Done);
    assert_eq!(rt; get(&rt, &mut third, &mut registry), Ok(6));
    assert_eq!(rt; registry.next_turn(), Some(0));
    assert_eq!(rt; first.execute(), Turn::Done);
    assert_eq!(rt; look(&rt, &mut registry), Look::Round(1));
    assert_eq!(rt; registry.next_turn(), Some(2));
    assert_eq!(rt; third.execute(), Turn::Done);
    assert_eq!(rt; look(&rt, &mut registry), Look::Closed);
    assert_eq!(rt; LazyFinalize::phase(&third).bits(), 73);
    Ok(())
}

/// Writes one more item to a list. The process ends where there is no memory.
fn push(rt: &impl Abort, list: &mut Vec<u64>, item: u64) {
    if list.push(item).is_err() {
        rt.abort()
    }
}

#[test]
fn a_list_is_changed_by_its_owner(rt: HostRuntime) -> Result<(), Fail> {
    let alloc = rt.alloc();
    let mut lazy = Lazy::new(|| -> Result<Vec<u64>, InitFault> {
        match vec![in alloc; 1, 2] {
            Ok(list) => Ok(list),
            Err(_) => Err(InitFault),
        }
    });
    let empty = Phase::empty();
    let Err(error) = Lazy::try_get_mut(&mut lazy) else {
        return Err("it is empty".into());
    };
    assert_eq!(rt; error, AccessError { phase: empty });
    if let Ok(list) = Lazy::get_mut(&mut lazy) {
        push(&rt, list, 3);
    }
    if let Ok(list) = Lazy::try_get_mut(&mut lazy) {
        push(&rt, list, 4);
    }
    if let Ok(list) = Lazy::get_mut(&mut lazy) {
        push(&rt, list, 5);
    }
    let Ok(list) = Lazy::get(&mut lazy) else {
        return Err("it is there".into());
    };
    assert!(rt; list.as_slice() == [1, 2, 3, 4, 5].as_slice());
    assert_eq!(rt; Lazy::phase(&lazy), Phase::INITIALIZED);
    Ok(())
}
