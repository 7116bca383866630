//! Each call of a plain lazy at each phase that it can meet, against the table of calls.

ghost use Rattle.std.specs.Prelude.{true, false};
ghost use Rattle.lazy_cells.specs.Cells.{MayBeRegistered};

use crate::call_table::Past::{Called, Finalized, Nothing};
use crate::call_table::Told::{Access, At, Failed, Value};
use exit_registry::{ExitRegistry, Finalizable};
use lazy_cells::LazyFinalize;
use phase_bits::Phase;
use phase_seq::{FinalFault, Finaly, Generator, GeneratorTolerance, InitError, InitFault};
use std::alloc::Global;
use std::process::Abort;
use std::test::Fail;

/// A number whose finalizer succeeds where it is even.
#[derive(Drop)]
struct Even(u64);

impl Finaly for Even {
    ghost finalizes = { λ v r. Unit {0} };

    fn finaly(&self) -> Result<(), FinalFault> {
        if self.0 % 2 == 0 {
            Ok(())
        } else {
            Err(FinalFault)
        }
    }
}

/// A generator that fails so often, and then makes this number.
#[derive(Drop)]
struct Late<const RETRY: bool, const LEAK: bool> {
    failures: u32,
    value: u64,
}

impl<const RETRY: bool, const LEAK: bool> GeneratorTolerance for Late<RETRY, LEAK> {
    ghost INIT_FAILURE = { RETRY };

    ghost FINAL_REGISTRATION_FAILURE = { LEAK };

    const INIT_FAILURE: bool = RETRY;

    const FINAL_REGISTRATION_FAILURE: bool = LEAK;
}

impl<const RETRY: bool, const LEAK: bool> Generator<Even> for Late<RETRY, LEAK> {
    ghost may_call = { λ g. Unit {0} };

    ghost generates = { λ g r. Unit {0} };

    ghost attempts = { λ g r left. Unit {0} };

    fn generate(&self) -> Result<Even, InitFault> {
        Err(InitFault)
    }

    fn attempt(&mut self) -> Result<Even, InitFault> {
        if self.failures == 0 {
            return Ok(Even(self.value));
        }
        self.failures -= 1;
        Err(InitFault)
    }
}

/// What a call tells: the value, the phase, the phase at which the value is not in reach, or that the generator failed.
#[derive(Clone, Copy, PartialEq, Eq, Debug)]
enum Told {
    Value(u64),
    At(u32),
    Access(u32),
    Failed,
}

/// What a call that shows the value tells.
fn shown(answer: Result<u64, InitError>) -> Told {
    match answer {
        Ok(value) => Told::Value(value),
        Err(InitError::Access(error)) => Told::Access(error.phase.bits()),
        Err(_) => Told::Failed,
    }
}

/// What a lazy met before: nothing; a call that may run the generator; that, and its turn in an exit.
#[derive(Clone, Copy, PartialEq, Eq)]
enum Past {
    Nothing,
    Called,
    Finalized,
}

/// How often the generator fails, and which number it then makes; whether the registry is closed; what the lazy met before;
/// the phase then, and what `try_get`, `get` and `init` tell; and the phase after one of the last two.
type Row = (u32, u64, bool, Past, u32, Told, Told, Told, u32);

/// A registry of one cell, that is closed or not. The process ends where it can't be.
fn registry(rt: &impl Abort, alloc: Global, closed: bool) -> Result<ExitRegistry, Fail> {
    let mut registry = ExitRegistry::new(alloc, 1)?;
    if closed {
        if registry.next_turn().is_some() {
            rt.abort()
        }
        let _look = registry.look();
    }
    Ok(registry)
}

/// That a cell may be registered. The process ends where it may not.
fn ready(rt: &impl Abort, cell: u32, phase: Phase, registry: &ExitRegistry)
    ensures { MayBeRegistered cell phase registry.now }
{
    if registry.cells() <= cell {
        rt.abort()
    }
    if registry.knows(cell) & phase.is_empty() {
        rt.abort()
    }
}

/// What `init` tells.
fn init<const RETRY: bool, const LEAK: bool>(
    rt: &impl Abort,
    lazy: &mut LazyFinalize<Even, Late<RETRY, LEAK>>,
    registry: &mut ExitRegistry,
) -> Told {
    ready(
        rt,
        LazyFinalize::cell(lazy),
        LazyFinalize::phase(lazy),
        registry,
    );
    match LazyFinalize::init(lazy, registry) {
        Ok(phase) => Told::At(phase.bits()),
        Err(error) => shown(Err(error)),
    }
}

/// What `get` tells.
fn get<const RETRY: bool, const LEAK: bool>(
    rt: &impl Abort,
    lazy: &mut LazyFinalize<Even, Late<RETRY, LEAK>>,
    registry: &mut ExitRegistry,
) -> Told {
    ready(
        rt,
        LazyFinalize::cell(lazy),
        LazyFinalize::phase(lazy),
        registry,
    );
    match LazyFinalize::get(lazy, registry) {
        Ok(value) => Told::Value(value.0),
        Err(error) => shown(Err(error)),
    }
}

/// What `try_get` tells.
fn try_get<const RETRY: bool, const LEAK: bool>(
    lazy: &LazyFinalize<Even, Late<RETRY, LEAK>>,
) -> Told {
    match LazyFinalize::try_get(lazy) {
        Ok(value) => Told::Value(value.0),
        Err(error) => Told::Access(error.phase.bits()),
    }
}

/// A lazy that met what the row says.
fn lazy_of<const RETRY: bool, const LEAK: bool>(
    rt: &impl Abort,
    row: &Row,
    registry: &mut ExitRegistry,
) -> LazyFinalize<Even, Late<RETRY, LEAK>> {
    let failures = row.0;
    let value = row.1;
    let mut lazy = LazyFinalize::from_generator(0, Late { failures, value });
    if row.3 != Past::Nothing {
        init(rt, &mut lazy, registry);
    }
    if row.3 == Past::Finalized {
        let _turn = lazy.execute();
    }
    lazy
}

/// That each call of a lazy tells what the row says, and leaves its phase.
fn meets<const RETRY: bool, const LEAK: bool>(
    rt: &impl Abort,
    alloc: Global,
    row: &Row,
) -> Result<(), Fail> {
    let mut first = registry(rt, alloc, row.2)?;
    let mut second = registry(rt, alloc, row.2)?;
    let mut got: LazyFinalize<Even, Late<RETRY, LEAK>> = lazy_of(rt, row, &mut first);
    let mut made: LazyFinalize<Even, Late<RETRY, LEAK>> = lazy_of(rt, row, &mut second);
    assert_eq!(rt; LazyFinalize::phase(&got).bits(), row.4);
    assert_eq!(rt; try_get(&got), row.5);
    assert_eq!(rt; LazyFinalize::phase(&got).bits(), row.4);
    assert_eq!(rt; get(rt, &mut got, &mut first), row.6);
    assert_eq!(rt; LazyFinalize::phase(&got).bits(), row.8);
    assert_eq!(rt; init(rt, &mut made, &mut second), row.7);
    assert_eq!(rt; LazyFinalize::phase(&made).bits(), row.8);
    Ok(())
}

#[test]
fn a_lazy_whose_runs_are_repeated_meets_the_table(rt: HostRuntime) -> Result<(), Fail> {
    let rows: [Row; 9] = [
        (0, 42, false, Nothing, 0, Access(0), Value(42), At(9), 9),
        (1, 42, false, Nothing, 0, Access(0), Failed, Failed, 14),
        (1, 42, false, Called, 14, Access(14), Value(42), At(9), 9),
        (2, 42, false, Called, 14, Access(14), Failed, Failed, 14),
        (0, 42, false, Called, 9, Value(42), Value(42), At(9), 9),
        (0, 42, true, Nothing, 0, Access(0), Access(36), At(36), 36),
        (0, 42, true, Called, 36, Access(36), Access(36), At(36), 36),
        (
            0,
            42,
            false,
            Finalized,
            73,
            Value(42),
            Value(42),
            At(73),
            73,
        ),
        (
            0,
            43,
            false,
            Finalized,
            137,
            Value(43),
            Value(43),
            At(137),
            137,
        ),
    ];
    for row in &rows {
        meets::<true, false>(&rt, rt.alloc(), row)?;
    }
    Ok(())
}

#[test]
fn a_lazy_whose_run_is_not_repeated_meets_the_table(rt: HostRuntime) -> Result<(), Fail> {
    let rows: [Row; 5] = [
        (0, 42, false, Nothing, 0, Access(0), Value(42), At(9), 9),
        (1, 42, false, Nothing, 0, Access(0), Failed, Failed, 14),
        (1, 42, false, Called, 14, Access(14), Access(14), At(14), 14),
        (0, 42, true, Called, 36, Access(36), Access(36), At(36), 36),
        (
            0,
            42,
            false,
            Finalized,
            73,
            Value(42),
            Value(42),
            At(73),
            73,
        ),
    ];
    for row in &rows {
        meets::<false, false>(&rt, rt.alloc(), row)?;
    }
    Ok(())
}

#[test]
fn a_lazy_that_may_leak_meets_the_table(rt: HostRuntime) -> Result<(), Fail> {
    let rows: [Row; 4] = [
        (0, 42, false, Nothing, 0, Access(0), Value(42), At(9), 9),
        (0, 42, true, Nothing, 0, Access(0), Value(42), At(33), 33),
        (1, 42, true, Called, 38, Access(38), Value(42), At(33), 33),
        (0, 42, true, Called, 33, Value(42), Value(42), At(33), 33),
    ];
    for row in &rows {
        meets::<true, true>(&rt, rt.alloc(), row)?;
    }
    Ok(())
}
