//! A service, from its start to its stop: its cells are started, used, and finalized by the exit.

ghost use Rattle.std.specs.Prelude.{◌≡◌, ℕ, ◌≤◌, true, false, Some, IfOk, All};
ghost use Rattle.exit_registry.specs.Registry.{cells_of, occurs};
ghost use Rattle.exit_registry.specs.Exits.{cells_of_turns, closed};
ghost use Rattle.exit_registry.specs.Turns.{is_still};
ghost use Rattle.lazy_cells.specs.Locked.{bars_write};

use exit_registry::{ExitRegistry, Finalizable, Log};
use lazy_cells::{
    Lesser, LesserLazy, LesserLockedLazyDroped, PrimedLesserLockedLazy, Started, start, start_all,
};
use phase_seq::{DefaultGenerator, InitError};
use std::alloc::{AllocError, Global};
use thiserror::Error;

/// Why a service does not run.
#[derive(Error, Debug, Drop)]
pub enum ServiceError {
    /// There is no memory.
    #[error("there is no memory")]
    Memory(#[from] AllocError),
    /// A cell can't be started, or used.
    #[error("a cell can't be used: {0:?}")]
    Cell(#[from] InitError),
}

/// What a service did: how many connections it had, and how its exit ended.
#[derive(Drop)]
pub struct Served {
    /// The connections.
    pub connections: u64,
    /// The exit.
    pub log: Log,
}

/// The connections of a service, which its exit drops.
pub type Pool = LesserLockedLazyDroped<u64, DefaultGenerator>;

/// Opens one more connection, and tells how many there are then. No ticket is left open.
///
/// # Errors
///
/// `Borrowed` where a ticket of the pool is open, `Access` where the exit was there.
pub fn connect(pool: &mut Started<Pool>) -> Result<u64, InitError>
    ensures counted { IfOk result (λ n. pool.new.value ≡ Some n) }
    ensures held { bars_write pool.new ≡ bars_write pool.old }
{
    let mut ticket = pool.write()?;
    let connections = pool.look_write(&ticket).saturating_add(1);
    pool.set(&mut ticket, connections);
    pool.release_write(ticket);
    Ok(connections)
}

/// Stops a service whose only registered cell is this one, which is initialized, and which nobody holds. The exit takes no
/// cell twice, and finalizes each that it takes. After it nothing is registered any more.
///
/// # Errors
///
/// `AllocError` where there is no memory.
pub fn stop(
    alloc: Global,
    cell: Box<dyn Finalizable>,
    registry: &mut ExitRegistry,
) -> Result<Log, AllocError>
    requires one { cells_of registry.old ≡ 1 }
    requires started { (meanings cell).initialized ≡ true }
    requires free { (meanings cell).held ≡ false }
    ensures closed { IfOk result (λ log. registry.new ≡ closed registry.old) }
    ensures once { IfOk result (λ log. (c : ℕ) → occurs c (cells_of_turns log.turns) ≤ 1) }
    ensures ended { IfOk result (λ log. All (λ t. is_still t.turn ≡ false) log.turns) }
{
    let mut log = Log::new(alloc, 1)?;
    let mut cells = [cell];
    prove!(registry.cells() == 1);
    registry.run_exit(&mut cells, &mut log);
    Ok(log)
}

/// A service, from its start to its stop. Its exit takes no cell twice, and finalizes each that it takes.
///
/// # Errors
///
/// `Memory` where there is no memory, `Cell` where a cell can't be started or used.
pub fn serve(alloc: Global) -> Result<Served, ServiceError>
    ensures once { IfOk result (λ served. (c : ℕ) → occurs c (cells_of_turns served.log.turns) ≤ 1) }
    ensures ended { IfOk result (λ served. All (λ t. is_still t.turn ≡ false) served.log.turns) }
{
    // The pool is cell 0 of the registry, and the only one that the exit is to finalize.
    let mut registry = ExitRegistry::new(alloc, 1)?;
    let pool: Pool = LesserLockedLazyDroped::from_generator(0, DefaultGenerator);
    let mut pool = match start(pool, &mut registry) {
        Ok(pool) => pool,
        Err((_, error)) => return Err(error.into()),
    };
    // Cells that are only started, in order. The first that fails would end it.
    let cache: LesserLazy<u64, DefaultGenerator> = LesserLazy::from_generator(DefaultGenerator);
    let limit: PrimedLesserLockedLazy<u64, DefaultGenerator> =
        PrimedLesserLockedLazy::from_generator(100, DefaultGenerator);
    let mut helpers: [Box<dyn Lesser>; 2] = [
        Box::new(alloc, cache).map_err(AllocError::from)?,
        Box::new(alloc, limit).map_err(AllocError::from)?,
    ];
    if let Err((_, error)) = start_all(&mut helpers, &mut registry) {
        return Err(error.into());
    }
    // A started cell asks for no registry any more.
    let connections = connect(&mut pool)?;
    let pool = Box::new(alloc, pool.into_inner()).map_err(AllocError::from)?;
    let log = stop(alloc, pool, &mut registry)?;
    Ok(Served { connections, log })
}
