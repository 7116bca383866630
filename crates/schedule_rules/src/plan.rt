//! The plan of a schedule: its parties and its cells.

use lazy_cells::Kind;

/// Which lock a cell has, that is, how a call waits that its lock bars. This project's own, by the two families of
/// lockers of static_init.
#[derive(Clone, Copy, PartialEq, Eq, Debug)]
pub enum Place {
    /// A call that is barred parks or drains, and the lock may be handed to it when it is free.
    Park,
    /// A call that is barred tries again by itself, and nothing is handed to it.
    Spin,
    /// The cell belongs to the party with this number, and no other party may call it. A call that is barred is answered
    /// so at once, and nothing waits. For the kinds `Lazy` and `LockedLazy` alone, in a schedule that runs.
    Own(u32),
}

/// A cell of a plan.
#[derive(Clone, Copy, PartialEq, Eq, Debug)]
pub struct CellPlan {
    /// What the cell is.
    pub kind: Kind,
    /// Whether the generator is run again after it failed: `GeneratorTolerance::INIT_FAILURE` of
    /// static_init, which its `try_init_once` takes away. Without it the generator runs once, and
    /// what reads or writes the cell after a failure is told that the value may not be accessed.
    pub retry: bool,
    /// Whether the generator also runs where the cell could not be registered for the exit:
    /// `GeneratorTolerance::FINAL_REGISTRATION_FAILURE` of static_init, its `tolerate_leak`. It has no effect on a kind
    /// that is not registered.
    pub leak: bool,
    /// How a barred call waits.
    pub place: Place,
    /// The value that a cell of a primed kind holds from the start. It has no effect on other kinds.
    pub prime: u64,
}

/// The parties and the cells of a schedule. Both are numbered from 0. This project's own.
#[derive(Drop)]
pub struct Plan {
    /// How many parties there are: below 2^20 in a schedule that runs.
    pub parties: u32,
    /// The cells, in the order of their numbers: fewer than 2^32 in a schedule that runs.
    pub cells: Vec<CellPlan>,
}
