//! The rows that a run keeps: one for each cell, each party and each step, who is parked, and where the exit stands.

use exit_registry::ExitRegistry;
use phase_bits::Phase;
use phase_locker::{How, Parks, PhaseLocker, ReadTicket, WriteTicket};
use phase_seq::{LazySequentializer, Section};
use schedule_rules::{CellPlan, Turned, Want};

/// A section whose generator or finalizer runs.
#[derive(Clone, Copy, PartialEq, Eq, Debug)]
pub struct RunRow {
    /// The party that runs it.
    pub party: u32,
    /// What opened it.
    pub want: Want,
    /// The cell of the party's next outer section, where there is one.
    pub outer: Option<u32>,
}

/// The same, with the section that the cell's sequentializer gave.
pub struct OpenRun {
    pub run: RunRow,
    pub section: Section,
}

/// What the holder of a write guard sees, which is published when the guard is given back.
#[derive(Clone, Copy, PartialEq, Eq, Debug)]
pub struct Draft {
    pub phase: Phase,
    pub value: Option<u64>,
}

/// What is kept of a cell.
pub struct CellRow<L> {
    pub plan: CellPlan,
    /// Who runs the generator, and the locker, with the published phase.
    pub seq: LazySequentializer<L, ()>,
    /// The published value.
    pub value: Option<u64>,
    /// How many calls and turns wait here.
    pub waiting: u32,
    /// The section that runs.
    pub run: Option<OpenRun>,
    /// What the holder of the cell's write guard sees. Without meaning while none is open.
    pub draft: Draft,
}

/// What is kept of a step: the guard that it opened, with its lock, while that is open.
pub enum GuardRow {
    /// No guard.
    Free,
    /// A read guard of the party on the cell.
    Read {
        party: u32,
        cell: u32,
        lock: ReadTicket,
    },
    /// A write guard of the party on the cell. The cell's row keeps what its holder sees.
    Write {
        party: u32,
        cell: u32,
        lock: WriteTicket,
    },
}

/// What is attempted at a cell.
#[derive(Clone, Copy, PartialEq, Eq, Debug)]
pub struct Target {
    pub cell: u32,
    pub want: Want,
}

/// What is kept of a party. How it waits, the rows of `Parks` say.
#[derive(Clone, Copy, PartialEq, Eq, Debug)]
pub struct PartyRow {
    /// What it waits with.
    pub waiting: Option<Target>,
    /// The cell of the innermost section that the party runs.
    pub innermost: Option<u32>,
}

/// Where the exit stands.
pub struct Exit {
    /// Which cells are registered for it, and which are left of its round.
    pub registry: ExitRegistry,
    /// The party that owns it: that of its first step.
    pub owner: Option<u32>,
    /// The turns that ended, in order.
    pub turns: Vec<Turned>,
}

/// What an attempt was answered. A lock is in the hand of the step then.
pub enum Taken {
    /// It waits so.
    Wait(How),
    /// It is barred, and does not wait.
    Missed,
    /// It asks for a run of the generator that its own party is running.
    Cyclic,
    /// No lock is left, and nothing runs: the phase of the cell.
    Nothing(Phase),
    /// A lock to read, at this phase.
    Read(ReadTicket, Phase),
    /// The lock to write, at this phase.
    Write(WriteTicket, Phase),
    /// The generator runs, or the finalizer.
    Runs,
}

/// All rows. A step pushes one row of guards as it ends, so the guard that a step opened stands at the number of that
/// step. Guards and sections hold locks, so rows are spent by giving these back.
pub struct Rows<L: PhaseLocker> {
    pub cells: Vec<CellRow<L>>,
    pub guards: Vec<GuardRow>,
    pub parties: Vec<PartyRow>,
    /// How each party waits, and who is parked at each cell.
    pub parks: Parks,
    /// Where the exit stands.
    pub exit: Exit,
}
