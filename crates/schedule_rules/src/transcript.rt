//! What a run of a schedule tells.

use crate::line::Line;
use exit_registry::Turned;
use phase_bits::Phase;

/// What a cell is left with. This project's own.
#[derive(Clone, Copy, PartialEq, Eq, Debug)]
pub struct Final {
    /// The published phase.
    pub phase: Phase,
    /// The published value, where there is one.
    pub value: Option<u64>,
}

/// What a run of a schedule tells. This project's own.
#[derive(Drop)]
pub struct Transcript {
    /// A line for each step, in the order of the steps.
    pub lines: Vec<Line>,
    /// What each cell is left with, in the order of the cells.
    pub finals: Vec<Final>,
    /// The turns of the exit that ended, in their order. None is `Busy`.
    pub exits: Vec<Turned>,
}
