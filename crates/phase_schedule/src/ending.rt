//! What a run leaves at its end.

use schedule_rules::{Final, Turned};

/// What a run leaves at its end. This project's own.
#[derive(Drop)]
pub struct Ending {
    /// What each cell is left with, in the order of the cells.
    pub finals: Vec<Final>,
    /// The turns of the exit that ended, in their order. None is `Busy`.
    pub exits: Vec<Turned>,
}
