//! The lock word of a cell that threads share. It stands on one word of `atomic_table`, on `phase_bits` for phases and for
//! the record that a word says, and on `phase_locker` for what a call wants and gets.
#![tactic(auto)]

mod attempts;
mod rule;
mod seat;
mod spin_wait;
mod table;
mod view;
mod wait_cell;

pub use seat::CellSeat;
pub use spin_wait::SpinWait;
pub use table::SyncTable;
pub use view::{Hold, View};
pub use wait_cell::WaitCell;
