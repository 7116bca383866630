//! The exit registry: which cells are registered for the exit, in which rounds their turns come, and the exit itself.
//! Of the other crates it stands on `phase_bits` alone, for a few definitions of lists.
#![tactic(auto)]

mod exit;
mod log;
mod registry;
mod turns;

pub use log::Log;
pub use registry::{ExitRegistry, Look};
pub use turns::{Finalizable, Turn, Turned};
