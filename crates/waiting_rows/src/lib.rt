//! How the rows of `Parks` show who waits at the cells of a schedule. A call that begins to wait, goes on or ends is a
//! change of the waits, and the rows that a locker leaves show just that change. It stands on `schedule_rules` for who
//! waits, and on `phase_locker` for the rows. Nothing here runs: there are definitions in `specs/`, lemmas, and two laws.
#![tactic(auto)]

mod laws;

pub use laws::{counts_are_of_calls, shown_rows_are_sound};
