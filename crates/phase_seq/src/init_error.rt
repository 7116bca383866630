//! Why a call gives no access to a cell's value.

use phase_bits::AccessError;

/// A call that asks for the value of a cell did not get it. This project's own: static_init panics, blocks or answers
/// `AccessError`.
#[derive(Clone, Copy, PartialEq, Eq, Debug)]
pub enum InitError {
    /// The value can't be reached at the phase that the cell has.
    Access(AccessError),
    /// The generator failed in this call.
    Failed,
    /// The call asks for a run of the generator that its own party is running.
    Cyclic,
    /// The cell is borrowed: it belongs to one party, and a guard of it bars the call.
    Borrowed,
}
