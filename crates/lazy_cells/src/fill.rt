//! What a run leaves in a cell.

ghost use Rattle.std.specs.Prelude.{◌≡◌};
ghost use Rattle.lazy_cells.specs.Fills.{filled, phase_told, put_in, entered, next_after};

use phase_bits::Phase;
use phase_seq::InitError;

/// Puts the value that was made into the cell. Answers the phase that was reached.
pub(crate) fn fill<T: Drop>(
    body: &mut Option<T>,
    told: Result<(Phase, Option<T>), InitError>,
) -> Result<Phase, InitError>
    ensures filled { body.new ≡ filled told body.old }
    ensures phase { result ≡ phase_told told }
{
    let (phase, made) = told?;
    if made.is_some() {
        *body = made;
    }
    Ok(phase)
}

/// Puts the value that was made into the cell, of a call that took a lock. Answers the lock, and the phase at which it is
/// held.
pub(crate) fn put_in<T: Drop, K>(
    body: &mut Option<T>,
    told: Result<(K, Phase, Option<T>), InitError>,
) -> Result<(K, Phase), InitError>
    ensures filled { body.new ≡ put_in told body.old }
    ensures entered { result ≡ entered told }
{
    let (ticket, phase, made) = told?;
    if let Some(value) = made {
        *body = Some(value);
    }
    Ok((ticket, phase))
}

/// The phase that a cell publishes next, after a call that wants to write: that at which it is held.
pub(crate) fn next_after<K>(
    entered: &Result<(K, Phase), InitError>,
    next: Option<Phase>,
) -> Option<Phase>
    ensures { result ≡ next_after entered.now next }
{
    match entered {
        Ok((_, phase)) => Some(*phase),
        Err(_) => next,
    }
}
