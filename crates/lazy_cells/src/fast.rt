//! The answers of calls that do not wait.

ghost use Rattle.std.specs.Prelude.{◌≡◌};
ghost use Rattle.phase_seq.specs.Direct.{unless_borrowed};
ghost use Rattle.lazy_cells.specs.Access.{unless_barred};

use phase_bits::AccessError;
use phase_seq::InitError;

/// Nothing in place of `Borrowed`.
pub(crate) fn unless_borrowed<A>(answer: Result<A, InitError>) -> Option<Result<A, InitError>>
    ensures { result ≡ unless_borrowed answer }
{
    match answer {
        Err(InitError::Borrowed) => None,
        said => Some(said),
    }
}

/// The same of a call that runs nothing, whose one other error is that the value is not in reach.
pub(crate) fn unless_barred<A>(answer: Result<A, InitError>) -> Option<Result<A, AccessError>>
    ensures { result ≡ unless_barred answer }
{
    match answer {
        Ok(said) => Some(Ok(said)),
        Err(InitError::Access(error)) => Some(Err(error)),
        Err(InitError::Failed | InitError::Cyclic | InitError::Borrowed) => None,
    }
}
