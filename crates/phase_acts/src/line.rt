//! What lines are made of.

ghost use Rattle.std.specs.Prelude.{◌≡◌};
ghost use Rattle.phase_acts.specs.Steps.{given_first};

use phase_locker::Given;

/// What a step gave, of which one part at most is something.
pub(crate) fn given_first(first: Given, last: Given) -> Given
    ensures { result ≡ given_first first last }
{
    match first {
        Given::Nobody => last,
        _ => first,
    }
}
