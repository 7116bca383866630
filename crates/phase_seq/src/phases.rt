//! The phases that runs and finalizers reach.

ghost use Rattle.std.specs.Prelude.{◌≡◌};
ghost use Rattle.phase_bits.specs.Flags.{without_flags};
ghost use Rattle.phase_bits.specs.Number.{number, IsKnown};
ghost use Rattle.phase_seq.specs.Phases.{initialization_flags, may_generate, reached, refused, finalized};

use phase_bits::Phase;

/// The phase that a run reaches beside the flags that stay. It is that of static_init's lazies.
pub(crate) fn reached(stays: Phase, made: bool) -> Phase
    requires { IsKnown stays }
    ensures phase { result ≡ reached stays made }
    ensures known { IsKnown result }
{
    if made {
        stays.union(Phase::INITIALIZED)
    } else {
        stays.union(Phase::INITIALIZATION_PANICKED.union(Phase::INITIALIZATION_SKIPED))
    }
}

/// The phase that a finalizer reaches: it succeeded, or it failed. It is that of static_init's lazies.
pub(crate) fn finalized(phase: Phase, fine: bool) -> Phase
    requires { IsKnown phase }
    ensures phase { result ≡ finalized phase fine }
    ensures known { IsKnown result }
{
    if fine {
        phase.union(Phase::FINALIZED)
    } else {
        phase.union(Phase::FINALIZATION_PANICKED)
    }
}

/// The phase without the flags that a run may set.
pub(crate) fn without_outcome(phase: Phase) -> Phase
    ensures flags { number result ≡ without_flags (number phase) initialization_flags }
    ensures known { IsKnown phase → IsKnown result }
{
    let attempted = Phase::INITIALIZATION_PANICKED.union(Phase::INITIALIZATION_SKIPED);
    phase.difference(Phase::INITIALIZED.union(attempted))
}

/// The phase of a cell that could not be registered, and that no generator runs for.
pub(crate) fn refused() -> Phase
    ensures phase { result ≡ refused }
    ensures known { IsKnown result }
{
    Phase::REGISTRATION_REFUSED.union(Phase::INITIALIZATION_SKIPED)
}

/// Whether the generator of a cell whose flags stay so runs.
pub(crate) fn may_generate(leak: bool, stays: Phase) -> bool
    ensures { result ≡ may_generate leak stays }
{
    stays.contains(Phase::REGISTERED) || leak
}
