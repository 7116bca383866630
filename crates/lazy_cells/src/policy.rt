//! Policies: when a run is due, and when the value may be reached.

ghost use Rattle.std.specs.Prelude.{◌≡◌, Bool, true, false};
ghost use Rattle.phase_bits.specs.declared.phase.Phase.{Phase};
ghost use Rattle.phase_seq.specs.Asks.{shall_init};
ghost use Rattle.phase_seq.specs.Direct.{tolerance};
ghost use Rattle.lazy_cells.specs.Kinds.{is_within_reach};

use crate::kind::within_reach;
use phase_bits::Phase;
use phase_seq::{GeneratorTolerance, shall_init, tolerance_of};
use std::marker::PhantomData;

/// When a run is due, and when the value may be reached. It is static_init's trait of that name, without the calls that
/// skip tests.
pub trait LazyPolicy {
    // A run is due at this phase.
    ghost is_due: { Phase → Bool };

    // The value may be reached at this phase.
    ghost is_reached: { Phase → Bool };

    /// Whether a run is due at this phase.
    fn shall_init(p: Phase) -> bool
        ensures { result ≡ is_due p };

    /// Whether the value may be reached at this phase.
    fn is_accessible(p: Phase) -> bool
        ensures { result ≡ is_reached p };
}

/// The policy of cells without a finalizer, with the tolerance of `Tol`.
pub struct InitializedChecker<Tol> {
    tolerance: PhantomData<Tol>,
}

/// The policy of cells whose finalizer leaves the value in reach, with the tolerance of `Tol`.
pub struct InitializedSoftFinalizedChecker<Tol> {
    tolerance: PhantomData<Tol>,
}

/// The policy of cells whose finalizer takes the value out of reach, with the tolerance of `Tol`.
pub struct InitializedHardFinalizedChecker<Tol> {
    tolerance: PhantomData<Tol>,
}

impl<Tol: GeneratorTolerance> LazyPolicy for InitializedChecker<Tol> {
    ghost is_due = { shall_init (tolerance Tol.INIT_FAILURE Tol.FINAL_REGISTRATION_FAILURE) };

    ghost is_reached = { is_within_reach false };

    fn shall_init(p: Phase) -> bool {
        shall_init(tolerance_of::<Tol>(), p)
    }

    fn is_accessible(p: Phase) -> bool {
        within_reach(false, p)
    }
}

impl<Tol: GeneratorTolerance> LazyPolicy for InitializedSoftFinalizedChecker<Tol> {
    ghost is_due = { shall_init (tolerance Tol.INIT_FAILURE Tol.FINAL_REGISTRATION_FAILURE) };

    ghost is_reached = { is_within_reach false };

    fn shall_init(p: Phase) -> bool {
        shall_init(tolerance_of::<Tol>(), p)
    }

    fn is_accessible(p: Phase) -> bool {
        within_reach(false, p)
    }
}

impl<Tol: GeneratorTolerance> LazyPolicy for InitializedHardFinalizedChecker<Tol> {
    ghost is_due = { shall_init (tolerance Tol.INIT_FAILURE Tol.FINAL_REGISTRATION_FAILURE) };

    ghost is_reached = { is_within_reach true };

    fn shall_init(p: Phase) -> bool {
        shall_init(tolerance_of::<Tol>(), p)
    }

    fn is_accessible(p: Phase) -> bool {
        within_reach(true, p)
    }
}
