//! Access to plain lazies by a trait, and their names.

ghost use Rattle.std.specs.Prelude.{◌≡◌, Option, Result, ⊤};
ghost use Rattle.std.specs.Borrow.{sem};
ghost use denote.Follow.{follows_so};
ghost use mathlib.Core.Option.{none};
ghost use Rattle.phase_bits.specs.declared.phase.Phase.{Phase};
ghost use Rattle.phase_seq.specs.declared.init_error.InitError.{InitError};
ghost use Rattle.lazy_cells.specs.Cells.{seen, looked};

use crate::generic::GenericLazy;
use crate::markers::{Full, NoExit, WithExit};
use phase_bits::{AccessError, Phase};
use phase_seq::{Generator, InitError};

/// A value that the first user makes. It is static_init's `Lazy`, for one thread.
pub type Lazy<T, G> = GenericLazy<T, G, NoExit<Full>>;

/// The same, for a value that the exit finalizes. It is static_init's `LazyFinalize`, for one thread.
pub type LazyFinalize<T, G> = GenericLazy<T, G, WithExit<Full>>;

/// The name that static_init gives the lazy of one thread.
pub type UnSyncLazy<T, G> = Lazy<T, G>;

/// Access to a lazy whose calls are passed no registry. It is static_init's `LazyAccess`.
pub trait LazyAccess {
    /// What the lazy holds.
    type Target;

    // The phase.
    ghost phase_of: { Self → Phase };

    // The value.
    ghost value_of: { Self → Option Self.Target };

    // Its generator may be called.
    ghost may_run: { Self → Type 0 };

    // What `init` answers, and leaves.
    ghost inits: { Self → Result Phase InitError → Self → Type 0 };

    // What `get` shows, and leaves.
    ghost gets: { Self → Result Self.Target InitError → Self → Type 0 };

    /// The value, after a run of the generator where one is due.
    ///
    /// # Errors
    ///
    /// `Failed` where the generator failed in this call, `Access` where the value is not there.
    fn get(this: &mut Self) -> Result<&Self::Target, InitError>
        requires { may_run this.old }
        ensures* { sem 𝓛 (follows_so Self.row Self.row this.entry.ghost_name none (λ _ _. ⊤) (λ n. gets this.old (seen result) n × may_run n)) };

    /// The value as it is.
    ///
    /// # Errors
    ///
    /// `AccessError` where it is not there.
    fn try_get(this: &Self) -> Result<&Self::Target, AccessError>
        ensures { seen result ≡ looked (phase_of this.now) (value_of this.now) };

    /// The phase.
    fn phase(this: &Self) -> Phase
        ensures { result ≡ phase_of this.now };

    /// Initializes the lazy, where a run of the generator is due.
    ///
    /// # Errors
    ///
    /// `Failed` where the generator failed in this call.
    fn init(this: &mut Self) -> Result<Phase, InitError>
        requires { may_run this.old }
        ensures inits { inits this.old result this.new }
        ensures again { may_run this.new };
}

impl<T: Drop, G: Generator<T>, Q> LazyAccess for GenericLazy<T, G, NoExit<Q>> {
    ghost use Rattle.std.specs.Prelude.{Some};
    ghost use Rattle.phase_seq.specs.Phases.{unregistered};
    ghost use Rattle.phase_seq.specs.Direct.{tolerance};
    ghost use Rattle.lazy_cells.specs.Cells.{Asks, say_phase, say_value};

    type Target = T;

    ghost phase_of = { λ c. c.phase };

    ghost value_of = { λ c. c.value };

    ghost may_run = { λ c. G.may_call c.generator };

    ghost inits = { Asks G.attempts say_phase (tolerance G.INIT_FAILURE G.FINAL_REGISTRATION_FAILURE) (Some unregistered) };

    ghost gets = { Asks G.attempts say_value (tolerance G.INIT_FAILURE G.FINAL_REGISTRATION_FAILURE) (Some unregistered) };

    fn get(this: &mut Self) -> Result<&T, InitError> {
        Self::get(this)
    }

    fn try_get(this: &Self) -> Result<&T, AccessError> {
        Self::try_get(this)
    }

    fn phase(this: &Self) -> Phase {
        Self::phase(this)
    }

    fn init(this: &mut Self) -> Result<Phase, InitError> {
        Self::init(this)
    }
}
