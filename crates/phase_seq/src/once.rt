//! A generator that is called once.

ghost use Rattle.std.specs.Prelude.{◌≡◌, false, Some, None, IsErr, MatchOption};
ghost use Rattle.std.specs.Option.{ForSome};

use crate::generator::{Generator, GeneratorTolerance, InitFault};

/// A function that makes a value once. This project's own.
///
/// A contract sees the function until it is taken. `generate` always fails, so it is of use in cells of one thread
/// alone.
#[derive(Drop)]
pub struct OnceGenerator<F> {
    function: Option<F>,
}

impl<T, F: FnOnce() -> Result<T, InitFault>> OnceGenerator<F> {
    /// The generator of this function, which may be called.
    pub fn new(f: F) -> OnceGenerator<F>
        requires { F.IsAlwaysCallable f }
        ensures { result.function ≡ Some f }
    {
        OnceGenerator { function: Some(f) }
    }
}

impl<F> OnceGenerator<F> {
    /// Takes the function: `None` where it was taken before.
    pub fn take(&mut self) -> Option<F>
        ensures taken { result ≡ self.old.function }
        ensures none { self.new.function ≡ None }
    {
        self.function.take()
    }
}

impl<F> GeneratorTolerance for OnceGenerator<F> {
    ghost INIT_FAILURE = { false };

    ghost FINAL_REGISTRATION_FAILURE = { false };

    const INIT_FAILURE: bool = false;

    const FINAL_REGISTRATION_FAILURE: bool = false;
}

// It may be called where its function may be called, or was taken. It fails where the function was taken.
impl<T, F: FnOnce() -> Result<T, InitFault>> Generator<T> for OnceGenerator<F> {
    ghost may_call = { λ g. ForSome g.function F.IsAlwaysCallable };

    ghost generates = { λ g r. IsErr r };

    ghost attempts = { λ g r left. (left.function ≡ None) × MatchOption g.function (IsErr r) (λ f. F.post f r) };

    fn generate(&self) -> Result<T, InitFault> {
        Err(InitFault)
    }

    fn attempt(&mut self) -> Result<T, InitFault> {
        match self.take() {
            Some(run) => run(),
            None => Err(InitFault),
        }
    }
}
