//! Generators of a cell's value.

ghost use Rattle.std.specs.Prelude.{◌≡◌, Bool, true, false, Result};
ghost use Rattle.phase_seq.specs.declared.generator.InitFault.{InitFault};

/// A generator failed. This project's own: a generator of static_init panics.
#[derive(Clone, Copy, PartialEq, Eq, Debug)]
pub struct InitFault;

/// What the cells of a generator put up with. It is static_init's `GeneratorTolerance`.
pub trait GeneratorTolerance {
    // The constants as contracts see them.
    ghost INIT_FAILURE: { Bool };

    ghost FINAL_REGISTRATION_FAILURE: { Bool };

    /// A failed run is followed by another one, at the next call that asks for it.
    const INIT_FAILURE: bool;

    /// A cell that can't be registered for the exit is initialized all the same.
    const FINAL_REGISTRATION_FAILURE: bool;
}

/// What makes a cell's value. It is static_init's `Generator`; that it may fail, and `attempt`, are this project's own.
///
/// `generate` is for callers that share the generator, `attempt` for the one that owns it. Whether a generator may be
/// called is its own condition, which holds after each call where it held before.
pub trait Generator<T>: GeneratorTolerance {
    // It may be called.
    ghost may_call: { Self → Type 0 };

    // What `generate` may answer.
    ghost generates: { Self → Result T InitFault → Type 0 };

    // What `attempt` may answer, with what it leaves of the generator.
    ghost attempts: { Self → Result T InitFault → Self → Type 0 };

    /// Makes a value.
    ///
    /// # Errors
    ///
    /// `InitFault` where the generator failed.
    fn generate(&self) -> Result<T, InitFault>
        requires { may_call self.now }
        ensures { generates self.now result };

    /// Makes a value, and may change the generator.
    ///
    /// # Errors
    ///
    /// `InitFault` where the generator failed.
    fn attempt(&mut self) -> Result<T, InitFault>
        requires { may_call self.old }
        ensures attempts { attempts self.old result self.new }
        ensures again { may_call self.new };
}

impl<T, F: Fn() -> Result<T, InitFault>> GeneratorTolerance for F {
    ghost INIT_FAILURE = { true };

    ghost FINAL_REGISTRATION_FAILURE = { false };

    const INIT_FAILURE: bool = true;

    const FINAL_REGISTRATION_FAILURE: bool = false;
}

// A function is called as it is, and stays.
impl<T, F: Fn() -> Result<T, InitFault>> Generator<T> for F {
    ghost may_call = { F.IsAlwaysCallable };

    ghost generates = { F.post };

    ghost attempts = { λ f r left. F.post f r × (left ≡ f) };

    fn generate(&self) -> Result<T, InitFault> {
        self()
    }

    fn attempt(&mut self) -> Result<T, InitFault> {
        self.generate()
    }
}

/// A generator that makes the default value of its type. This project's own.
#[derive(Clone, Copy, PartialEq, Eq, Debug)]
pub struct DefaultGenerator;

impl GeneratorTolerance for DefaultGenerator {
    ghost INIT_FAILURE = { true };

    ghost FINAL_REGISTRATION_FAILURE = { false };

    const INIT_FAILURE: bool = true;

    const FINAL_REGISTRATION_FAILURE: bool = false;
}

// It may be called always, and never fails.
impl<T: Default> Generator<T> for DefaultGenerator {
    ghost use Rattle.phase_seq.specs.Generators.{MakesDefault};

    ghost may_call = { λ g. Unit {0} };

    ghost generates = { λ g r. MakesDefault T.is_default r };

    ghost attempts = { λ g r left. MakesDefault T.is_default r × (left ≡ g) };

    fn generate(&self) -> Result<T, InitFault> {
        Ok(T::default())
    }

    fn attempt(&mut self) -> Result<T, InitFault> {
        Generator::<T>::generate(self)
    }
}
