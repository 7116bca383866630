//! What makes a plain lazy, and what writes it.

ghost use Rattle.std.specs.Prelude.{◌≡◌, None, Some};
ghost use Rattle.phase_seq.specs.Phases.{unregistered};

use crate::generic::GenericLazy;
use crate::markers::{Full, NoExit};
use phase_bits::{Phase, Phased};
use phase_seq::{DefaultGenerator, InitFault, OnceGenerator};
use std::fmt;

impl<T: Drop, F: FnOnce() -> Result<T, InitFault>> GenericLazy<T, OnceGenerator<F>, NoExit<Full>> {
    /// An empty cell whose generator is this function, which is called once.
    pub fn new(f: F) -> Self
        requires { F.IsAlwaysCallable f }
        ensures phase { result.phase ≡ unregistered }
        ensures value { result.value ≡ None }
        ensures generator { result.generator.function ≡ Some f }
    {
        Self::from_generator(OnceGenerator::new(f))
    }
}

// An empty cell, whose generator makes the default value.
impl<T: Default + Drop> Default for GenericLazy<T, DefaultGenerator, NoExit<Full>> {
    ghost is_default = { λ c. (c.phase ≡ unregistered) × (c.value ≡ None) };

    fn default() -> Self {
        Self::from_generator(DefaultGenerator)
    }
}

impl<T: fmt::Debug, G> fmt::Debug for GenericLazy<T, G, NoExit<Full>> {
    ghost use Rattle.std.specs.Prelude.{MatchOption, codes};
    ghost use Rattle.lazy_cells.specs.Shows.{debug_text};

    ghost debug_output = { λ c. debug_text T.debug_output c.value };

    fn fmt<W: fmt::Write>(&self, f: &mut fmt::Formatter<W>) -> fmt::Result {
        match &self.body {
            Some(value) => value.fmt(f),
            None => f.write_str("UnInitialized"),
        }
    }
}

impl<T, G, P> Phased for GenericLazy<T, G, P> {
    ghost phase = { λ c. c.phase };

    fn phase(this: &Self) -> Phase {
        Self::phase(this)
    }
}
