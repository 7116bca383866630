//! What makes a locked lazy, and what writes it.

ghost use Rattle.std.specs.Prelude.{◌≡◌, None, Some};
ghost use Rattle.lazy_cells.specs.Locked.{new_cell};

use crate::guarded::Guarded;
use crate::locked::GenericLockedLazy;
use crate::markers::{Dropped, Full, Kept, NoExit, Primed, WithExit};
use phase_seq::{DefaultGenerator, InitFault, OnceGenerator};
use std::fmt;

impl<T, G, Q> GenericLockedLazy<T, G, NoExit<Kept<Q>>> {
    /// An empty cell.
    pub fn from_generator(generator: G) -> Self
        ensures made { result ≡ new_cell None generator result.marker }
    {
        GenericLockedLazy {
            cell: Guarded::new(None, generator, NoExit::new()),
        }
    }
}

impl<T, G, Q> GenericLockedLazy<T, G, NoExit<Primed<Q>>> {
    /// A cell that holds this value until it is initialized.
    pub fn from_generator(value: T, generator: G) -> Self
        ensures made { result ≡ new_cell (Some value) generator result.marker }
    {
        GenericLockedLazy {
            cell: Guarded::new(Some(value), generator, NoExit::new()),
        }
    }
}

impl<T, G, Q> GenericLockedLazy<T, G, WithExit<Kept<Q>>> {
    /// An empty cell, with this number in the registry.
    pub fn from_generator(cell: u32, generator: G) -> Self
        ensures made { result ≡ new_cell None generator result.marker }
        ensures cell { result.marker.cell ≡ cell }
    {
        GenericLockedLazy {
            cell: Guarded::new(None, generator, WithExit::new(cell)),
        }
    }
}

impl<T, G, Q> GenericLockedLazy<T, G, WithExit<Dropped<Q>>> {
    /// An empty cell, with this number in the registry.
    pub fn from_generator(cell: u32, generator: G) -> Self
        ensures made { result ≡ new_cell None generator result.marker }
        ensures cell { result.marker.cell ≡ cell }
    {
        GenericLockedLazy {
            cell: Guarded::new(None, generator, WithExit::new(cell)),
        }
    }
}

impl<T, G, Q> GenericLockedLazy<T, G, WithExit<Primed<Q>>> {
    /// A cell that holds this value until it is initialized, with this number in the registry.
    pub fn from_generator(cell: u32, value: T, generator: G) -> Self
        ensures made { result ≡ new_cell (Some value) generator result.marker }
        ensures cell { result.marker.cell ≡ cell }
    {
        GenericLockedLazy {
            cell: Guarded::new(Some(value), generator, WithExit::new(cell)),
        }
    }
}

impl<T: Drop, F: FnOnce() -> Result<T, InitFault>> GenericLockedLazy<
    T,
    OnceGenerator<F>,
    NoExit<Kept<Full>>,
> {
    /// An empty cell whose generator is this function, which is called once.
    pub fn new(f: F) -> Self
        requires { F.IsAlwaysCallable f }
        ensures made { result ≡ new_cell None result.generator result.marker }
        ensures generator { result.generator.function ≡ Some f }
    {
        Self::from_generator(OnceGenerator::new(f))
    }
}

// An empty cell, whose generator makes the default value.
impl<T: Default + Drop> Default for GenericLockedLazy<T, DefaultGenerator, NoExit<Kept<Full>>> {
    ghost is_default = { λ c. c ≡ new_cell None c.generator c.marker };

    fn default() -> Self {
        Self::from_generator(DefaultGenerator)
    }
}

impl<T: fmt::Debug, G> fmt::Debug for GenericLockedLazy<T, G, NoExit<Kept<Full>>> {
    ghost use Rattle.lazy_cells.specs.Shows.{locked_text};

    ghost debug_output = { λ c. locked_text T.debug_output c.writing c.value };

    fn fmt<W: fmt::Write>(&self, f: &mut fmt::Formatter<W>) -> fmt::Result {
        if self.cell.is_writing() {
            return f.write_str("Locked");
        }
        match self.cell.value() {
            Some(value) => value.fmt(f),
            None => f.write_str("UnInitialized"),
        }
    }
}
