//! Cells that a program starts before it uses them. All of it is this project's own: static_init starts them by a hint.

ghost use Rattle.std.specs.Prelude.{◌≡◌, true, Some, None, IfOk};
ghost use Rattle.phase_bits.specs.Flags.{has, initialized};
ghost use Rattle.phase_bits.specs.Number.{number};
ghost use Rattle.lazy_cells.specs.Startup.{Standing, MayStart, Starts, accessed, standing_plain, standing_locked};

use crate::generic::GenericLazy;
use crate::kind::within_reach;
use crate::locked::GenericLockedLazy;
use crate::markers::{IsLesser, LesserForm, NoExit, WithExit};
use exit_registry::ExitRegistry;
use phase_bits::{AccessError, Phase, Phased};
use phase_seq::{Generator, InitError};

/// A cell of a Lesser form. A contract sees its phase, whether the value is in reach, whether a ticket is open and whether
/// it is a write ticket, and the cell's number, where it is registered for the exit.
pub trait Lesser: Drop {
    // What is seen of it.
    ghost standing: { Self → Standing };

    // Its generator may be called.
    ghost may_run: { Self → Type 0 };

    /// The phase of the cell. Where the value is in reach it has INITIALIZED.
    fn phase_now(&self) -> Phase
        ensures phase { result ≡ (standing self.now).phase }
        ensures made { (standing self.now).in_reach ≡ true → has (number result) initialized ≡ true };

    /// Initializes the cell. A cell that is registered for the exit must be one of the registry's, and not known to it
    /// while its phase is empty and no write ticket is open. No ticket is opened or given back.
    ///
    /// # Errors
    ///
    /// `Borrowed` exactly where a ticket is open, and then nothing changes. `Failed` exactly where the generator failed in
    /// this call. `Access` exactly where else the value is not in reach, with the phase that the cell has then.
    fn start(&mut self, reg: &mut ExitRegistry) -> Result<Phase, InitError>
        requires callable { may_run self.old }
        requires exit { MayStart (standing self.old) reg.old }
        ensures starts { Starts (standing self.old) result (standing self.new) reg.old reg.new }
        ensures made { IfOk result (λ p. has (number p) initialized ≡ true) }
        ensures again { may_run self.new };
}

/// A cell of a Lesser form that is not boxed.
pub trait Startable: Lesser + Phased {
    // The phase is one.
    ghost agrees: { (c : Self) → Self.phase c ≡ (Self.standing c).phase };
}

/// The answer of a plain lazy's `init`, where the value is in reach.
fn accessed(told: Result<Phase, InitError>) -> Result<Phase, InitError>
    ensures { result ≡ accessed told }
{
    let phase = told?;
    if within_reach(false, phase) {
        Ok(phase)
    } else {
        Err(InitError::Access(AccessError { phase }))
    }
}

impl<T: Drop, G: Generator<T> + Drop> Lesser for GenericLazy<T, G, NoExit<LesserForm>> {
    ghost standing = { standing_plain (λ m. None) };

    ghost may_run = { λ c. G.may_call c.generator };

    fn phase_now(&self) -> Phase {
        Self::phase(self)
    }

    fn start(&mut self, _reg: &mut ExitRegistry) -> Result<Phase, InitError> {
        accessed(Self::init(self))
    }
}

impl<T: Drop, G: Generator<T> + Drop> Lesser for GenericLazy<T, G, WithExit<LesserForm>> {
    ghost standing = { standing_plain (λ m. Some m.cell) };

    ghost may_run = { λ c. G.may_call c.generator };

    fn phase_now(&self) -> Phase {
        Self::phase(self)
    }

    fn start(&mut self, reg: &mut ExitRegistry) -> Result<Phase, InitError> {
        accessed(Self::init(self, reg))
    }
}

impl<T: Drop, G: Generator<T> + Drop, C: IsLesser> Lesser for GenericLockedLazy<T, G, NoExit<C>> {
    ghost use Rattle.std.specs.Prelude.{false};

    ghost standing = { standing_locked false (λ m. None) };

    ghost may_run = { λ c. G.may_call c.generator };

    fn phase_now(&self) -> Phase {
        self.phase()
    }

    fn start(&mut self, _reg: &mut ExitRegistry) -> Result<Phase, InitError> {
        self.init()
    }
}

impl<T: Drop, G: Generator<T> + Drop, C: IsLesser> Lesser for GenericLockedLazy<T, G, WithExit<C>> {
    ghost standing = { standing_locked C.is_taken (λ m. Some m.cell) };

    ghost may_run = { λ c. G.may_call c.generator };

    fn phase_now(&self) -> Phase {
        self.phase()
    }

    fn start(&mut self, reg: &mut ExitRegistry) -> Result<Phase, InitError> {
        self.init(reg)
    }
}

impl<T: Drop, G: Generator<T> + Drop> Startable for GenericLazy<T, G, NoExit<LesserForm>> {
    ghost use Rattle.std.specs.Prelude.{refl};

    ghost agrees = { λ c. refl };
}

impl<T: Drop, G: Generator<T> + Drop> Startable for GenericLazy<T, G, WithExit<LesserForm>> {
    ghost use Rattle.std.specs.Prelude.{refl};

    ghost agrees = { λ c. refl };
}

impl<T: Drop, G: Generator<T> + Drop, C: IsLesser> Startable
    for GenericLockedLazy<T, G, NoExit<C>> {
    ghost use Rattle.std.specs.Prelude.{refl};

    ghost agrees = { λ c. refl };
}

impl<T: Drop, G: Generator<T> + Drop, C: IsLesser> Startable
    for GenericLockedLazy<T, G, WithExit<C>> {
    ghost use Rattle.std.specs.Prelude.{refl};

    ghost agrees = { λ c. refl };
}
