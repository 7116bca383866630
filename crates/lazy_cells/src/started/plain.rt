//! Plain lazies that were started.

ghost use Rattle.std.specs.Prelude.{◌≡◌, ⊤};
ghost use Rattle.std.specs.Borrow.{sem};
ghost use denote.Follow.{follows_so};
ghost use mathlib.Core.Option.{none};
ghost use Rattle.lazy_cells.specs.Cells.{seen, shown, looked};
ghost use Rattle.lazy_cells.specs.contracts.generic.GenericLazy.{the_row as lazy_row};
ghost use Rattle.lazy_cells.specs.contracts.started.Started.{the_row};

use crate::generic::GenericLazy;
use crate::started::Started;
use phase_bits::{AccessError, Phased};
use phase_seq::InitError;

impl<T, G, P> Started<GenericLazy<T, G, P>> {
    /// The value.
    ///
    /// # Errors
    ///
    /// `Access` exactly where the value is not there.
    pub fn get(this: &mut Self) -> Result<&T, InitError>
        ensures* after { sem 𝓛 (follows_so (the_row (lazy_row T.row G.row P.row) ⟦<GenericLazy<T, G, P> as Phased>⟧) (the_row (lazy_row T.row G.row P.row) ⟦<GenericLazy<T, G, P> as Phased>⟧) this.entry.ghost_name none (λ _ _. ⊤) (λ n. n ≡ this.old)) }
        ensures shows { seen result ≡ shown this.old.phase this.old.value }
    {
        match GenericLazy::try_get(&this.cell) {
            Ok(value) => Ok(value),
            Err(error) => Err(InitError::Access(error)),
        }
    }

    /// The value.
    ///
    /// # Errors
    ///
    /// `AccessError` exactly where it is not there.
    pub fn try_get(this: &Self) -> Result<&T, AccessError>
        ensures { seen result ≡ looked this.now.phase this.now.value }
    {
        GenericLazy::try_get(&this.cell)
    }
}
