//! Plain lazies that are registered for the exit.

ghost use Rattle.std.specs.Prelude.{◌≡◌, None, Some, ⊤};
ghost use Rattle.std.specs.Borrow.{sem};
ghost use denote.Follow.{follows_so};
ghost use mathlib.Core.Option.{none};
ghost use Rattle.phase_seq.specs.Asks.{shall_init};
ghost use Rattle.phase_seq.specs.Phases.{unregistered};
ghost use Rattle.phase_seq.specs.Registers.{after_asking};
ghost use Rattle.phase_seq.specs.Direct.{tolerance, enlisted};
ghost use Rattle.lazy_cells.specs.Cells.{Asks, say_phase, say_value, seen, MayBeRegistered};
ghost use Rattle.lazy_cells.specs.contracts.generic.GenericLazy.{the_row};
ghost use Rattle.lazy_cells.specs.contracts.markers.WithExit.{the_row as exit_row};

use crate::fill::fill;
use crate::generic::GenericLazy;
use crate::markers::WithExit;
use exit_registry::ExitRegistry;
use phase_bits::Phase;
use phase_seq::{Generator, InitError};

impl<T: Drop, G: Generator<T>, Q> GenericLazy<T, G, WithExit<Q>> {
    /// An empty cell, with this number in the registry.
    pub fn from_generator(cell: u32, generator: G) -> Self
        ensures phase { result.phase ≡ unregistered }
        ensures value { result.value ≡ None }
        ensures generator { result.generator ≡ generator }
        ensures cell { result.marker.cell ≡ cell }
    {
        GenericLazy::empty(generator, WithExit::new(cell))
    }

    /// The number of the cell in the registry.
    pub fn cell(this: &Self) -> u32
        ensures { result ≡ this.now.marker.cell }
    {
        this.marker.cell
    }

    /// Initializes the cell: where a run is due, the cell is registered, if its phase is empty, and the generator runs.
    /// Where it can't be registered, and does not put up with that, no generator runs, and the phase says so.
    ///
    /// # Errors
    ///
    /// `Failed` exactly where the generator failed in this call.
    pub fn init(this: &mut Self, registry: &mut ExitRegistry) -> Result<Phase, InitError>
        requires callable { G.may_call this.old.generator }
        requires exit { MayBeRegistered this.old.marker.cell this.old.phase registry.old }
        ensures again { G.may_call this.new.generator }
        ensures asks { Asks G.attempts say_phase (tolerance G.INIT_FAILURE G.FINAL_REGISTRATION_FAILURE) (enlisted G.FINAL_REGISTRATION_FAILURE (Some registry.old) this.old.phase) this.old result this.new }
        ensures registry { registry.new ≡ after_asking (shall_init (tolerance G.INIT_FAILURE G.FINAL_REGISTRATION_FAILURE) this.old.phase) this.old.marker.cell this.old.phase registry.old }
    {
        let cell = this.marker.cell;
        let told = this
            .sequentializer
            .generate(cell, Some(registry), &mut this.generator);
        fill(&mut this.body, told)
    }

    /// The value, after a run of the generator where one is due.
    ///
    /// # Errors
    ///
    /// `Failed` exactly where the generator failed in this call, `Access` exactly where no generator ran and the value is
    /// not there.
    pub fn get<'a>(this: &'a mut Self, registry: &mut ExitRegistry) -> Result<&'a T, InitError>
        requires callable { G.may_call this.old.generator }
        requires exit { MayBeRegistered this.old.marker.cell this.old.phase registry.old }
        ensures* after { sem 𝓛 (follows_so (the_row T.row G.row (exit_row Q.row)) (the_row T.row G.row (exit_row Q.row)) this.entry.ghost_name none (λ _ _. ⊤) (λ n. Asks G.attempts say_value (tolerance G.INIT_FAILURE G.FINAL_REGISTRATION_FAILURE) (enlisted G.FINAL_REGISTRATION_FAILURE (Some registry.old) this.old.phase) this.old (seen result) n × G.may_call n.generator)) }
        ensures registry { registry.new ≡ after_asking (shall_init (tolerance G.INIT_FAILURE G.FINAL_REGISTRATION_FAILURE) this.old.phase) this.old.marker.cell this.old.phase registry.old }
    {
        if this.body.is_none() {
            Self::init(this, registry)?;
        }
        match Self::try_get(this) {
            Ok(value) => Ok(value),
            Err(e) => Err(InitError::Access(e)),
        }
    }
}
