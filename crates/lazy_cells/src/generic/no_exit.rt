//! Plain lazies that are not registered for the exit.

ghost use Rattle.std.specs.Prelude.{◌≡◌, None, Some, ⊤};
ghost use Rattle.std.specs.Borrow.{sem};
ghost use denote.Follow.{follows_so};
ghost use mathlib.Core.Option.{none};
ghost use Rattle.phase_seq.specs.Phases.{unregistered};
ghost use Rattle.phase_seq.specs.Direct.{tolerance};
ghost use Rattle.lazy_cells.specs.Cells.{Asks, say_phase, say_value, seen};
ghost use Rattle.lazy_cells.specs.contracts.generic.GenericLazy.{the_row};
ghost use Rattle.lazy_cells.specs.contracts.markers.NoExit.{the_row as exit_row};

use crate::fill::fill;
use crate::generic::GenericLazy;
use crate::markers::NoExit;
use phase_bits::Phase;
use phase_seq::{Generator, InitError};

impl<T: Drop, G: Generator<T>, Q> GenericLazy<T, G, NoExit<Q>> {
    /// An empty cell.
    pub fn from_generator(generator: G) -> Self
        ensures phase { result.phase ≡ unregistered }
        ensures value { result.value ≡ None }
        ensures generator { result.generator ≡ generator }
    {
        GenericLazy::empty(generator, NoExit::new())
    }

    /// Initializes the cell: where a run is due, the generator runs.
    ///
    /// # Errors
    ///
    /// `Failed` exactly where the generator failed in this call.
    pub fn init(this: &mut Self) -> Result<Phase, InitError>
        requires { G.may_call this.old.generator }
        ensures again { G.may_call this.new.generator }
        ensures asks { Asks G.attempts say_phase (tolerance G.INIT_FAILURE G.FINAL_REGISTRATION_FAILURE) (Some unregistered) this.old result this.new }
    {
        let told = this.sequentializer.generate(0, None, &mut this.generator);
        fill(&mut this.body, told)
    }

    /// The value, after a run of the generator where one is due.
    ///
    /// # Errors
    ///
    /// `Failed` exactly where the generator failed in this call, `Access` exactly where no run was due and the value is
    /// not there.
    pub fn get(this: &mut Self) -> Result<&T, InitError>
        requires { G.may_call this.old.generator }
        ensures* after { sem 𝓛 (follows_so (the_row T.row G.row (exit_row Q.row)) (the_row T.row G.row (exit_row Q.row)) this.entry.ghost_name none (λ _ _. ⊤) (λ n. Asks G.attempts say_value (tolerance G.INIT_FAILURE G.FINAL_REGISTRATION_FAILURE) (Some unregistered) this.old (seen result) n × G.may_call n.generator)) }
    {
        if this.body.is_none() {
            Self::init(this)?;
        }
        match Self::try_get(this) {
            Ok(value) => Ok(value),
            Err(e) => Err(InitError::Access(e)),
        }
    }
}
