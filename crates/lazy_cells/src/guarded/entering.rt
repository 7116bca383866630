//! How calls on a locked cell come in.

ghost use Rattle.std.specs.Prelude.{◌≡◌, Some};
ghost use Rattle.phase_seq.specs.Phases.{unregistered};
ghost use Rattle.phase_seq.specs.Registers.{after_asking};
ghost use Rattle.phase_seq.specs.Direct.{tolerance, enlisted};
ghost use Rattle.lazy_cells.specs.Locked.{Calls, Tries, MayEnlist, bars_read, bars_write, is_due};
ghost use Rattle.lazy_cells.specs.Guards.{to_read, to_write, in_to_read, in_to_write};

use crate::fill::{next_after, put_in};
use crate::guarded::Guarded;
use crate::markers::WithExit;
use exit_registry::ExitRegistry;
use phase_bits::Phase;
use phase_locker::{ReadTicket, WriteTicket};
use phase_seq::{Generator, InitError};

impl<T, G, P> Guarded<T, G, P> {
    /// Takes a lock to read the cell as it is.
    pub(crate) fn enter_read_only(&mut self) -> Result<(ReadTicket, Phase), InitError>
        ensures tries { Tries bars_read to_read in_to_read self.old result self.new }
        ensures generator { self.new.generator ≡ self.old.generator }
        ensures marker { self.new.marker ≡ self.old.marker }
    {
        let phase = self.phase();
        match self.sequentializer.locker_mut().try_read() {
            Some(ticket) => Ok((ticket, phase)),
            None => Err(InitError::Borrowed),
        }
    }

    /// Takes a lock to write the cell as it is.
    pub(crate) fn enter_write_only(&mut self) -> Result<(WriteTicket, Phase), InitError>
        ensures tries { Tries bars_write to_write in_to_write self.old result self.new }
        ensures generator { self.new.generator ≡ self.old.generator }
        ensures marker { self.new.marker ≡ self.old.marker }
    {
        let phase = self.phase();
        let entered = match self.sequentializer.locker_mut().try_write() {
            Some(ticket) => Ok((ticket, phase)),
            None => Err(InitError::Borrowed),
        };
        self.next = next_after(&entered, self.next);
        entered
    }
}

impl<T: Drop, G: Generator<T>, P> Guarded<T, G, P> {
    /// Initializes a cell that is not registered for the exit, and reads it.
    pub(crate) fn enter_read(&mut self) -> Result<(ReadTicket, Phase), InitError>
        requires { G.may_call self.old.generator }
        ensures calls { Calls G.attempts (tolerance G.INIT_FAILURE G.FINAL_REGISTRATION_FAILURE) (Some unregistered) bars_read to_read in_to_read self.old result self.new }
        ensures again { G.may_call self.new.generator }
        ensures marker { self.new.marker ≡ self.old.marker }
    {
        let told = self
            .sequentializer
            .generate_then_read(0, None, &mut self.generator);
        put_in(&mut self.body, told)
    }

    /// Initializes a cell that is not registered for the exit, and writes it.
    pub(crate) fn enter_write(&mut self) -> Result<(WriteTicket, Phase), InitError>
        requires { G.may_call self.old.generator }
        ensures calls { Calls G.attempts (tolerance G.INIT_FAILURE G.FINAL_REGISTRATION_FAILURE) (Some unregistered) bars_write to_write in_to_write self.old result self.new }
        ensures again { G.may_call self.new.generator }
        ensures marker { self.new.marker ≡ self.old.marker }
    {
        let told = self
            .sequentializer
            .generate_then_write(0, None, &mut self.generator);
        let entered = put_in(&mut self.body, told);
        self.next = next_after(&entered, self.next);
        entered
    }
}

impl<T: Drop, G: Generator<T>, Q> Guarded<T, G, WithExit<Q>> {
    /// Initializes a cell that is registered for the exit, and reads it.
    pub(crate) fn enter_read_registered(
        &mut self,
        registry: &mut ExitRegistry,
    ) -> Result<(ReadTicket, Phase), InitError>
        requires callable { G.may_call self.old.generator }
        requires exit { MayEnlist self.old.marker.cell self.old registry.old }
        ensures calls { Calls G.attempts (tolerance G.INIT_FAILURE G.FINAL_REGISTRATION_FAILURE) (enlisted G.FINAL_REGISTRATION_FAILURE (Some registry.old) self.old.phase) bars_read to_read in_to_read self.old result self.new }
        ensures registry { registry.new ≡ after_asking (is_due (tolerance G.INIT_FAILURE G.FINAL_REGISTRATION_FAILURE) self.old) self.old.marker.cell self.old.phase registry.old }
        ensures again { G.may_call self.new.generator }
        ensures marker { self.new.marker ≡ self.old.marker }
    {
        let cell = self.marker.cell;
        let told = self
            .sequentializer
            .generate_then_read(cell, Some(registry), &mut self.generator);
        put_in(&mut self.body, told)
    }

    /// Initializes a cell that is registered for the exit, and writes it.
    pub(crate) fn enter_write_registered(
        &mut self,
        registry: &mut ExitRegistry,
    ) -> Result<(WriteTicket, Phase), InitError>
        requires callable { G.may_call self.old.generator }
        requires exit { MayEnlist self.old.marker.cell self.old registry.old }
        ensures calls { Calls G.attempts (tolerance G.INIT_FAILURE G.FINAL_REGISTRATION_FAILURE) (enlisted G.FINAL_REGISTRATION_FAILURE (Some registry.old) self.old.phase) bars_write to_write in_to_write self.old result self.new }
        ensures registry { registry.new ≡ after_asking (is_due (tolerance G.INIT_FAILURE G.FINAL_REGISTRATION_FAILURE) self.old) self.old.marker.cell self.old.phase registry.old }
        ensures again { G.may_call self.new.generator }
        ensures marker { self.new.marker ≡ self.old.marker }
    {
        let cell = self.marker.cell;
        let told = self
            .sequentializer
            .generate_then_write(cell, Some(registry), &mut self.generator);
        let entered = put_in(&mut self.body, told);
        self.next = next_after(&entered, self.next);
        entered
    }
}
