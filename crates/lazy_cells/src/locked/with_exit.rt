//! Locked lazies that are registered for the exit.

ghost use Rattle.std.specs.Prelude.{◌≡◌, ◌<◌, Some, IfOk, true};
ghost use Rattle.std.specs.Option.{IfSome};
ghost use Rattle.phase_seq.specs.Registers.{after_asking};
ghost use Rattle.phase_seq.specs.Direct.{tolerance, enlisted};
ghost use Rattle.lazy_cells.specs.Locked.{Calls, MayEnlist, bars_read, bars_write, is_due};
ghost use Rattle.lazy_cells.specs.Access.{say_read, say_write, say_init, say_fast_read, say_fast_write, left_read, left_write, left_init};

use crate::fast::unless_borrowed;
use crate::locked::GenericLockedLazy;
use crate::markers::{Content, WithExit};
use exit_registry::ExitRegistry;
use phase_bits::Phase;
use phase_locker::{ReadTicket, WriteTicket};
use phase_seq::{Generator, InitError};

impl<T: Drop, G: Generator<T>, C: Content> GenericLockedLazy<T, G, WithExit<C>> {
    /// A read ticket, after a run of the generator where one is due.
    ///
    /// # Errors
    ///
    /// `Borrowed` exactly where the call is barred, and then nothing changes. `Failed` exactly where the generator failed in
    /// this call. `Access` exactly where else the value is not in reach. No ticket is left then.
    pub fn read(&mut self, registry: &mut ExitRegistry) -> Result<ReadTicket, InitError>
        requires callable { G.may_call self.old.generator }
        requires exit { MayEnlist self.old.marker.cell self.old registry.old }
        ensures calls { Calls G.attempts (tolerance G.INIT_FAILURE G.FINAL_REGISTRATION_FAILURE) (enlisted G.FINAL_REGISTRATION_FAILURE (Some registry.old) self.old.phase) bars_read (say_read C.is_taken) (left_read C.is_taken) self.old result self.new }
        ensures opens { IfOk result (λ _. 0 < self.new.readers) }
        ensures registry { registry.new ≡ after_asking (is_due (tolerance G.INIT_FAILURE G.FINAL_REGISTRATION_FAILURE) self.old) self.old.marker.cell self.old.phase registry.old }
        ensures again { G.may_call self.new.generator }
        ensures marker { self.new.marker ≡ self.old.marker }
    {
        let entered = self.cell.enter_read_registered(registry);
        self.cell.keep_read(entered, C::is_taken())
    }

    /// The write ticket, after a run of the generator where one is due. The phase is published when it is given back.
    ///
    /// # Errors
    ///
    /// As `read`.
    pub fn write(&mut self, registry: &mut ExitRegistry) -> Result<WriteTicket, InitError>
        requires callable { G.may_call self.old.generator }
        requires exit { MayEnlist self.old.marker.cell self.old registry.old }
        ensures calls { Calls G.attempts (tolerance G.INIT_FAILURE G.FINAL_REGISTRATION_FAILURE) (enlisted G.FINAL_REGISTRATION_FAILURE (Some registry.old) self.old.phase) bars_write (say_write C.is_taken) (left_write C.is_taken) self.old result self.new }
        ensures opens { IfOk result (λ _. self.new.writing ≡ true) }
        ensures registry { registry.new ≡ after_asking (is_due (tolerance G.INIT_FAILURE G.FINAL_REGISTRATION_FAILURE) self.old) self.old.marker.cell self.old.phase registry.old }
        ensures again { G.may_call self.new.generator }
        ensures marker { self.new.marker ≡ self.old.marker }
    {
        let entered = self.cell.enter_write_registered(registry);
        self.cell.keep_write(entered, C::is_taken())
    }

    /// Initializes the cell: where a run is due, the generator runs. No ticket is left.
    ///
    /// # Errors
    ///
    /// As `read`.
    pub fn init(&mut self, registry: &mut ExitRegistry) -> Result<Phase, InitError>
        requires callable { G.may_call self.old.generator }
        requires exit { MayEnlist self.old.marker.cell self.old registry.old }
        ensures calls { Calls G.attempts (tolerance G.INIT_FAILURE G.FINAL_REGISTRATION_FAILURE) (enlisted G.FINAL_REGISTRATION_FAILURE (Some registry.old) self.old.phase) bars_write (say_init C.is_taken) left_init self.old result self.new }
        ensures registry { registry.new ≡ after_asking (is_due (tolerance G.INIT_FAILURE G.FINAL_REGISTRATION_FAILURE) self.old) self.old.marker.cell self.old.phase registry.old }
        ensures again { G.may_call self.new.generator }
        ensures marker { self.new.marker ≡ self.old.marker }
    {
        let entered = self.cell.enter_write_registered(registry);
        self.cell.keep_none(entered, C::is_taken())
    }

    /// The same as `read`; `None` exactly where the call is barred, and then nothing changes.
    ///
    /// # Errors
    ///
    /// `Failed` exactly where the generator failed in this call, `Access` exactly where else the value is not in reach.
    pub fn fast_read(
        &mut self,
        registry: &mut ExitRegistry,
    ) -> Option<Result<ReadTicket, InitError>>
        requires callable { G.may_call self.old.generator }
        requires exit { MayEnlist self.old.marker.cell self.old registry.old }
        ensures calls { Calls G.attempts (tolerance G.INIT_FAILURE G.FINAL_REGISTRATION_FAILURE) (enlisted G.FINAL_REGISTRATION_FAILURE (Some registry.old) self.old.phase) bars_read (say_fast_read C.is_taken) (left_read C.is_taken) self.old result self.new }
        ensures opens { IfSome result (λ r. IfOk r (λ _. 0 < self.new.readers)) }
        ensures registry { registry.new ≡ after_asking (is_due (tolerance G.INIT_FAILURE G.FINAL_REGISTRATION_FAILURE) self.old) self.old.marker.cell self.old.phase registry.old }
        ensures again { G.may_call self.new.generator }
        ensures marker { self.new.marker ≡ self.old.marker }
    {
        unless_borrowed(self.read(registry))
    }

    /// The same as `write`; `None` exactly where the call is barred, and then nothing changes.
    ///
    /// # Errors
    ///
    /// `Failed` exactly where the generator failed in this call, `Access` exactly where else the value is not in reach.
    pub fn fast_write(
        &mut self,
        registry: &mut ExitRegistry,
    ) -> Option<Result<WriteTicket, InitError>>
        requires callable { G.may_call self.old.generator }
        requires exit { MayEnlist self.old.marker.cell self.old registry.old }
        ensures calls { Calls G.attempts (tolerance G.INIT_FAILURE G.FINAL_REGISTRATION_FAILURE) (enlisted G.FINAL_REGISTRATION_FAILURE (Some registry.old) self.old.phase) bars_write (say_fast_write C.is_taken) (left_write C.is_taken) self.old result self.new }
        ensures opens { IfSome result (λ r. IfOk r (λ _. self.new.writing ≡ true)) }
        ensures registry { registry.new ≡ after_asking (is_due (tolerance G.INIT_FAILURE G.FINAL_REGISTRATION_FAILURE) self.old) self.old.marker.cell self.old.phase registry.old }
        ensures again { G.may_call self.new.generator }
        ensures marker { self.new.marker ≡ self.old.marker }
    {
        unless_borrowed(self.write(registry))
    }
}
