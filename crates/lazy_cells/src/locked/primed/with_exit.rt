//! Primed lazies that are registered for the exit.

ghost use Rattle.std.specs.Prelude.{◌≡◌, ◌<◌, Some, IfOk, true};
ghost use Rattle.std.specs.Option.{IfSome};
ghost use Rattle.phase_seq.specs.Registers.{after_asking};
ghost use Rattle.phase_seq.specs.Direct.{tolerance, enlisted};
ghost use Rattle.lazy_cells.specs.Locked.{Calls, MayEnlist, bars_read, bars_write, is_due};
ghost use Rattle.lazy_cells.specs.Access.{OpensEither, say_primed_read, say_primed_write, left_primed_read, left_primed_write};

use crate::locked::GenericLockedLazy;
use crate::markers::{Primed, WithExit};
use exit_registry::ExitRegistry;
use phase_locker::{ReadTicket, WriteTicket};
use phase_seq::{Generator, InitError};

impl<T: Drop, G: Generator<T>, Q> GenericLockedLazy<T, G, WithExit<Primed<Q>>> {
    /// A read ticket, after a run of the generator where one is due. It is in an `Err` where the value is the primed one, or
    /// that which a finalizer left.
    ///
    /// # Errors
    ///
    /// `Borrowed` exactly where the call is barred, and then nothing changes. `Failed` exactly where the generator failed in
    /// this call; no ticket is left then.
    pub fn primed_read(
        &mut self,
        registry: &mut ExitRegistry,
    ) -> Result<Result<ReadTicket, ReadTicket>, InitError>
        requires callable { G.may_call self.old.generator }
        requires exit { MayEnlist self.old.marker.cell self.old registry.old }
        ensures calls { Calls G.attempts (tolerance G.INIT_FAILURE G.FINAL_REGISTRATION_FAILURE) (enlisted G.FINAL_REGISTRATION_FAILURE (Some registry.old) self.old.phase) bars_read (say_primed_read true) left_primed_read self.old result self.new }
        ensures opens { IfOk result (λ _. 0 < self.new.readers) }
        ensures registry { registry.new ≡ after_asking (is_due (tolerance G.INIT_FAILURE G.FINAL_REGISTRATION_FAILURE) self.old) self.old.marker.cell self.old.phase registry.old }
        ensures again { G.may_call self.new.generator }
        ensures marker { self.new.marker ≡ self.old.marker }
    {
        let entered = self.cell.enter_read_registered(registry);
        self.cell.keep_primed_read(entered, true)
    }

    /// The write ticket, after a run of the generator where one is due. Where the value is the primed one, or that which a
    /// finalizer left, it is a read ticket in an `Err`.
    ///
    /// # Errors
    ///
    /// As `primed_read`.
    pub fn primed_write(
        &mut self,
        registry: &mut ExitRegistry,
    ) -> Result<Result<WriteTicket, ReadTicket>, InitError>
        requires callable { G.may_call self.old.generator }
        requires exit { MayEnlist self.old.marker.cell self.old registry.old }
        ensures calls { Calls G.attempts (tolerance G.INIT_FAILURE G.FINAL_REGISTRATION_FAILURE) (enlisted G.FINAL_REGISTRATION_FAILURE (Some registry.old) self.old.phase) bars_write (say_primed_write true) (left_primed_write true) self.old result self.new }
        ensures opens { OpensEither result self.new }
        ensures registry { registry.new ≡ after_asking (is_due (tolerance G.INIT_FAILURE G.FINAL_REGISTRATION_FAILURE) self.old) self.old.marker.cell self.old.phase registry.old }
        ensures again { G.may_call self.new.generator }
        ensures marker { self.new.marker ≡ self.old.marker }
    {
        let entered = self.cell.enter_write_registered(registry);
        self.cell.keep_primed_write(entered, true)
    }
}
