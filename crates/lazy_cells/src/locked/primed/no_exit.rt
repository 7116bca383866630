//! Primed lazies that are not registered for the exit.

ghost use Rattle.std.specs.Prelude.{◌≡◌, ◌<◌, Some, IfOk, true, false};
ghost use Rattle.std.specs.Option.{IfSome};
ghost use Rattle.phase_seq.specs.Phases.{unregistered};
ghost use Rattle.phase_seq.specs.Direct.{tolerance};
ghost use Rattle.lazy_cells.specs.Locked.{Calls, bars_read, bars_write};
ghost use Rattle.lazy_cells.specs.Access.{OpensEither, say_primed_read, say_primed_write, left_primed_read, left_primed_write};

use crate::locked::GenericLockedLazy;
use crate::markers::{NoExit, Primed};
use phase_locker::{ReadTicket, WriteTicket};
use phase_seq::{Generator, InitError};

impl<T: Drop, G: Generator<T>, Q> GenericLockedLazy<T, G, NoExit<Primed<Q>>> {
    /// A read ticket, after a run of the generator where one is due. It is in an `Err` where the value is the primed one, or
    /// that which a finalizer left.
    ///
    /// # Errors
    ///
    /// `Borrowed` exactly where the call is barred, and then nothing changes. `Failed` exactly where the generator failed in
    /// this call; no ticket is left then.
    pub fn primed_read(&mut self) -> Result<Result<ReadTicket, ReadTicket>, InitError>
        requires { G.may_call self.old.generator }
        ensures calls { Calls G.attempts (tolerance G.INIT_FAILURE G.FINAL_REGISTRATION_FAILURE) (Some unregistered) bars_read (say_primed_read false) left_primed_read self.old result self.new }
        ensures opens { IfOk result (λ _. 0 < self.new.readers) }
        ensures again { G.may_call self.new.generator }
        ensures marker { self.new.marker ≡ self.old.marker }
    {
        let entered = self.cell.enter_read();
        self.cell.keep_primed_read(entered, false)
    }

    /// The write ticket, after a run of the generator where one is due. Where the value is the primed one, or that which a
    /// finalizer left, it is a read ticket in an `Err`.
    ///
    /// # Errors
    ///
    /// As `primed_read`.
    pub fn primed_write(&mut self) -> Result<Result<WriteTicket, ReadTicket>, InitError>
        requires { G.may_call self.old.generator }
        ensures calls { Calls G.attempts (tolerance G.INIT_FAILURE G.FINAL_REGISTRATION_FAILURE) (Some unregistered) bars_write (say_primed_write false) (left_primed_write false) self.old result self.new }
        ensures opens { OpensEither result self.new }
        ensures again { G.may_call self.new.generator }
        ensures marker { self.new.marker ≡ self.old.marker }
    {
        let entered = self.cell.enter_write();
        self.cell.keep_primed_write(entered, false)
    }
}
