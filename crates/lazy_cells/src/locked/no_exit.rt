//! Locked lazies that are not registered for the exit.

ghost use Rattle.std.specs.Prelude.{◌≡◌, ◌<◌, Some, IfOk, true, false};
ghost use Rattle.std.specs.Option.{IfSome};
ghost use Rattle.phase_seq.specs.Phases.{unregistered};
ghost use Rattle.phase_seq.specs.Direct.{tolerance};
ghost use Rattle.lazy_cells.specs.Locked.{Calls, bars_read, bars_write};
ghost use Rattle.lazy_cells.specs.Access.{say_read, say_write, say_init, say_fast_read, say_fast_write, left_read, left_write, left_init};

use crate::fast::unless_borrowed;
use crate::locked::GenericLockedLazy;
use crate::markers::{Content, NoExit};
use phase_bits::Phase;
use phase_locker::{ReadTicket, WriteTicket};
use phase_seq::{Generator, InitError};

impl<T: Drop, G: Generator<T>, C: Content> GenericLockedLazy<T, G, NoExit<C>> {
    /// A read ticket, after a run of the generator where one is due.
    ///
    /// # Errors
    ///
    /// `Borrowed` exactly where the call is barred, and then nothing changes. `Failed` exactly where the generator failed in
    /// this call. `Access` exactly where else the value is not in reach. No ticket is left then.
    pub fn read(&mut self) -> Result<ReadTicket, InitError>
        requires { G.may_call self.old.generator }
        ensures calls { Calls G.attempts (tolerance G.INIT_FAILURE G.FINAL_REGISTRATION_FAILURE) (Some unregistered) bars_read (say_read false) (left_read false) self.old result self.new }
        ensures opens { IfOk result (λ _. 0 < self.new.readers) }
        ensures again { G.may_call self.new.generator }
        ensures marker { self.new.marker ≡ self.old.marker }
    {
        let entered = self.cell.enter_read();
        self.cell.keep_read(entered, false)
    }

    /// The write ticket, after a run of the generator where one is due. The phase is published when it is given back.
    ///
    /// # Errors
    ///
    /// As `read`.
    pub fn write(&mut self) -> Result<WriteTicket, InitError>
        requires { G.may_call self.old.generator }
        ensures calls { Calls G.attempts (tolerance G.INIT_FAILURE G.FINAL_REGISTRATION_FAILURE) (Some unregistered) bars_write (say_write false) (left_write false) self.old result self.new }
        ensures opens { IfOk result (λ _. self.new.writing ≡ true) }
        ensures again { G.may_call self.new.generator }
        ensures marker { self.new.marker ≡ self.old.marker }
    {
        let entered = self.cell.enter_write();
        self.cell.keep_write(entered, false)
    }

    /// Initializes the cell: where a run is due, the generator runs. No ticket is left.
    ///
    /// # Errors
    ///
    /// As `read`.
    pub fn init(&mut self) -> Result<Phase, InitError>
        requires { G.may_call self.old.generator }
        ensures calls { Calls G.attempts (tolerance G.INIT_FAILURE G.FINAL_REGISTRATION_FAILURE) (Some unregistered) bars_write (say_init false) left_init self.old result self.new }
        ensures again { G.may_call self.new.generator }
        ensures marker { self.new.marker ≡ self.old.marker }
    {
        let entered = self.cell.enter_write();
        self.cell.keep_none(entered, false)
    }

    /// The same as `read`; `None` exactly where the call is barred, and then nothing changes.
    ///
    /// # Errors
    ///
    /// `Failed` exactly where the generator failed in this call, `Access` exactly where else the value is not in reach.
    pub fn fast_read(&mut self) -> Option<Result<ReadTicket, InitError>>
        requires { G.may_call self.old.generator }
        ensures calls { Calls G.attempts (tolerance G.INIT_FAILURE G.FINAL_REGISTRATION_FAILURE) (Some unregistered) bars_read (say_fast_read false) (left_read false) self.old result self.new }
        ensures opens { IfSome result (λ r. IfOk r (λ _. 0 < self.new.readers)) }
        ensures again { G.may_call self.new.generator }
        ensures marker { self.new.marker ≡ self.old.marker }
    {
        unless_borrowed(self.read())
    }

    /// The same as `write`; `None` exactly where the call is barred, and then nothing changes.
    ///
    /// # Errors
    ///
    /// `Failed` exactly where the generator failed in this call, `Access` exactly where else the value is not in reach.
    pub fn fast_write(&mut self) -> Option<Result<WriteTicket, InitError>>
        requires { G.may_call self.old.generator }
        ensures calls { Calls G.attempts (tolerance G.INIT_FAILURE G.FINAL_REGISTRATION_FAILURE) (Some unregistered) bars_write (say_fast_write false) (left_write false) self.old result self.new }
        ensures opens { IfSome result (λ r. IfOk r (λ _. self.new.writing ≡ true)) }
        ensures again { G.may_call self.new.generator }
        ensures marker { self.new.marker ≡ self.old.marker }
    {
        unless_borrowed(self.write())
    }
}
