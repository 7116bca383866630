//! Calls of primed lazies, whose value is there before any run.

ghost use Rattle.std.specs.Prelude.{◌≡◌, ◌<◌, IfOk};
ghost use Rattle.lazy_cells.specs.Locked.{Tries, bars_read, bars_write};
ghost use Rattle.lazy_cells.specs.Access.{OpensEither, say_primed_read, say_primed_write, left_primed_read, left_primed_write};

use crate::locked::GenericLockedLazy;
use crate::markers::IsPrimed;
use phase_locker::{ReadTicket, WriteTicket};
use phase_seq::InitError;

mod no_exit;
mod with_exit;

impl<T, G, P: IsPrimed> GenericLockedLazy<T, G, P> {
    /// A read ticket on the cell as it is. It is in an `Err` where the value is the primed one, or that which a finalizer
    /// left. Nothing is run.
    ///
    /// # Errors
    ///
    /// `Borrowed` exactly where the call is barred, and then nothing changes.
    pub fn primed_read_non_initializing(
        &mut self,
    ) -> Result<Result<ReadTicket, ReadTicket>, InitError>
        ensures tries { Tries bars_read (say_primed_read P.hard) left_primed_read self.old result self.new }
        ensures opens { IfOk result (λ _. 0 < self.new.readers) }
        ensures phase { self.new.phase ≡ self.old.phase }
        ensures generator { self.new.generator ≡ self.old.generator }
        ensures marker { self.new.marker ≡ self.old.marker }
    {
        let entered = self.cell.enter_read_only();
        self.cell.keep_primed_read(entered, P::is_hard())
    }

    /// The write ticket on the cell as it is. Where the value is the primed one, or that which a finalizer left, it is a read
    /// ticket in an `Err`. Nothing is run.
    ///
    /// # Errors
    ///
    /// `Borrowed` exactly where the call is barred, and then nothing changes.
    pub fn primed_write_non_initializing(
        &mut self,
    ) -> Result<Result<WriteTicket, ReadTicket>, InitError>
        ensures tries { Tries bars_write (say_primed_write P.hard) (left_primed_write P.hard) self.old result self.new }
        ensures opens { OpensEither result self.new }
        ensures phase { self.new.phase ≡ self.old.phase }
        ensures generator { self.new.generator ≡ self.old.generator }
        ensures marker { self.new.marker ≡ self.old.marker }
    {
        let entered = self.cell.enter_write_only();
        self.cell.keep_primed_write(entered, P::is_hard())
    }
}
