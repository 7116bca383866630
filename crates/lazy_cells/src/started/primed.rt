//! Primed lazies that were started.

ghost use Rattle.std.specs.Prelude.{◌<◌, IfOk};
ghost use Rattle.lazy_cells.specs.Locked.{Tries, bars_read, bars_write};
ghost use Rattle.lazy_cells.specs.Access.{OpensEither, say_primed_read, say_primed_write, left_primed_read, left_primed_write};

use crate::locked::GenericLockedLazy;
use crate::markers::IsPrimed;
use crate::started::Started;
use phase_locker::{ReadTicket, WriteTicket};
use phase_seq::InitError;

impl<T, G, P: IsPrimed> Started<GenericLockedLazy<T, G, P>> {
    /// A read ticket. It is in an `Err` where the value is that which a finalizer left.
    ///
    /// # Errors
    ///
    /// `Borrowed` exactly where the call is barred, and then nothing changes.
    pub fn primed_read(&mut self) -> Result<Result<ReadTicket, ReadTicket>, InitError>
        ensures tries { Tries bars_read (say_primed_read P.hard) left_primed_read self.old result self.new }
        ensures opens { IfOk result (λ _. 0 < self.new.readers) }
    {
        self.cell.primed_read_non_initializing()
    }

    /// The same as `primed_read`.
    ///
    /// # Errors
    ///
    /// `Borrowed` exactly where the call is barred, and then nothing changes.
    pub fn primed_read_non_initializing(
        &mut self,
    ) -> Result<Result<ReadTicket, ReadTicket>, InitError>
        ensures tries { Tries bars_read (say_primed_read P.hard) left_primed_read self.old result self.new }
        ensures opens { IfOk result (λ _. 0 < self.new.readers) }
    {
        self.cell.primed_read_non_initializing()
    }

    /// The write ticket. Where the value is that which a finalizer left, it is a read ticket in an `Err`.
    ///
    /// # Errors
    ///
    /// `Borrowed` exactly where the call is barred, and then nothing changes.
    pub fn primed_write(&mut self) -> Result<Result<WriteTicket, ReadTicket>, InitError>
        ensures tries { Tries bars_write (say_primed_write P.hard) (left_primed_write P.hard) self.old result self.new }
        ensures opens { OpensEither result self.new }
    {
        self.cell.primed_write_non_initializing()
    }

    /// The same as `primed_write`.
    ///
    /// # Errors
    ///
    /// `Borrowed` exactly where the call is barred, and then nothing changes.
    pub fn primed_write_non_initializing(
        &mut self,
    ) -> Result<Result<WriteTicket, ReadTicket>, InitError>
        ensures tries { Tries bars_write (say_primed_write P.hard) (left_primed_write P.hard) self.old result self.new }
        ensures opens { OpensEither result self.new }
    {
        self.cell.primed_write_non_initializing()
    }
}
