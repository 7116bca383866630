//! Locked lazies that were started.

ghost use Rattle.std.specs.Prelude.{◌≡◌, ◌<◌, true, IfOk};
ghost use Rattle.std.specs.Option.{IfSome};
ghost use Rattle.lazy_cells.specs.Locked.{Tries, bars_read, bars_write};
ghost use Rattle.lazy_cells.specs.Access.{say_read, say_write, say_fast_read, say_fast_write, say_fast_try_read, say_fast_try_write, left_read, left_write};

use crate::fast::unless_borrowed;
use crate::locked::GenericLockedLazy;
use crate::markers::Reach;
use crate::started::Started;
use phase_bits::AccessError;
use phase_locker::{ReadTicket, WriteTicket};
use phase_seq::InitError;

impl<T, G, P: Reach> Started<GenericLockedLazy<T, G, P>> {
    /// A read ticket.
    ///
    /// # Errors
    ///
    /// `Borrowed` exactly where the call is barred, `Access` exactly where else the value is not in reach. Nothing changes
    /// then.
    pub fn read(&mut self) -> Result<ReadTicket, InitError>
        ensures tries { Tries bars_read (say_read P.hard) (left_read P.hard) self.old result self.new }
        ensures opens { IfOk result (λ _. 0 < self.new.readers) }
    {
        self.cell.try_read()
    }

    /// The write ticket.
    ///
    /// # Errors
    ///
    /// `Borrowed` exactly where the call is barred, `Access` exactly where else the value is not in reach. Nothing changes
    /// then.
    pub fn write(&mut self) -> Result<WriteTicket, InitError>
        ensures tries { Tries bars_write (say_write P.hard) (left_write P.hard) self.old result self.new }
        ensures opens { IfOk result (λ _. self.new.writing ≡ true) }
    {
        self.cell.try_write()
    }

    /// The same as `read`.
    ///
    /// # Errors
    ///
    /// `Borrowed` exactly where the call is barred, `Access` exactly where else the value is not in reach. Nothing changes
    /// then.
    pub fn try_read(&mut self) -> Result<ReadTicket, InitError>
        ensures tries { Tries bars_read (say_read P.hard) (left_read P.hard) self.old result self.new }
        ensures opens { IfOk result (λ _. 0 < self.new.readers) }
    {
        self.cell.try_read()
    }

    /// The same as `write`.
    ///
    /// # Errors
    ///
    /// `Borrowed` exactly where the call is barred, `Access` exactly where else the value is not in reach. Nothing changes
    /// then.
    pub fn try_write(&mut self) -> Result<WriteTicket, InitError>
        ensures tries { Tries bars_write (say_write P.hard) (left_write P.hard) self.old result self.new }
        ensures opens { IfOk result (λ _. self.new.writing ≡ true) }
    {
        self.cell.try_write()
    }

    /// The same as `read`; `None` exactly where the call is barred, and then nothing changes.
    ///
    /// # Errors
    ///
    /// `Access` exactly where else the value is not in reach. Nothing changes then.
    pub fn fast_read(&mut self) -> Option<Result<ReadTicket, InitError>>
        ensures tries { Tries bars_read (say_fast_read P.hard) (left_read P.hard) self.old result self.new }
        ensures opens { IfSome result (λ r. IfOk r (λ _. 0 < self.new.readers)) }
    {
        unless_borrowed(self.read())
    }

    /// The same as `write`; `None` exactly where the call is barred, and then nothing changes.
    ///
    /// # Errors
    ///
    /// `Access` exactly where else the value is not in reach. Nothing changes then.
    pub fn fast_write(&mut self) -> Option<Result<WriteTicket, InitError>>
        ensures tries { Tries bars_write (say_fast_write P.hard) (left_write P.hard) self.old result self.new }
        ensures opens { IfSome result (λ r. IfOk r (λ _. self.new.writing ≡ true)) }
    {
        unless_borrowed(self.write())
    }

    /// The same as `try_read`; `None` exactly where the call is barred, and then nothing changes.
    ///
    /// # Errors
    ///
    /// `AccessError` exactly where else the value is not in reach. Nothing changes then.
    pub fn fast_try_read(&mut self) -> Option<Result<ReadTicket, AccessError>>
        ensures tries { Tries bars_read (say_fast_try_read P.hard) (left_read P.hard) self.old result self.new }
        ensures opens { IfSome result (λ r. IfOk r (λ _. 0 < self.new.readers)) }
    {
        self.cell.fast_try_read()
    }

    /// The same as `try_write`; `None` exactly where the call is barred, and then nothing changes.
    ///
    /// # Errors
    ///
    /// `AccessError` exactly where else the value is not in reach. Nothing changes then.
    pub fn fast_try_write(&mut self) -> Option<Result<WriteTicket, AccessError>>
        ensures tries { Tries bars_write (say_fast_try_write P.hard) (left_write P.hard) self.old result self.new }
        ensures opens { IfSome result (λ r. IfOk r (λ _. self.new.writing ≡ true)) }
    {
        self.cell.fast_try_write()
    }
}
