//! Calls on a locked lazy that take it as it is.

ghost use Rattle.std.specs.Prelude.{◌≡◌, ◌<◌, true, IfOk};
ghost use Rattle.std.specs.Option.{IfSome};
ghost use Rattle.lazy_cells.specs.Locked.{Tries, bars_read, bars_write};
ghost use Rattle.lazy_cells.specs.Access.{say_read, say_write, say_fast_try_read, say_fast_try_write, left_read, left_write};

use crate::fast::unless_barred;
use crate::locked::GenericLockedLazy;
use crate::markers::Reach;
use phase_bits::AccessError;
use phase_locker::{ReadTicket, WriteTicket};
use phase_seq::InitError;

impl<T, G, P: Reach> GenericLockedLazy<T, G, P> {
    /// A read ticket on the cell as it is. Nothing is run.
    ///
    /// # Errors
    ///
    /// `Borrowed` exactly where the call is barred, `Access` exactly where else the value is not in reach. Nothing changes then.
    pub fn try_read(&mut self) -> Result<ReadTicket, InitError>
        ensures tries { Tries bars_read (say_read P.hard) (left_read P.hard) self.old result self.new }
        ensures opens { IfOk result (λ _. 0 < self.new.readers) }
        ensures phase { self.new.phase ≡ self.old.phase }
        ensures generator { self.new.generator ≡ self.old.generator }
        ensures marker { self.new.marker ≡ self.old.marker }
    {
        let entered = self.cell.enter_read_only();
        self.cell.keep_read(entered, P::is_hard())
    }

    /// The write ticket on the cell as it is. Nothing is run.
    ///
    /// # Errors
    ///
    /// `Borrowed` exactly where the call is barred, `Access` exactly where else the value is not in reach. Nothing changes then.
    pub fn try_write(&mut self) -> Result<WriteTicket, InitError>
        ensures tries { Tries bars_write (say_write P.hard) (left_write P.hard) self.old result self.new }
        ensures opens { IfOk result (λ _. self.new.writing ≡ true) }
        ensures phase { self.new.phase ≡ self.old.phase }
        ensures generator { self.new.generator ≡ self.old.generator }
        ensures marker { self.new.marker ≡ self.old.marker }
    {
        let entered = self.cell.enter_write_only();
        self.cell.keep_write(entered, P::is_hard())
    }

    /// The same as `try_read`; `None` exactly where the call is barred, and then nothing changes.
    ///
    /// # Errors
    ///
    /// `AccessError` with the phase, exactly where else the value is not in reach.
    pub fn fast_try_read(&mut self) -> Option<Result<ReadTicket, AccessError>>
        ensures tries { Tries bars_read (say_fast_try_read P.hard) (left_read P.hard) self.old result self.new }
        ensures opens { IfSome result (λ r. IfOk r (λ _. 0 < self.new.readers)) }
        ensures phase { self.new.phase ≡ self.old.phase }
        ensures generator { self.new.generator ≡ self.old.generator }
        ensures marker { self.new.marker ≡ self.old.marker }
    {
        unless_barred(self.try_read())
    }

    /// The same as `try_write`; `None` exactly where the call is barred, and then nothing changes.
    ///
    /// # Errors
    ///
    /// `AccessError` with the phase, exactly where else the value is not in reach.
    pub fn fast_try_write(&mut self) -> Option<Result<WriteTicket, AccessError>>
        ensures tries { Tries bars_write (say_fast_try_write P.hard) (left_write P.hard) self.old result self.new }
        ensures opens { IfSome result (λ r. IfOk r (λ _. self.new.writing ≡ true)) }
        ensures phase { self.new.phase ≡ self.old.phase }
        ensures generator { self.new.generator ≡ self.old.generator }
        ensures marker { self.new.marker ≡ self.old.marker }
    {
        unless_barred(self.try_write())
    }
}
