//! Tickets of a locked cell.

ghost use Rattle.std.specs.Prelude.{◌≡◌, ◌<◌, ◌+◌, ◌==◌, true, Some, Ok, Err, if◌then◌else◌};
ghost use Rattle.std.specs.Borrow.{sem, Lends};
ghost use Rattle.phase_bits.specs.Records.{most_readers};
ghost use Rattle.phase_locker.specs.Natures.{read_ticket};
ghost use Rattle.phase_seq.specs.declared.init_error.InitError.TheVariants.{Borrowed};
ghost use Rattle.lazy_cells.specs.Cells.{is_there};
ghost use Rattle.lazy_cells.specs.Locked.{releases, publishes, downgrades};
ghost use Rattle.lazy_cells.specs.contracts.guarded.Guarded.{the_row};

use crate::guarded::Guarded;
use phase_locker::{PhaseLocker, ReadTicket, WriteTicket};
use phase_seq::InitError;

impl<T, G, P> Guarded<T, G, P> {
    /// Gives a read ticket back.
    pub(crate) fn release(&mut self, t: ReadTicket)
        requires { 0 < self.old.readers }
        ensures { self.new ≡ releases self.old }
    {
        self.sequentializer.locker_mut().free_read(t);
    }

    /// Gives the write ticket back, which publishes the phase.
    pub(crate) fn release_write(&mut self, t: WriteTicket)
        requires { self.old.writing ≡ true }
        ensures { self.new ≡ publishes self.old }
    {
        let phase = self.next();
        self.next = None;
        self.sequentializer.locker_mut().free_write(t, phase);
    }

    /// Makes the write ticket a read ticket, which publishes the phase.
    pub(crate) fn downgrade(&mut self, t: WriteTicket) -> ReadTicket
        requires { self.old.writing ≡ true }
        ensures { self.new ≡ downgrades self.old }
    {
        let phase = self.next();
        self.next = None;
        self.sequentializer.locker_mut().turn_read(t, phase)
    }

    /// Opens one more read ticket beside this one.
    pub(crate) fn clone_ticket(&mut self, t: &ReadTicket) -> Result<ReadTicket, InitError>
        requires { 0 < self.old.readers }
        ensures answer { result ≡ (if self.old.readers == most_readers then Err Borrowed else Ok read_ticket) }
        ensures left { self.new ≡ (if self.old.readers == most_readers then self.old else record self.old { readers = self.old.readers + 1 }) }
    {
        match self.sequentializer.locker_mut().clone_read(t) {
            Some(ticket) => Ok(ticket),
            None => Err(InitError::Borrowed),
        }
    }

    /// The value, where it is there.
    pub(crate) fn value(&self) -> &Option<T>
        ensures { result.now ≡ self.now.value }
    {
        &self.body
    }

    /// The value.
    pub(crate) fn look(&self) -> &T
        requires { is_there self.now.value ≡ true }
        ensures { self.now.value ≡ Some result.now }
    {
        self.body.as_ref().unwrap()
    }

    /// The value, to be changed.
    pub(crate) fn value_mut(&mut self) -> &mut T
        requires { is_there self.old.value ≡ true }
        ensures* lends { sem 𝓛 (Lends (the_row T.row G.row P.row) T.row self.entry result (λ w. record self.old { value = Some w })) }
        ensures shows { self.old.value ≡ Some result.now }
    {
        self.body.as_mut().unwrap()
    }
}

impl<T: Drop, G, P> Guarded<T, G, P> {
    /// Puts a value in place of the one that is there.
    pub(crate) fn set(&mut self, value: T)
        ensures { self.new ≡ record self.old { value = Some value } }
    {
        self.body = Some(value);
    }
}
