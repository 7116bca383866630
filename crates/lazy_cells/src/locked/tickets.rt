//! Tickets of a locked lazy, and what is seen of it.

ghost use Rattle.std.specs.Prelude.{◌≡◌, ◌<◌, ◌+◌, ◌==◌, true, Some, Ok, Err, if◌then◌else◌};
ghost use Rattle.std.specs.Borrow.{sem, Lends};
ghost use Rattle.phase_bits.specs.Records.{most_readers};
ghost use Rattle.phase_bits.specs.Flags.{has, initialized};
ghost use Rattle.phase_bits.specs.Number.{number, IsKnown};
ghost use Rattle.phase_locker.specs.Natures.{read_ticket};
ghost use Rattle.phase_seq.specs.declared.init_error.InitError.TheVariants.{Borrowed};
ghost use Rattle.lazy_cells.specs.Locked.{releases, publishes, downgrades};
ghost use Rattle.lazy_cells.specs.contracts.locked.GenericLockedLazy.{the_row};

use crate::locked::GenericLockedLazy;
use crate::markers::Reach;
use phase_bits::{Phase, Phased};
use phase_locker::{ReadTicket, WriteTicket};
use phase_seq::InitError;

impl<T, G, P: Reach> GenericLockedLazy<T, G, P> {
    /// The phase of the cell.
    pub fn phase(&self) -> Phase
        ensures phase { result ≡ self.now.phase }
        ensures known { IsKnown result }
    {
        self.cell.phase()
    }

    /// The phase of the cell that this ticket reads.
    pub fn phase_of(&self, _t: &ReadTicket) -> Phase
        requires { 0 < self.now.readers }
        ensures phase { result ≡ self.now.phase }
        ensures known { IsKnown result }
    {
        self.cell.phase()
    }

    /// The phase that the release of this ticket will publish.
    pub fn phase_of_write(&self, _t: &WriteTicket) -> Phase
        requires { self.now.writing ≡ true }
        ensures phase { result ≡ self.now.next }
        ensures known { IsKnown result }
    {
        self.cell.next()
    }

    /// The value that this ticket reads.
    pub fn look(&self, _t: &ReadTicket) -> &T
        requires { 0 < self.now.readers }
        ensures { self.now.value ≡ Some result.now }
    {
        self.cell.look()
    }

    /// The value that this ticket writes.
    pub fn look_write(&self, _t: &WriteTicket) -> &T
        requires { self.now.writing ≡ true }
        ensures { self.now.value ≡ Some result.now }
    {
        self.cell.look()
    }

    /// The value that this ticket writes, to be changed.
    pub fn value_mut<'a>(&'a mut self, _t: &mut WriteTicket) -> &'a mut T
        requires { self.old.writing ≡ true }
        ensures* lends { sem 𝓛 (Lends (the_row T.row G.row P.row P.Reach) T.row self.entry result (λ w. record self.old { value = Some w })) }
        ensures shows { self.old.value ≡ Some result.now }
    {
        self.cell.value_mut()
    }

    /// Makes the write ticket a read ticket, which publishes the phase.
    pub fn downgrade(&mut self, t: WriteTicket) -> ReadTicket
        requires { self.old.writing ≡ true }
        ensures left { self.new ≡ downgrades self.old }
        ensures made { has (number self.old.phase) initialized ≡ true → self.new.phase ≡ self.old.phase }
    {
        self.cell.downgrade(t)
    }

    /// Opens one more read ticket beside this one.
    ///
    /// # Errors
    ///
    /// `Borrowed` exactly where 2^20 - 1 read tickets are open, and then nothing changes.
    pub fn clone_ticket(&mut self, t: &ReadTicket) -> Result<ReadTicket, InitError>
        requires { 0 < self.old.readers }
        ensures answer { result ≡ (if self.old.readers == most_readers then Err Borrowed else Ok read_ticket) }
        ensures left { self.new ≡ (if self.old.readers == most_readers then self.old else record self.old { readers = self.old.readers + 1 }) }
    {
        self.cell.clone_ticket(t)
    }

    /// Gives a read ticket back.
    pub fn release(&mut self, t: ReadTicket)
        requires { 0 < self.old.readers }
        ensures { self.new ≡ releases self.old }
    {
        self.cell.release(t);
    }

    /// Gives the write ticket back, which publishes the phase.
    pub fn release_write(&mut self, t: WriteTicket)
        requires { self.old.writing ≡ true }
        ensures left { self.new ≡ publishes self.old }
        ensures made { has (number self.old.phase) initialized ≡ true → self.new.phase ≡ self.old.phase }
    {
        self.cell.release_write(t);
    }
}

impl<T: Drop, G, P: Reach> GenericLockedLazy<T, G, P> {
    /// Puts a value in place of the one that is there.
    pub fn set(&mut self, _t: &mut WriteTicket, value: T)
        requires { self.old.writing ≡ true }
        ensures { self.new ≡ record self.old { value = Some value } }
    {
        self.cell.set(value);
    }
}

impl<T, G, P: Reach> Phased for GenericLockedLazy<T, G, P> {
    ghost phase = { λ c. c.phase };

    fn phase(this: &Self) -> Phase {
        this.cell.phase()
    }
}
