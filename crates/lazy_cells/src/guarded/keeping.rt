//! What a call on a locked cell keeps of the lock with which it came in. `hard` says whether a finalizer takes the value
//! out of reach.

ghost use Rattle.std.specs.Prelude.{◌≡◌, ◌<◌, true, IfOk};
ghost use Rattle.lazy_cells.specs.Locked.{releases, publishes, downgrades};
ghost use Rattle.lazy_cells.specs.Access.{OpensEither};
ghost use Rattle.lazy_cells.specs.Guards.{kept, kept_phase, kept_primed, kept_primed_write, left_kept, left_published};

use crate::guarded::Guarded;
use crate::kind::within_reach;
use phase_bits::{AccessError, Phase};
use phase_locker::{ReadTicket, WriteTicket};
use phase_seq::InitError;

impl<T, G, P> Guarded<T, G, P> {
    /// Keeps a read ticket, in an `Err` where the value is not in reach.
    pub(crate) fn keep_primed_read(
        &self,
        entered: Result<(ReadTicket, Phase), InitError>,
        hard: bool,
    ) -> Result<Result<ReadTicket, ReadTicket>, InitError>
        requires { IfOk entered (λ _. 0 < self.now.readers) }
        ensures answer { result ≡ kept_primed hard entered }
        ensures opens { IfOk result (λ _. 0 < self.now.readers) }
    {
        let (ticket, phase) = entered?;
        if within_reach(hard, phase) {
            Ok(Ok(ticket))
        } else {
            Ok(Err(ticket))
        }
    }

    /// Keeps a read ticket where the value is in reach, else gives it back.
    pub(crate) fn keep_read(
        &mut self,
        entered: Result<(ReadTicket, Phase), InitError>,
        hard: bool,
    ) -> Result<ReadTicket, InitError>
        requires { IfOk entered (λ _. 0 < self.old.readers) }
        ensures answer { result ≡ kept hard entered }
        ensures left { self.new ≡ left_kept releases hard entered self.old }
        ensures opens { IfOk result (λ _. 0 < self.new.readers) }
        ensures generator { self.new.generator ≡ self.old.generator }
        ensures marker { self.new.marker ≡ self.old.marker }
    {
        let (ticket, phase) = entered?;
        if within_reach(hard, phase) {
            return Ok(ticket);
        }
        self.release(ticket);
        Err(InitError::Access(AccessError { phase }))
    }

    /// Keeps a write ticket where the value is in reach, else gives it back.
    pub(crate) fn keep_write(
        &mut self,
        entered: Result<(WriteTicket, Phase), InitError>,
        hard: bool,
    ) -> Result<WriteTicket, InitError>
        requires { IfOk entered (λ _. self.old.writing ≡ true) }
        ensures answer { result ≡ kept hard entered }
        ensures left { self.new ≡ left_kept publishes hard entered self.old }
        ensures opens { IfOk result (λ _. self.new.writing ≡ true) }
        ensures generator { self.new.generator ≡ self.old.generator }
        ensures marker { self.new.marker ≡ self.old.marker }
    {
        let (ticket, phase) = entered?;
        if within_reach(hard, phase) {
            return Ok(ticket);
        }
        self.release_write(ticket);
        Err(InitError::Access(AccessError { phase }))
    }

    /// Gives a write ticket back. Answers the phase where the value is in reach.
    pub(crate) fn keep_none(
        &mut self,
        entered: Result<(WriteTicket, Phase), InitError>,
        hard: bool,
    ) -> Result<Phase, InitError>
        requires { IfOk entered (λ _. self.old.writing ≡ true) }
        ensures answer { result ≡ kept_phase hard entered }
        ensures left { self.new ≡ left_published entered self.old }
        ensures generator { self.new.generator ≡ self.old.generator }
        ensures marker { self.new.marker ≡ self.old.marker }
    {
        let (ticket, phase) = entered?;
        self.release_write(ticket);
        if within_reach(hard, phase) {
            Ok(phase)
        } else {
            Err(InitError::Access(AccessError { phase }))
        }
    }

    /// Keeps a write ticket where the value is in reach, else makes it a read ticket in an `Err`.
    pub(crate) fn keep_primed_write(
        &mut self,
        entered: Result<(WriteTicket, Phase), InitError>,
        hard: bool,
    ) -> Result<Result<WriteTicket, ReadTicket>, InitError>
        requires { IfOk entered (λ _. self.old.writing ≡ true) }
        ensures answer { result ≡ kept_primed_write hard entered }
        ensures left { self.new ≡ left_kept downgrades hard entered self.old }
        ensures opens { OpensEither result self.new }
        ensures generator { self.new.generator ≡ self.old.generator }
        ensures marker { self.new.marker ≡ self.old.marker }
    {
        let (ticket, phase) = entered?;
        if within_reach(hard, phase) {
            return Ok(Ok(ticket));
        }
        Ok(Err(self.downgrade(ticket)))
    }
}
