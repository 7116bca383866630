//! A locker that keeps the plain record.

ghost use Rattle.std.specs.Prelude.{◌≡◌, true, false};
ghost use Rattle.phase_bits.specs.Records.{IsValid};
ghost use Rattle.phase_locker.specs.Gifts.{ReadersFirst, GivesNothing};
ghost use Rattle.phase_locker.specs.Attempts.{NeverDrains};

use crate::locker::PhaseLocker;
use crate::parks::Parks;
use crate::store::Store;
use crate::tickets::{Attempt, LockNature, LockResult, ReadTicket, WriteTicket};
use crate::ways::{Given, LockerKind, Who};
use crate::{attempts, gifts};
use phase_bits::{Holders, MOST_READERS, Phase};

#[cfg(test)]
mod tests;

/// A locker that keeps the plain record, for cells of each kind. This project's own.
///
/// Where calls park, each barred call parks. A lock that nobody holds any more goes to all parked readers where there
/// is one, else to the writer that has been parked for longest. A downgrade gives nothing.
#[derive(Drop)]
pub struct HolderLocker {
    holders: Holders,
    kind: LockerKind,
    ghost valid: { IsValid holders },
}

impl Store for HolderLocker {
    ghost kept = { λ l. l.holders };

    ghost place = { λ l. l.kind };

    fn place(&self) -> LockerKind {
        self.kind
    }

    fn stored_phase(&self) -> Phase {
        self.holders.phase
    }

    fn bars(&self, nature: LockNature) -> bool {
        match nature {
            LockNature::Read => {
                self.holders.locked && self.holders.readers == 0
                    || self.holders.readers == MOST_READERS
            }
            LockNature::Write => self.holders.locked || self.holders.readers != 0,
            LockNature::None => false,
        }
    }

    fn has_readers(&self) -> bool {
        self.holders.readers != 0
    }

    fn is_locked(&self) -> bool {
        self.holders.locked
    }

    fn add_readers(&mut self, more: u32) {
        self.holders.readers += more;
    }

    fn drop_reader(&mut self) {
        self.holders.readers -= 1;
    }

    fn set_locked(&mut self, locked: bool) {
        self.holders.locked = locked;
    }

    fn store_phase(&mut self, phase: Phase) {
        self.holders.phase = phase;
    }

    fn set_waiters(&mut self, read: bool, write: bool) {
        self.holders.read_waiters = read;
        self.holders.write_waiters = write;
    }
}

impl PhaseLocker for HolderLocker {
    ghost held = { λ l. l.holders };

    ghost place = { λ l. l.kind };

    ghost takes = { λ k. true };

    ghost waits = { NeverDrains };

    ghost gives = { ReadersFirst };

    ghost shares = { GivesNothing };

    fn takes(_kind: LockerKind) -> bool {
        true
    }

    fn new(kind: LockerKind, phase: Phase) -> HolderLocker {
        HolderLocker {
            holders: Holders {
                phase,
                readers: 0,
                locked: false,
                read_waiters: false,
                write_waiters: false,
            },
            kind,
        }
    }

    fn phase(&self) -> Phase {
        self.holders.phase
    }

    #[inline(always)]
    fn lock<F: Fn(Phase) -> LockNature>(
        &mut self,
        parks: &mut Parks,
        who: Who,
        wake: LockNature,
        how: &F,
    ) -> (Attempt, Given) {
        attempts::lock(self, parks, who, wake, how)
    }

    #[inline(always)]
    fn again<F: Fn(Phase) -> LockNature>(
        &mut self,
        parks: &mut Parks,
        who: Who,
        wake: LockNature,
        how: &F,
    ) -> (Attempt, Given) {
        attempts::again(self, parks, who, wake, how)
    }

    fn try_lock<F: Fn(Phase) -> LockNature>(
        &mut self,
        how: &F,
    ) -> Option<LockResult<ReadTicket, WriteTicket>> {
        attempts::try_lock(self, how)
    }

    fn release_read(&mut self, parks: &mut Parks, cell: u32, t: ReadTicket) -> Given {
        gifts::release_read(self, parks, cell, t)
    }

    fn release_write(
        &mut self,
        parks: &mut Parks,
        cell: u32,
        t: WriteTicket,
        phase: Phase,
    ) -> Given {
        gifts::release_write(self, parks, cell, t, phase)
    }

    fn downgrade(
        &mut self,
        parks: &mut Parks,
        cell: u32,
        t: WriteTicket,
        phase: Phase,
    ) -> (ReadTicket, Given) {
        (gifts::downgrade(self, parks, cell, t, phase), Given::Nobody)
    }

    fn clone_read(&mut self, _t: &ReadTicket) -> Option<ReadTicket> {
        attempts::clone_read(self)
    }

    fn lock_mut(&mut self) -> WriteTicket {
        self.holders.locked = true;
        WriteTicket::open()
    }

    fn get_phase_unique(&mut self) -> Phase {
        self.holders.phase
    }

    fn set_phase(&mut self, phase: Phase) {
        self.holders.phase = phase;
    }
}
