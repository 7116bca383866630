//! The locker of a cell that belongs to one party.

ghost use Rattle.std.specs.Prelude.{◌≡◌, ◌<◌, Some, None, if◌then◌else◌};
ghost use Rattle.phase_bits.specs.Number.{IsKnown};
ghost use Rattle.phase_bits.specs.Records.{IsValid, unheld, admit_read, admit_write, leave_read, leave_write, downgrade};
ghost use Rattle.phase_locker.specs.Natures.{MayJudge, IsRule, Tries, bars, read_ticket, write_ticket};
ghost use Rattle.phase_locker.specs.Owned.{IsHeldToWrite};

use crate::attempts;
use crate::holder::HolderLocker;
use crate::locker::PhaseLocker;
use crate::parks::Parks;
use crate::store::Store;
use crate::tickets::{Attempt, LockNature, LockResult, ReadTicket, WriteTicket};
use crate::ways::{Given, LockerKind, Who};
use phase_bits::{Phase, Phased};
use std::marker::Model;

#[cfg(test)]
mod tests;

/// The locker of a cell that belongs to one party. It is static_init's locker of that name.
///
/// A contract sees its record. Beside the calls of `PhaseLocker` it has calls that know no rows: a call that is barred
/// gets nothing, since nobody else could give the lock back. Where such a call takes a ticket, the record must be held
/// so.
#[derive(Drop)]
pub struct UnSyncPhaseLocker {
    record: HolderLocker,
}

impl Model for UnSyncPhaseLocker {
    ghost use Rattle.std.specs.Prelude.{◌≡◌};
    ghost use Rattle.phase_bits.specs.declared.holders.Holders.{Holders};
    ghost use Rattle.phase_locker.specs.declared.ways.LockerKind.TheVariants.{Own};

    ghost Value = { Holders };

    ghost view = { λ l. l.record.holders };

    ghost invariant = { λ l. l.record.kind ≡ Own };
}

impl UnSyncPhaseLocker {
    /// A locker with this phase, that nobody holds.
    pub fn new(phase: Phase) -> UnSyncPhaseLocker
        requires { IsKnown phase }
        ensures { result ≡ unheld phase }
    {
        UnSyncPhaseLocker {
            record: HolderLocker::new(LockerKind::Own, phase),
        }
    }

    /// Takes a lock; `None` exactly where the nature that the rule gives is barred.
    pub fn lock<F: Fn(Phase) -> LockNature>(
        &mut self,
        how: &F,
    ) -> Option<LockResult<ReadTicket, WriteTicket>>
        requires callable { MayJudge (F.pre how.now) }
        requires rule { IsRule (F.post how.now) }
        ensures tries { Tries (F.post how.now) self.old result self.new }
        ensures valid { IsValid self.new }
    {
        self.try_lock(how)
    }

    /// The same as `lock`: a cell of one party has nobody to wait for.
    pub fn try_lock<F: Fn(Phase) -> LockNature>(
        &mut self,
        how: &F,
    ) -> Option<LockResult<ReadTicket, WriteTicket>>
        requires callable { MayJudge (F.pre how.now) }
        requires rule { IsRule (F.post how.now) }
        ensures tries { Tries (F.post how.now) self.old result self.new }
        ensures valid { IsValid self.new }
    {
        attempts::try_lock(&mut self.record, how)
    }

    /// Whether a lock is open, which bars a writer.
    pub fn is_held(&self) -> bool
        ensures held { result ≡ bars self.now LockNature.Write }
        ensures valid { IsValid self.now }
    {
        self.record.bars(LockNature::Write)
    }

    /// Takes a read lock; `None` exactly where it is barred.
    pub fn try_read(&mut self) -> Option<ReadTicket>
        ensures ticket { result ≡ (if bars self.old LockNature.Read then None else Some read_ticket) }
        ensures held { self.new ≡ (if bars self.old LockNature.Read then self.old else admit_read self.old) }
    {
        if self.record.bars(LockNature::Read) {
            return None;
        }
        self.record.add_readers(1);
        Some(ReadTicket::open())
    }

    /// Takes a write lock; `None` exactly where it is barred.
    pub fn try_write(&mut self) -> Option<WriteTicket>
        ensures ticket { result ≡ (if bars self.old LockNature.Write then None else Some write_ticket) }
        ensures held { self.new ≡ (if bars self.old LockNature.Write then self.old else admit_write self.old) }
    {
        if self.record.bars(LockNature::Write) {
            return None;
        }
        self.record.set_locked(true);
        Some(WriteTicket::open())
    }

    /// Gives a read lock back.
    pub fn free_read(&mut self, t: ReadTicket)
        requires { 0 < self.old.readers }
        ensures { self.new ≡ leave_read self.old }
    {
        t.close();
        self.record.drop_reader();
    }

    /// Gives a write lock back with the phase that the cell has now.
    pub fn free_write(&mut self, t: WriteTicket, phase: Phase)
        requires known { IsKnown phase }
        requires open { IsHeldToWrite self.old }
        ensures { self.new ≡ leave_write phase self.old }
    {
        t.close();
        self.record.set_locked(false);
        self.record.store_phase(phase);
    }

    /// Makes a write lock a read lock, with the phase that the cell has now.
    pub fn turn_read(&mut self, t: WriteTicket, phase: Phase) -> ReadTicket
        requires known { IsKnown phase }
        requires open { IsHeldToWrite self.old }
        ensures { self.new ≡ downgrade phase self.old }
    {
        t.close();
        self.record.set_locked(false);
        self.record.store_phase(phase);
        self.record.add_readers(1);
        ReadTicket::open()
    }
}

impl Phased for UnSyncPhaseLocker {
    ghost phase = { λ l. l.phase };

    fn phase(this: &Self) -> Phase {
        PhaseLocker::phase(&this.record)
    }
}

// A barred call of `lock` and `again` waits as `How::Spin`.
impl PhaseLocker for UnSyncPhaseLocker {
    ghost use Rattle.phase_locker.specs.declared.ways.LockerKind.TheVariants.{Own};
    ghost use Rattle.phase_locker.specs.Owned.{is_own};
    ghost use Rattle.phase_locker.specs.Attempts.{NeverDrains};
    ghost use Rattle.phase_locker.specs.Gifts.{ReadersFirst, GivesNothing};

    ghost held = { λ l. l };

    ghost place = { λ l. Own };

    ghost takes = { is_own };

    ghost waits = { NeverDrains };

    ghost gives = { ReadersFirst };

    ghost shares = { GivesNothing };

    fn takes(kind: LockerKind) -> bool {
        kind == LockerKind::Own
    }

    fn new(_kind: LockerKind, phase: Phase) -> UnSyncPhaseLocker {
        UnSyncPhaseLocker::new(phase)
    }

    fn phase(&self) -> Phase {
        PhaseLocker::phase(&self.record)
    }

    fn lock<F: Fn(Phase) -> LockNature>(
        &mut self,
        parks: &mut Parks,
        who: Who,
        wake: LockNature,
        how: &F,
    ) -> (Attempt, Given) {
        self.record.lock(parks, who, wake, how)
    }

    fn again<F: Fn(Phase) -> LockNature>(
        &mut self,
        parks: &mut Parks,
        who: Who,
        wake: LockNature,
        how: &F,
    ) -> (Attempt, Given) {
        self.record.again(parks, who, wake, how)
    }

    fn try_lock<F: Fn(Phase) -> LockNature>(
        &mut self,
        how: &F,
    ) -> Option<LockResult<ReadTicket, WriteTicket>> {
        PhaseLocker::try_lock(&mut self.record, how)
    }

    fn release_read(&mut self, parks: &mut Parks, cell: u32, t: ReadTicket) -> Given {
        self.record.release_read(parks, cell, t)
    }

    fn release_write(
        &mut self,
        parks: &mut Parks,
        cell: u32,
        t: WriteTicket,
        phase: Phase,
    ) -> Given {
        self.record.release_write(parks, cell, t, phase)
    }

    fn downgrade(
        &mut self,
        parks: &mut Parks,
        cell: u32,
        t: WriteTicket,
        phase: Phase,
    ) -> (ReadTicket, Given) {
        self.record.downgrade(parks, cell, t, phase)
    }

    fn clone_read(&mut self, t: &ReadTicket) -> Option<ReadTicket> {
        self.record.clone_read(t)
    }

    fn lock_mut(&mut self) -> WriteTicket {
        self.record.lock_mut()
    }

    fn get_phase_unique(&mut self) -> Phase {
        self.record.get_phase_unique()
    }

    fn set_phase(&mut self, phase: Phase) {
        self.record.set_phase(phase);
    }
}
