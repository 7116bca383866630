//! Calls of the locker of a cell that belongs to one party.

ghost use Rattle.std.specs.Prelude.{◌≡◌, ◌<◌, true};
ghost use Rattle.phase_locker.specs.Owned.{IsHeldToWrite};

use crate::store::Store;
use crate::tickets::{LockNature, LockResult, ReadTicket, WriteTicket};
use crate::unsync::UnSyncPhaseLocker;
use phase_bits::{Phase, Phased};
use std::process::Abort;
use std::test::Fail;

/// A rule that wants to read, whatever the phase.
fn reads(_phase: Phase) -> LockNature
    ensures { result ≡ LockNature.Read }
{
    LockNature::Read
}

/// A rule that wants to write, whatever the phase.
fn writes(_phase: Phase) -> LockNature
    ensures { result ≡ LockNature.Write }
{
    LockNature::Write
}

/// A rule that wants no lock, whatever the phase.
fn looks(_phase: Phase) -> LockNature
    ensures { result ≡ LockNature.None }
{
    LockNature::None
}

/// Whether there is a reader.
fn is_read(locker: &UnSyncPhaseLocker) -> bool
    ensures { result ≡ true → 0 < locker.now.readers }
{
    locker.record.has_readers()
}

/// Whether a write lock is open.
fn is_written(locker: &UnSyncPhaseLocker) -> bool
    ensures { result ≡ true → IsHeldToWrite locker.now }
{
    locker.record.is_locked() && !locker.record.has_readers()
}

/// What is counted of an answer: 1 to read, 2 to write, 3 no lock, 0 nothing. The tickets are lost.
fn number_of(got: Option<LockResult<ReadTicket, WriteTicket>>) -> u32 {
    match got {
        Some(LockResult::Read(t)) => {
            t.close();
            1
        }
        Some(LockResult::Write(t)) => {
            t.close();
            2
        }
        Some(LockResult::None(_)) => 3,
        None => 0,
    }
}

/// Gives a read lock back. The process ends where there is none.
fn close_read(rt: &impl Abort, locker: &mut UnSyncPhaseLocker) {
    if !is_read(locker) {
        rt.abort()
    }
    locker.free_read(ReadTicket::open());
}

#[test]
fn readers_bar_a_writer(rt: HostRuntime) -> Result<(), Fail> {
    let mut locker = UnSyncPhaseLocker::new(Phase::empty());
    assert_eq!(rt; number_of(locker.lock(&reads)), 1);
    assert_eq!(rt; number_of(locker.try_lock(&reads)), 1);
    assert_eq!(rt; number_of(locker.try_lock(&writes)), 0);
    assert_eq!(rt; number_of(locker.lock(&looks)), 3);
    close_read(&rt, &mut locker);
    assert_eq!(rt; number_of(locker.lock(&writes)), 0);
    close_read(&rt, &mut locker);
    assert_eq!(rt; number_of(locker.lock(&writes)), 2);
    Ok(())
}

#[test]
fn a_writer_publishes_and_reads_on(rt: HostRuntime) -> Result<(), Fail> {
    let mut locker = UnSyncPhaseLocker::new(Phase::empty());
    assert_eq!(rt; number_of(locker.lock(&writes)), 2);
    assert_eq!(rt; number_of(locker.lock(&reads)), 0);
    if !is_written(&locker) {
        rt.abort()
    }
    locker.free_write(WriteTicket::open(), Phase::INITIALIZED);
    assert_eq!(rt; UnSyncPhaseLocker::phase(&locker), Phase::INITIALIZED);
    assert_eq!(rt; number_of(locker.lock(&writes)), 2);
    if !is_written(&locker) {
        rt.abort()
    }
    let t = locker.turn_read(WriteTicket::open(), Phase::INITIALIZED_AND_REGISTERED);
    assert_eq!(rt;
        UnSyncPhaseLocker::phase(&locker),
        Phase::INITIALIZED_AND_REGISTERED
    );
    assert_eq!(rt; number_of(locker.lock(&writes)), 0);
    assert!(rt; is_read(&locker));
    locker.free_read(t);
    assert!(rt; !is_read(&locker));
    Ok(())
}
