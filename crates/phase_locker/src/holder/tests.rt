//! Calls of the locker that keeps the plain record, on cells that park and on cells that spin.

ghost use Rattle.std.specs.Prelude.{◌≡◌, ◌<◌, count_by, length, true};
ghost use Rattle.phase_bits.specs.Number.{IsKnown};
ghost use Rattle.phase_locker.specs.Rows.{row_of, shares_at, claims_at};
ghost use Rattle.phase_locker.specs.Fits.{Fits, KeepsFit, IsWriteOpen, open_reads};

use crate::holder::HolderLocker;
use crate::locker::PhaseLocker;
use crate::parks::Parks;
use crate::tickets::{Attempt, LockNature, LockResult, ReadTicket, WriteTicket};
use crate::ways::{Given, How, LockerKind, Row, Waiting, Who};
use phase_bits::{MOST_READERS, Phase};
use std::process::Abort;
use std::test::Fail;

/// How many rows of the cell have a read share.
fn count_shares(rows: &[Row], cell: u32) -> usize
    ensures { result ≡ count_by (shares_at cell) rows.now }
{
    rows.iter()
        .filter(|row| row.waiting == Waiting::ShareRead && row.cell == cell)
        .count()
}

/// How many rows of the cell are a drain or a write share.
fn count_claims(rows: &[Row], cell: u32) -> usize
    ensures { result ≡ count_by (claims_at cell) rows.now }
{
    rows.iter()
        .filter(|row| {
            (row.waiting == Waiting::Drain || row.waiting == Waiting::ShareWrite)
                && row.cell == cell
        })
        .count()
}

/// Whether a read lock is open.
fn is_read_open(locker: &HolderLocker, parks: &Parks, cell: u32) -> bool
    ensures { result ≡ true → 0 < open_reads locker.now.holders parks.now cell }
{
    locker.holders.readers as usize > count_shares(parks.rows(), cell)
}

/// Whether a write lock is open.
fn is_write_open(locker: &HolderLocker, parks: &Parks, cell: u32) -> bool
    ensures { result ≡ true → IsWriteOpen locker.now.holders parks.now cell }
{
    locker.holders.locked && count_claims(parks.rows(), cell) == 0
}

/// A rule that wants to read, whatever the phase.
fn reads(_phase: Phase) -> LockNature
    ensures { result ≡ LockNature.Read }
{
    LockNature::Read
}

/// A rule that wants to write, whatever the phase.
fn writes(_phase: Phase) -> LockNature
    ensures { result ≡ LockNature.Write }
{
    LockNature::Write
}

/// The write lock that a call got. The process ends where it got none.
fn written(rt: &impl Abort, attempt: Attempt) -> WriteTicket {
    match attempt {
        Attempt::Got(LockResult::Write(t)) => t,
        Attempt::Got(LockResult::Read(t)) => {
            t.close();
            rt.abort()
        }
        Attempt::Got(LockResult::None(_)) => rt.abort(),
        Attempt::Wait(_) => rt.abort(),
    }
}

/// The read lock that a call got. The process ends where it got none.
fn read(rt: &impl Abort, attempt: Attempt) -> ReadTicket {
    match attempt {
        Attempt::Got(LockResult::Read(t)) => t,
        Attempt::Got(LockResult::Write(t)) => {
            t.close();
            rt.abort()
        }
        Attempt::Got(LockResult::None(_)) => rt.abort(),
        Attempt::Wait(_) => rt.abort(),
    }
}

/// How a call waits. The process ends where it does not.
fn waited(rt: &impl Abort, attempt: Attempt) -> How {
    match attempt {
        Attempt::Wait(how) => how,
        Attempt::Got(LockResult::Read(t)) => {
            t.close();
            rt.abort()
        }
        Attempt::Got(LockResult::Write(t)) => {
            t.close();
            rt.abort()
        }
        Attempt::Got(LockResult::None(_)) => rt.abort(),
    }
}

/// Whether a call that does not wait got nothing.
fn missed(got: Option<LockResult<ReadTicket, WriteTicket>>) -> bool {
    match got {
        Some(LockResult::Read(t)) => {
            t.close();
            false
        }
        Some(LockResult::Write(t)) => {
            t.close();
            false
        }
        Some(LockResult::None(_)) => false,
        None => true,
    }
}

/// Whether a clone was made.
fn cloned(got: Option<ReadTicket>) -> bool {
    match got {
        Some(t) => {
            t.close();
            true
        }
        None => false,
    }
}

/// Clones the only read lock up to the limit of the readers, and keeps the tickets. The process ends where it cannot.
fn clone_all(
    rt: &impl Abort,
    locker: &mut HolderLocker,
    tickets: &mut Vec<ReadTicket>,
    first: &ReadTicket,
)
    ensures fits { KeepsFit locker.old.kind locker.old.holders locker.new.holders }
    ensures kind { locker.new.kind ≡ locker.old.kind }
{
    for n in 1..MOST_READERS {
        if locker.holders.readers != n || tickets.len() >= tickets.capacity() {
            rt.abort()
        }
        match locker.clone_read(first) {
            Some(t) => tickets.push_reserved(t),
            None => rt.abort(),
        }
    }
}

/// Whether a lock of these can be cloned. Closes all of them.
fn clones_and_closes(locker: &mut HolderLocker, mut tickets: Vec<ReadTicket>) -> bool {
    let mut is_cloned = false;
    while let Some(t) = tickets.pop() {
        if locker.holders.readers > 0 && !is_cloned {
            is_cloned = cloned(locker.clone_read(&t));
        }
        t.close();
    }
    tickets.destroy_empty();
    is_cloned
}

/// A party at the first cell.
fn party(party: u32) -> Who
    ensures { result ≡ record { cell = 0; party = party } }
{
    Who { cell: 0, party }
}

/// A call of a party that does not wait, at the first cell. The process ends where there is no such party.
fn lock(
    rt: &impl Abort,
    locker: &mut HolderLocker,
    parks: &mut Parks,
    caller: u32,
    wake: LockNature,
) -> Attempt
    requires { Fits locker.old.kind locker.old.holders parks.old 0 }
    ensures { Fits locker.new.kind locker.new.holders parks.new 0 }
{
    if waiting(rt, parks, caller) != Waiting::Free || parks.cells() == 0 {
        rt.abort()
    }
    let attempt = match wake {
        LockNature::Read => locker.lock(parks, party(caller), LockNature::Read, &reads),
        LockNature::Write => locker.lock(parks, party(caller), LockNature::Write, &writes),
        LockNature::None => rt.abort(),
    };
    attempt.0
}

/// A call of a party that waits at the first cell. The process ends where there is no such party.
fn again(
    rt: &impl Abort,
    locker: &mut HolderLocker,
    parks: &mut Parks,
    caller: u32,
    wake: LockNature,
) -> Attempt
    requires { Fits locker.old.kind locker.old.holders parks.old 0 }
    ensures { Fits locker.new.kind locker.new.holders parks.new 0 }
{
    if waiting(rt, parks, caller) == Waiting::Free || parks.cells() == 0 {
        rt.abort()
    }
    if parks.cell_of(caller) != 0 {
        rt.abort()
    }
    let attempt = match wake {
        LockNature::Read => locker.again(parks, party(caller), LockNature::Read, &reads),
        LockNature::Write => locker.again(parks, party(caller), LockNature::Write, &writes),
        LockNature::None => rt.abort(),
    };
    attempt.0
}

/// How this party waits. The process ends where there is no such party.
fn waiting(rt: &impl Abort, parks: &Parks, party: u32) -> Waiting
    ensures inside { party < length parks.now.rows }
    ensures waiting { result ≡ (row_of parks.now party).waiting }
{
    if party as usize >= parks.rows().len() {
        rt.abort()
    }
    parks.waiting(party)
}

/// A read lock of the first cell is given back. The process ends where none is open.
fn release_read(
    rt: &impl Abort,
    locker: &mut HolderLocker,
    parks: &mut Parks,
    t: ReadTicket,
) -> Given
    requires { Fits locker.old.kind locker.old.holders parks.old 0 }
    ensures { Fits locker.new.kind locker.new.holders parks.new 0 }
{
    if parks.cells() == 0 || !is_read_open(locker, parks, 0) {
        rt.abort()
    }
    locker.release_read(parks, 0, t)
}

/// The write lock of the first cell is given back. The process ends where none is open.
fn release_write(
    rt: &impl Abort,
    locker: &mut HolderLocker,
    parks: &mut Parks,
    t: WriteTicket,
    phase: Phase,
) -> Given
    requires known { IsKnown phase }
    requires fits { Fits locker.old.kind locker.old.holders parks.old 0 }
    ensures { Fits locker.new.kind locker.new.holders parks.new 0 }
{
    if parks.cells() == 0 || !is_write_open(locker, parks, 0) {
        rt.abort()
    }
    locker.release_write(parks, 0, t, phase)
}

/// The write lock of the first cell becomes a read lock, and gives nothing. The process ends where none is open, or where
/// party 0 waits.
fn downgrade(
    rt: &impl Abort,
    locker: &mut HolderLocker,
    parks: &mut Parks,
    t: WriteTicket,
    phase: Phase,
) -> ReadTicket
    requires known { IsKnown phase }
    requires fits { Fits locker.old.kind locker.old.holders parks.old 0 }
    ensures { Fits locker.new.kind locker.new.holders parks.new 0 }
{
    if parks.cells() == 0 || !is_write_open(locker, parks, 0) {
        rt.abort()
    }
    if waiting(rt, parks, 0) != Waiting::Free {
        rt.abort()
    }
    let (read, given) = locker.downgrade(parks, 0, t, phase);
    if given != Given::Nobody {
        rt.abort()
    }
    read
}

#[test]
fn a_lock_is_handed_over_where_calls_park(rt: HostRuntime) -> Result<(), Fail> {
    let mut parks = Parks::new(rt.alloc(), 1, 3)?;
    let mut locker = HolderLocker::new(LockerKind::Park, Phase::empty());
    let attempt = lock(&rt, &mut locker, &mut parks, 0, LockNature::Write);
    let first = written(&rt, attempt);
    let attempt = lock(&rt, &mut locker, &mut parks, 1, LockNature::Write);
    assert_eq!(rt; waited(&rt, attempt), How::ParkedWrite);
    let attempt = lock(&rt, &mut locker, &mut parks, 2, LockNature::Read);
    assert_eq!(rt; waited(&rt, attempt), How::ParkedRead);
    let given = release_write(&rt, &mut locker, &mut parks, first, Phase::INITIALIZED);
    assert_eq!(rt; given, Given::Readers);
    assert_eq!(rt; locker.phase(), Phase::INITIALIZED);
    assert_eq!(rt; waiting(&rt, &parks, 2), Waiting::ShareRead);
    let attempt = again(&rt, &mut locker, &mut parks, 2, LockNature::Read);
    let second = read(&rt, attempt);
    let given = release_read(&rt, &mut locker, &mut parks, second);
    assert_eq!(rt; given, Given::Writer(1));
    assert_eq!(rt; waiting(&rt, &parks, 1), Waiting::ShareWrite);
    let attempt = again(&rt, &mut locker, &mut parks, 1, LockNature::Write);
    let third = written(&rt, attempt);
    assert_eq!(rt; waiting(&rt, &parks, 1), Waiting::Free);
    let fourth = downgrade(&rt, &mut locker, &mut parks, third, Phase::REGISTERED);
    let given = release_read(&rt, &mut locker, &mut parks, fourth);
    assert_eq!(rt; given, Given::Nobody);
    assert_eq!(rt; locker.phase(), Phase::REGISTERED);
    Ok(())
}

#[test]
fn a_barred_call_asks_again_where_calls_spin(rt: HostRuntime) -> Result<(), Fail> {
    let mut parks = Parks::new(rt.alloc(), 1, 2)?;
    let mut locker = HolderLocker::new(LockerKind::Spin, Phase::empty());
    let first = locker.lock_mut();
    let attempt = lock(&rt, &mut locker, &mut parks, 1, LockNature::Read);
    assert_eq!(rt; waited(&rt, attempt), How::Spin);
    assert!(rt; missed(locker.try_lock(&writes)));
    let attempt = again(&rt, &mut locker, &mut parks, 1, LockNature::Read);
    assert_eq!(rt; waited(&rt, attempt), How::Spin);
    let given = release_write(&rt, &mut locker, &mut parks, first, Phase::INITIALIZED);
    assert_eq!(rt; given, Given::Nobody);
    assert_eq!(rt; waiting(&rt, &parks, 1), Waiting::Spin);
    let attempt = again(&rt, &mut locker, &mut parks, 1, LockNature::Read);
    let second = read(&rt, attempt);
    let given = release_read(&rt, &mut locker, &mut parks, second);
    assert_eq!(rt; given, Given::Nobody);
    assert!(rt; !locker.holders.locked && locker.holders.readers == 0);
    locker.set_phase(Phase::FINALIZED);
    assert_eq!(rt; locker.get_phase_unique(), Phase::FINALIZED);
    Ok(())
}

#[test]
fn readers_have_a_limit(rt: HostRuntime) -> Result<(), Fail> {
    let mut parks = Parks::new(rt.alloc(), 1, 1)?;
    let mut tickets: Vec<ReadTicket> = Vec::with_capacity(rt.alloc(), MOST_READERS as usize)?;
    let mut locker = HolderLocker::new(LockerKind::Park, Phase::empty());
    let (attempt, _) = locker.lock(&mut parks, party(0), LockNature::Read, &reads);
    let first = read(&rt, attempt);
    clone_all(&rt, &mut locker, &mut tickets, &first);
    assert_eq!(rt; tickets.len(), 1_048_574);
    assert!(rt; locker.holders.readers > 0);
    assert!(rt; !cloned(locker.clone_read(&first)));
    assert!(rt; missed(locker.try_lock(&reads)));
    assert!(rt; is_read_open(&locker, &parks, 0));
    assert_eq!(rt; locker.release_read(&mut parks, 0, first), Given::Nobody);
    assert!(rt; clones_and_closes(&mut locker, tickets));
    Ok(())
}
