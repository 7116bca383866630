//! The calls that ask for a lock.

ghost use Rattle.std.specs.Prelude.{◌≡◌, ◌≢◌, ◌==◌, ◌+◌, ◌-◌, ◌<◌, ◌↔◌, IsNone, OnSome, true, false, length};
ghost use Rattle.phase_bits.specs.Number.{IsKnown};
ghost use Rattle.phase_bits.specs.Records.{IsValid, admit_read, most_readers};
ghost use Rattle.phase_locker.specs.declared.ways.Waiting.TheVariants.{Free};
ghost use Rattle.phase_locker.specs.declared.ways.Given.TheVariants.{Nobody};
ghost use Rattle.phase_locker.specs.Natures.{MayJudge, bars, admitted, got, Tries};
ghost use Rattle.phase_locker.specs.Rows.{row_of, freed, SameSize};
ghost use Rattle.phase_locker.specs.Fits.{Fits, KeepsFit, ParkedOnPark};
ghost use Rattle.phase_locker.specs.Gifts.{ReadersFirst};
ghost use Rattle.phase_locker.specs.Attempts.{ParksBy, rows_waiting, Judged, Locks, spins_on, keeps, given_up, Keeps, Again, NeverDrains, WaitsBy};
ghost use Rattle.phase_locker.specs.Others.{RowsStayBeside};
ghost use Rattle.phase_locker.specs.Stands.{MayCall, MayCallAgain, Stands, Opens, reads_opened, opens_write};
ghost use Rattle.phase_locker.specs.Left.{Left};

use crate::gifts::{flag, hand_over};
use crate::parks::Parks;
use crate::store::Store;
use crate::tickets::{Attempt, LockNature, LockResult, ReadTicket, WriteTicket};
use crate::ways::{Given, How, LockerKind, Waiting, Who};
use phase_bits::Phase;

/// A call of a party that does not wait.
#[inline(always)]
pub(crate) fn lock<S: Store, F: Fn(Phase) -> LockNature>(
    store: &mut S,
    parks: &mut Parks,
    who: Who,
    wake: LockNature,
    how: &F,
) -> (Attempt, Given)
    requires calls { MayCall who parks.old }
    requires wake { wake ≢ LockNature.None }
    requires callable { MayJudge (F.pre how.now) }
    requires fits { Fits (S.place store.old) (S.kept store.old) parks.old who.cell }
    ensures locks { Locks (F.post how.now) (S.place store.old) who wake (S.kept store.old) parks.old result (S.kept store.new) parks.new }
    ensures rows { RowsStayBeside who.party who.cell parks.old parks.new }
    ensures stands { Stands who result.0 (S.kept store.new) parks.new }
    ensures opens { Opens who.cell (reads_opened result.0) (opens_write result.0) (S.kept store.old) parks.old (S.kept store.new) parks.new }
    ensures left { Left S.kept S.place who.cell store.old store.new parks.old parks.new }
    ensures waits { WaitsBy NeverDrains result.0 }
{
    let nature = how(store.stored_phase());
    (judge(store, parks, who, wake, nature, true), Given::Nobody)
}

/// A call of a party that waits at this cell.
#[inline(always)]
pub(crate) fn again<S: Store, F: Fn(Phase) -> LockNature>(
    store: &mut S,
    parks: &mut Parks,
    who: Who,
    wake: LockNature,
    how: &F,
) -> (Attempt, Given)
    requires calls { MayCallAgain who parks.old }
    requires wake { wake ≢ LockNature.None }
    requires callable { MayJudge (F.pre how.now) }
    requires fits { Fits (S.place store.old) (S.kept store.old) parks.old who.cell }
    ensures again { Again (F.post how.now) (S.place store.old) who wake (S.kept store.old) parks.old result (S.kept store.new) parks.new }
    ensures rows { RowsStayBeside who.party who.cell parks.old parks.new }
    ensures stands { Stands who result.0 (S.kept store.new) parks.new }
    ensures opens { Opens who.cell (reads_opened result.0) (opens_write result.0) (S.kept store.old) parks.old (S.kept store.new) parks.new }
    ensures left { Left S.kept S.place who.cell store.old store.new parks.old parks.new }
    ensures waits { WaitsBy NeverDrains result.0 }
    ensures gives { ReadersFirst who.cell (freed who.party parks.old) result.1 }
{
    let nature = how(store.stored_phase());
    let waiting = parks.waiting(who.party);
    if spins_on(store, waiting, nature) {
        return (Attempt::Wait(How::Spin), Given::Nobody);
    }
    if keeps(store, waiting, nature) {
        return (keep(store, parks, who, nature), Given::Nobody);
    }
    give_up(store, parks, who.party, waiting);
    let given = hand_over(store, parks, who.cell);
    let fresh = waiting != Waiting::Drain;
    (judge(store, parks, who, wake, nature, fresh), given)
}

/// Takes a lock where the nature that the rule gives is not barred.
pub(crate) fn try_lock<S: Store, F: Fn(Phase) -> LockNature>(
    store: &mut S,
    how: &F,
) -> Option<LockResult<ReadTicket, WriteTicket>>
    requires callable { MayJudge (F.pre how.now) }
    ensures tries { Tries (F.post how.now) (S.kept store.old) result (S.kept store.new) }
    ensures fits { KeepsFit (S.place store.old) (S.kept store.old) (S.kept store.new) }
    ensures place { S.place store.new ≡ S.place store.old }
{
    let nature = how(store.stored_phase());
    if store.bars(nature) {
        return None;
    }
    Some(admit(store, nature))
}

/// Another read lock beside an open one.
pub(crate) fn clone_read<S: Store>(store: &mut S) -> Option<ReadTicket>
    requires { 0 < (S.kept store.old).readers }
    ensures most { IsNone result ↔ ((S.kept store.old).readers ≡ most_readers) }
    ensures some { OnSome result (S.kept store.new ≡ admit_read (S.kept store.old)) }
    ensures none { IsNone result → S.kept store.new ≡ S.kept store.old }
    ensures fits { KeepsFit (S.place store.old) (S.kept store.old) (S.kept store.new) }
    ensures place { S.place store.new ≡ S.place store.old }
{
    if store.bars(LockNature::Read) {
        return None;
    }
    store.add_readers(1);
    Some(ReadTicket::open())
}

/// Judges a call of a party that does not wait: it gets what it wants, or waits.
#[inline(always)]
fn judge<S: Store>(
    store: &mut S,
    parks: &mut Parks,
    who: Who,
    wake: LockNature,
    nature: LockNature,
    fresh: bool,
) -> Attempt
    requires calls { MayCall who parks.old }
    requires wake { wake ≢ LockNature.None }
    requires parked { ParkedOnPark (S.place store.old) parks.old who.cell }
    ensures judged { Judged (S.place store.old) fresh who wake nature (S.kept store.old) parks.old result (S.kept store.new) parks.new }
    ensures waits { WaitsBy NeverDrains result }
    ensures known { IsKnown (S.kept store.old).phase }
    ensures place { S.place store.new ≡ S.place store.old }
    ensures same { SameSize parks.old parks.new }
{
    if store.bars(nature) {
        let way = wait(store, parks, who, wake);
        flag(store, parks, who.cell);
        return Attempt::Wait(way);
    }
    let got = admit(store, nature);
    flag(store, parks, who.cell);
    Attempt::Got(got)
}

/// Admits a call that is not barred.
fn admit<S: Store>(store: &mut S, nature: LockNature) -> LockResult<ReadTicket, WriteTicket>
    requires admitted { bars (S.kept store.old) nature ≡ false }
    requires valid { IsValid (S.kept store.old) }
    ensures got { result ≡ got nature (S.kept store.old).phase }
    ensures kept { S.kept store.new ≡ admitted (S.kept store.old) nature }
    ensures place { S.place store.new ≡ S.place store.old }
{
    match nature {
        LockNature::Read => {
            store.add_readers(1);
            LockResult::Read(ReadTicket::open())
        }
        LockNature::Write => {
            store.set_locked(true);
            LockResult::Write(WriteTicket::open())
        }
        LockNature::None => LockResult::None(store.stored_phase()),
    }
}

/// A barred call waits, where it parks by its waking nature.
fn wait<S: Store>(store: &S, parks: &mut Parks, who: Who, wake: LockNature) -> How
    requires calls { MayCall who parks.old }
    requires wake { wake ≢ LockNature.None }
    ensures may { ParksBy (S.place store.now) wake result }
    ensures rows { parks.new ≡ rows_waiting result who parks.old }
    ensures same { SameSize parks.old parks.new }
{
    if store.place() != LockerKind::Park {
        parks.put(Waiting::Spin, who.cell, who.party);
        return How::Spin;
    }
    if wake == LockNature::Write {
        parks.park_writer(who.cell, who.party);
        How::ParkedWrite
    } else {
        parks.park_reader(who.cell, who.party);
        How::ParkedRead
    }
}

/// Whether a call that waits so spins on: its row and the record stay as they are, so that it need not leave and come back.
#[inline(always)]
fn spins_on<S: Store>(store: &S, waiting: Waiting, nature: LockNature) -> bool
    ensures { result ≡ spins_on (S.place store.now) waiting nature (S.kept store.now) }
{
    match waiting {
        Waiting::Spin => store.place() != LockerKind::Park && store.bars(nature),
        _ => false,
    }
}

/// Whether a call that waits so keeps what it has.
fn keeps<S: Store>(store: &S, waiting: Waiting, nature: LockNature) -> bool
    ensures { result ≡ keeps waiting nature (S.kept store.now) }
{
    match (waiting, nature) {
        (Waiting::ShareRead, LockNature::Read) => true,
        (Waiting::ShareWrite, LockNature::Write) => true,
        (Waiting::Drain, LockNature::Write) => !store.has_readers(),
        _ => false,
    }
}

/// A call keeps what it has, and gets what it wants.
fn keep<S: Store>(store: &mut S, parks: &mut Parks, who: Who, nature: LockNature) -> Attempt
    requires cell { who.cell < length parks.old.readers }
    requires party { who.party < length parks.old.rows }
    requires here { (row_of parks.old who.party).cell ≡ who.cell }
    requires fits { Fits (S.place store.old) (S.kept store.old) parks.old who.cell }
    requires keeps { keeps (row_of parks.old who.party).waiting nature (S.kept store.old) ≡ true }
    ensures fits { Fits (S.place store.new) (S.kept store.new) parks.new who.cell }
    ensures keeps { Keeps who nature (S.kept store.old) parks.old (result, Nobody) (S.kept store.new) parks.new }
    ensures place { S.place store.new ≡ S.place store.old }
    ensures same { SameSize parks.old parks.new }
{
    parks.free(who.party);
    flag(store, parks, who.cell);
    match nature {
        LockNature::Read => Attempt::Got(LockResult::Read(ReadTicket::open())),
        LockNature::Write => Attempt::Got(LockResult::Write(WriteTicket::open())),
        LockNature::None => Attempt::Got(LockResult::None(store.stored_phase())),
    }
}

/// A party that waits so gives up the lock that it has, and waits no longer.
fn give_up<S: Store>(store: &mut S, parks: &mut Parks, party: u32, waiting: Waiting)
    requires party { party < length parks.old.rows }
    requires reader { waiting ≡ Waiting.ShareRead → 0 < (S.kept store.old).readers }
    ensures kept { S.kept store.new ≡ given_up waiting (S.kept store.old) }
    ensures place { S.place store.new ≡ S.place store.old }
    ensures rows { parks.new ≡ freed party parks.old }
{
    parks.free(party);
    match waiting {
        Waiting::ShareRead => store.drop_reader(),
        Waiting::ShareWrite | Waiting::Drain => store.set_locked(false),
        _ => {}
    }
}
