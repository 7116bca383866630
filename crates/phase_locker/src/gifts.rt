//! How a lock is given back, and handed to the calls that are parked.

ghost use Rattle.std.specs.Prelude.{◌≡◌, ◌+◌, ◌-◌, ◌<◌, true, false, length};
ghost use Rattle.phase_bits.specs.Number.{IsKnown};
ghost use Rattle.phase_bits.specs.Records.{leave_read, leave_write};
ghost use Rattle.phase_locker.specs.Rows.{SameSize, IsSound};
ghost use Rattle.phase_locker.specs.Fits.{Fits, IsIdle, IsWriteOpen, ParkedOnPark, is_park, open_reads, flagged};
ghost use Rattle.phase_locker.specs.declared.ways.Given.TheVariants.{Nobody};
ghost use Rattle.phase_locker.specs.Gifts.{Hands, MayHand, MustHand, rows_handed, held_handed, Downgrades, StayFree, ReadersFirst};
ghost use Rattle.phase_locker.specs.Others.{RowsStay};
ghost use Rattle.phase_locker.specs.Left.{Left};

use crate::parks::Parks;
use crate::store::Store;
use crate::tickets::{ReadTicket, WriteTicket};
use crate::ways::{Given, LockerKind};
use phase_bits::Phase;

/// Whether the calls of this locker park.
fn calls_park<S: Store>(store: &S) -> bool
    ensures { result ≡ is_park (S.place store.now) }
{
    store.place() == LockerKind::Park
}

/// Sets the waiter flags to say which lists of the cell are not empty. Where calls do not park, it looks at no list.
pub(crate) fn flag<S: Store>(store: &mut S, parks: &Parks, cell: u32)
    requires cell { cell < length parks.now.readers }
    requires parked { ParkedOnPark (S.place store.old) parks.now cell }
    ensures kept { S.kept store.new ≡ flagged cell parks.now (S.kept store.old) }
    ensures place { S.place store.new ≡ S.place store.old }
    ensures sound { IsSound parks.now }
{
    parks.be_sound();
    if calls_park(store) {
        store.set_waiters(parks.has_readers(cell), parks.has_writers(cell));
        return;
    }
    store.set_waiters(false, false);
}

/// Gives the lock to the parked calls of the cell where no hold, share or claim is left.
pub(crate) fn hand_over<S: Store>(store: &mut S, parks: &mut Parks, cell: u32) -> Given
    requires cell { cell < length parks.old.readers }
    requires parked { ParkedOnPark (S.place store.old) parks.old cell }
    ensures hands { Hands cell (S.kept store.old) parks.old result (S.kept store.new) parks.new }
    ensures gives { ReadersFirst cell parks.old result }
    ensures place { S.place store.new ≡ S.place store.old }
    ensures free { StayFree parks.old parks.new }
    ensures sound { IsSound parks.old }
    ensures same { SameSize parks.old parks.new }
{
    if !calls_park(store) {
        flag(store, parks, cell);
        return Given::Nobody;
    }
    if store.is_locked() || store.has_readers() {
        flag(store, parks, cell);
        return Given::Nobody;
    }
    let given = give(store, parks, cell);
    flag(store, parks, cell);
    given
}

/// Gives the lock to all parked readers of the cell where there is one, else to the writer that has been parked for
/// longest. The waiter flags stay.
fn give<S: Store>(store: &mut S, parks: &mut Parks, cell: u32) -> Given
    requires cell { cell < length parks.old.readers }
    requires idle { IsIdle (S.kept store.old) }
    ensures may { MayHand cell (S.kept store.old) parks.old result }
    ensures must { MustHand cell (S.kept store.old) parks.old result }
    ensures gives { ReadersFirst cell parks.old result }
    ensures rows { parks.new ≡ rows_handed cell result parks.old }
    ensures kept { S.kept store.new ≡ held_handed cell result parks.old (S.kept store.old) }
    ensures place { S.place store.new ≡ S.place store.old }
    ensures free { StayFree parks.old parks.new }
    ensures sound { IsSound parks.old }
    ensures same { SameSize parks.old parks.new }
{
    if parks.has_readers(cell) {
        let count = parks.give_readers(cell);
        store.add_readers(count);
        return Given::Readers;
    }
    match parks.first_writer(cell) {
        Some(party) => {
            parks.give_writer(cell, party);
            store.set_locked(true);
            Given::Writer(party)
        }
        None => Given::Nobody,
    }
}

/// A read hold is given back.
pub(crate) fn release_read<S: Store>(
    store: &mut S,
    parks: &mut Parks,
    cell: u32,
    t: ReadTicket,
) -> Given
    requires cell { cell < length parks.old.readers }
    requires fits { Fits (S.place store.old) (S.kept store.old) parks.old cell }
    requires open { 0 < open_reads (S.kept store.old) parks.old cell }
    ensures hands { Hands cell (leave_read (S.kept store.old)) parks.old result (S.kept store.new) parks.new }
    ensures rows { RowsStay cell parks.old parks.new }
    ensures reads { open_reads (S.kept store.new) parks.new cell + 1 ≡ open_reads (S.kept store.old) parks.old cell }
    ensures closed { ¬ IsWriteOpen (S.kept store.new) parks.new cell }
    ensures left { Left S.kept S.place cell store.old store.new parks.old parks.new }
    ensures gives { ReadersFirst cell parks.old result }
{
    t.close();
    store.drop_reader();
    hand_over(store, parks, cell)
}

/// A write hold is given back, and the phase becomes this one.
pub(crate) fn release_write<S: Store>(
    store: &mut S,
    parks: &mut Parks,
    cell: u32,
    t: WriteTicket,
    phase: Phase,
) -> Given
    requires cell { cell < length parks.old.readers }
    requires known { IsKnown phase }
    requires fits { Fits (S.place store.old) (S.kept store.old) parks.old cell }
    requires open { IsWriteOpen (S.kept store.old) parks.old cell }
    ensures hands { Hands cell (leave_write phase (S.kept store.old)) parks.old result (S.kept store.new) parks.new }
    ensures rows { RowsStay cell parks.old parks.new }
    ensures reads { open_reads (S.kept store.new) parks.new cell ≡ 0 }
    ensures closed { ¬ IsWriteOpen (S.kept store.new) parks.new cell }
    ensures left { Left S.kept S.place cell store.old store.new parks.old parks.new }
    ensures gives { ReadersFirst cell parks.old result }
{
    t.close();
    store.store_phase(phase);
    store.set_locked(false);
    hand_over(store, parks, cell)
}

/// A write hold becomes a read hold, and the phase becomes this one. Nothing is given.
pub(crate) fn downgrade<S: Store>(
    store: &mut S,
    parks: &Parks,
    cell: u32,
    t: WriteTicket,
    phase: Phase,
) -> ReadTicket
    requires cell { cell < length parks.now.readers }
    requires known { IsKnown phase }
    requires fits { Fits (S.place store.old) (S.kept store.old) parks.now cell }
    requires open { IsWriteOpen (S.kept store.old) parks.now cell }
    ensures downgrades { Downgrades cell phase (S.kept store.old) parks.now Nobody (S.kept store.new) parks.now }
    ensures reads { open_reads (S.kept store.new) parks.now cell ≡ 1 }
    ensures closed { ¬ IsWriteOpen (S.kept store.new) parks.now cell }
    ensures left { Left S.kept S.place cell store.old store.new parks.now parks.now }
{
    t.close();
    store.store_phase(phase);
    store.set_locked(false);
    store.add_readers(1);
    flag(store, parks, cell);
    ReadTicket::open()
}
