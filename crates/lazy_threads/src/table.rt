//! The lock word of one cell, and the steps on it.
//!
//! The word says the record of the cell's holders (`phase_bits`): the phase, how many hold the cell to read, and whether one
//! holds it to write. It spins: both waiter flags stay clear.
//!  1. To enter, a seat loads the word and judges it; where it bars nothing, one exchange makes the word that admits the
//!     seat, and it succeeds only where the word is still the one that was judged. A seat that wants to write may exchange
//!     at once: it expects the phase that it found last, and no holder.
//!  2. A reader adds READER_UNITY, where the word is not locked and has fewer than 2^20 - 1 readers.
//!  3. A writer sets LOCKED_BIT, where the word is not locked and has no reader. From then on nobody else changes the word.
//!  4. A reader leaves by taking READER_UNITY away, whatever the others do.
//!  5. A writer leaves by putting the new phase for the whole word, or that phase with one reader, which is itself.
//! Each step is one atomic instruction, and all are sequentially consistent: the kit's table has no weaker ones, and its
//! contract, that the steps have one order in which the rule holds between any two, is what the proofs rest on. So what a
//! seat does under its hold comes after the exchange that got it and before the step that gives it back.

ghost use Rattle.std.specs.Prelude.{◌≡◌, IfOk, false, max};

use crate::rule::{
    Downgrade, EnterRead, EnterWrite, JoinSeats, LeaveRead, LeaveWrite, Load, LookWrite, SplitSeat,
    WordRule,
};
use crate::seat::CellSeat;
use crate::view::View;
use atomic_table::Table;
use phase_bits::{LOCKED_BIT, Phase, READER_UNITY};
use phase_locker::LockNature;
use std::alloc::{AllocError, Global};

/// One reader, in a word of 64 bits.
const ONE_READER: u64 = READER_UNITY as u64;
/// The lock bit, in a word of 64 bits.
const LOCKED: u64 = LOCKED_BIT as u64;

/// The lock word of one cell, which threads share by reference. Each of them steps with a seat of its own.
///
/// Each call has the condition that its seats are of this table. No call but `new` takes memory, and none but `enter`
/// tries again.
#[derive(Drop)]
pub struct SyncTable {
    pub(crate) words: Table<(), View, (), WordRule, Global>,
    ghost one_word: { words.shared.table_id.words ≡ 1 },
}

impl SyncTable {
    ghost use Rattle.phase_bits.specs.Word.{unpacked};
    ghost use Rattle.phase_locker.specs.Natures.{bars};
    ghost use Rattle.lazy_threads.specs.Calls.{LeavesRead, LeavesWrite, Downgrades, MayPublish};
    ghost use Rattle.lazy_threads.specs.Rule.{IsCellWord, Finds};
    ghost use Rattle.lazy_threads.specs.Seats.{IsSeatOf, IsSameSeat, Counts, SameCounts, view_of, counted, added};
    ghost use Rattle.lazy_threads.specs.Views.{fresh, loaded, exchanged, entered_read, entered_write, looked_write, split_off, joined};
    ghost use Rattle.lazy_threads.specs.declared.view.Hold.TheVariants as hold;

    /// A word with the empty phase and no holder, and the first seat. The other seats are split off it.
    pub fn new(alloc: Global) -> Result<(SyncTable, CellSeat), AllocError>
        ensures table { IfOk result (λ made. IsSeatOf made.0 made.1) }
        ensures view { IfOk result (λ made. view_of made.1 ≡ fresh) }
        ensures counts { IfOk result (λ made. Counts 0 0 made.1) }
    {
        let (words, token) = Table::<(), View, (), WordRule, Global>::of_words(alloc, &[0], &())?;
        let seat = CellSeat {
            token,
            last: 0,
            trail_seen: 0,
            recorded: 0,
        };
        Ok((SyncTable { words }, seat))
    }

    /// Load: a look at the word, which changes nothing.
    #[inline(always)]
    pub(crate) fn load(&self, seat: &mut CellSeat) -> u64
        requires { IsSeatOf self.now seat.old }
        ensures seat { IsSameSeat seat.old seat.new }
        ensures counts { SameCounts seat.old seat.new }
        ensures view { view_of seat.new ≡ loaded result (view_of seat.old) }
        ensures finds { Finds result (view_of seat.old) }
    {
        let found = self.words.shared.load::<Load>(&mut seat.token, 0);
        seat.last = found;
        found
    }

    /// Read enter: one more reader, by an exchange. Where it finds another word than the one that was judged, it is a load.
    #[inline(always)]
    pub(crate) fn enter_read(&self, seat: &mut CellSeat, judged: u64) -> u64
        requires table { IsSeatOf self.now seat.old }
        requires hold { (view_of seat.old).hold ≡ hold.Free }
        requires free { bars (unpacked judged) LockNature.Read ≡ false }
        requires word { IsCellWord judged }
        ensures seat { IsSameSeat seat.old seat.new }
        ensures counts { SameCounts seat.old seat.new }
        ensures view { view_of seat.new ≡ exchanged entered_read judged result (view_of seat.old) }
        ensures finds { Finds result (view_of seat.old) }
    {
        let admitted = judged + ONE_READER;
        let found = self
            .words
            .shared
            .compare_exchange::<EnterRead>(&mut seat.token, 0, judged, admitted);
        if found != judged {
            seat.last = found;
        }
        found
    }

    /// Write enter: the lock bit, by an exchange. Where it finds another word than the one that was judged, it is a load.
    #[inline(always)]
    pub(crate) fn enter_write(&self, seat: &mut CellSeat, judged: u64) -> u64
        requires table { IsSeatOf self.now seat.old }
        requires hold { (view_of seat.old).hold ≡ hold.Free }
        requires free { bars (unpacked judged) LockNature.Write ≡ false }
        requires word { IsCellWord judged }
        ensures seat { IsSameSeat seat.old seat.new }
        ensures counts { SameCounts seat.old seat.new }
        ensures view { view_of seat.new ≡ exchanged entered_write judged result (view_of seat.old) }
        ensures finds { Finds result (view_of seat.old) }
    {
        let admitted = judged + LOCKED;
        let found = self
            .words
            .shared
            .compare_exchange::<EnterWrite>(&mut seat.token, 0, judged, admitted);
        if found != judged {
            seat.last = found;
        }
        found
    }

    /// Write enter at once: the lock bit, by an exchange that no load came before. It is the load too, whatever it finds.
    #[inline(always)]
    pub(crate) fn look_write(&self, seat: &mut CellSeat, expected: u64) -> u64
        requires table { IsSeatOf self.now seat.old }
        requires hold { (view_of seat.old).hold ≡ hold.Free }
        requires free { bars (unpacked expected) LockNature.Write ≡ false }
        ensures seat { IsSameSeat seat.old seat.new }
        ensures counts { SameCounts seat.old seat.new }
        ensures view { view_of seat.new ≡ exchanged looked_write expected result (view_of seat.old) }
        ensures finds { Finds result (view_of seat.old) }
    {
        let admitted = expected + LOCKED;
        let found = self
            .words
            .shared
            .compare_exchange::<LookWrite>(&mut seat.token, 0, expected, admitted);
        seat.last = found;
        found
    }

    /// Read leave: gives a read hold back, by a subtraction that needs no look. The seat was told of a trail of length `seen`.
    #[inline(always)]
    pub fn leave_read(&self, seat: &mut CellSeat, seen: u64)
        requires table { IsSeatOf self.now seat.old }
        requires hold { (view_of seat.old).hold ≡ hold.Read }
        ensures seat { IsSameSeat seat.old seat.new }
        ensures leaves { LeavesRead (view_of seat.old) (view_of seat.new) }
        ensures counts { Counts (max seat.old.trail_seen seen) seat.old.recorded seat.new }
    {
        self.words
            .shared
            .fetch_sub::<LeaveRead>(&mut seat.token, 0, ONE_READER);
        seat.told(seen);
    }

    /// Write leave: gives a write hold back and publishes this phase. It is a swap, and no store, for the proof's sake: the
    /// step then knows the word that it found.
    #[inline(always)]
    pub fn leave_write(&self, seat: &mut CellSeat, phase: Phase, recorded: bool, seen: u64)
        requires table { IsSeatOf self.now seat.old }
        requires hold { (view_of seat.old).hold ≡ hold.Write }
        requires phase { MayPublish phase (view_of seat.old) }
        ensures seat { IsSameSeat seat.old seat.new }
        ensures leaves { LeavesWrite phase (view_of seat.old) (view_of seat.new) }
        ensures counts { Counts (max seat.old.trail_seen seen) (counted recorded seat.old.recorded) seat.new }
    {
        let word = phase.bits() as u64;
        self.words
            .shared
            .swap::<LeaveWrite>(&mut seat.token, 0, word);
        seat.told(seen);
        seat.count(recorded);
    }

    /// Downgrade: makes a write hold a read hold and publishes this phase, by a swap.
    #[inline(always)]
    pub fn downgrade(&self, seat: &mut CellSeat, phase: Phase, recorded: bool, seen: u64)
        requires table { IsSeatOf self.now seat.old }
        requires hold { (view_of seat.old).hold ≡ hold.Write }
        requires phase { MayPublish phase (view_of seat.old) }
        ensures seat { IsSameSeat seat.old seat.new }
        ensures downgrades { Downgrades phase (view_of seat.old) (view_of seat.new) }
        ensures counts { Counts (max seat.old.trail_seen seen) (counted recorded seat.old.recorded) seat.new }
    {
        let word = phase.bits() as u64 + ONE_READER;
        self.words
            .shared
            .swap::<Downgrade>(&mut seat.token, 0, word);
        seat.told(seen);
        seat.count(recorded);
    }

    /// Seat split: a new seat that has seen as much as this one, and has no hold. The word is read and left.
    pub fn split(&self, seat: &mut CellSeat) -> CellSeat
        requires { IsSeatOf self.now seat.old }
        ensures seat { IsSameSeat seat.old seat.new }
        ensures view { view_of seat.new ≡ view_of seat.old }
        ensures counts { SameCounts seat.old seat.new }
        ensures table { IsSeatOf self.now result }
        ensures new_view { view_of result ≡ split_off (view_of seat.old) }
        ensures new_counts { Counts seat.old.trail_seen 0 result }
    {
        CellSeat {
            token: self.words.shared.split_seat::<SplitSeat>(&mut seat.token),
            last: 0,
            trail_seen: seat.trail_seen,
            recorded: 0,
        }
    }

    /// Seat join: this seat has seen what both had seen, and the other, which has no hold, is spent. Their recorded sections
    /// add up. The word is read and left.
    pub fn join(&self, seat: &mut CellSeat, other: CellSeat)
        requires table { IsSeatOf self.now seat.old }
        requires other { IsSeatOf self.now other }
        requires hold { (view_of other).hold ≡ hold.Free }
        ensures seat { IsSameSeat seat.old seat.new }
        ensures view { view_of seat.new ≡ joined (view_of seat.old) (view_of other) }
        ensures counts { Counts (max seat.old.trail_seen other.trail_seen) (added seat.old.recorded other.recorded) seat.new }
    {
        let CellSeat {
            token,
            last: _,
            trail_seen,
            recorded,
        } = other;
        self.words
            .shared
            .join_seat::<JoinSeats>(&mut seat.token, token);
        seat.told(trail_seen);
        seat.recorded = seat.recorded.saturating_add(recorded);
    }
}
