//! The calls that judge the word: each is one load, and at most one exchange an attempt.

ghost use Rattle.std.specs.Prelude.{◌≡◌, IfSome, IfNone, false};
ghost use Rattle.std.specs.Bool.{OnTrue, OnFalse};
ghost use Rattle.phase_bits.specs.Word.{unpacked};
ghost use Rattle.phase_locker.specs.Natures.{bars};
ghost use Rattle.lazy_threads.specs.Calls.{phase_got, Looks, Enters, Gets, Misses, Waits, Clones, MissesClone, TellsPhase};
ghost use Rattle.lazy_threads.specs.Rule.{IsCellWord};
ghost use Rattle.lazy_threads.specs.Seats.{IsSeatOf, IsSameSeat, SameCounts, view_of};
ghost use Rattle.lazy_threads.specs.Views.{loaded};
ghost use Rattle.lazy_threads.specs.declared.view.Hold.TheVariants as hold;

use crate::seat::{CellSeat, phase_of_word};
use crate::spin_wait::SpinWait;
use crate::table::SyncTable;
use phase_bits::{Phase, READER_BITS, READER_UNITY};
use phase_locker::{LockNature, LockResult};
use std::sync::Wait;

impl SyncTable {
    /// The phase of the cell, by one load. Once the seat has seen INITIALIZED, each later phase has it.
    pub fn phase(&self, seat: &mut CellSeat) -> Phase
        requires { IsSeatOf self.now seat.old }
        ensures seat { IsSameSeat seat.old seat.new }
        ensures counts { SameCounts seat.old seat.new }
        ensures view { view_of seat.new ≡ loaded (view_of seat.new).last (view_of seat.old) }
        ensures looks { Looks (view_of seat.old) (view_of seat.new) }
        ensures phase { result ≡ phase_got (view_of seat.new) }
        ensures word { IsCellWord (view_of seat.new).last }
    {
        phase_of_word(self.load(seat))
    }

    /// One attempt: a load, the rule `how` at the phase found, and at most one exchange. `None` comes only where the record
    /// bars what the rule asks, or where a step of another seat came between load and exchange. The seat has no hold.
    #[inline(always)]
    pub fn try_enter<F: Fn(Phase) -> LockNature>(
        &self,
        seat: &mut CellSeat,
        how: &F,
    ) -> Option<LockResult<(), ()>>
        requires table { IsSeatOf self.now seat.old }
        requires hold { (view_of seat.old).hold ≡ hold.Free }
        requires callable { F.IsAlwaysCallable how.now }
        ensures seat { IsSameSeat seat.old seat.new }
        ensures counts { SameCounts seat.old seat.new }
        ensures enters { IfSome result (Gets (F.post how.now) (view_of seat.old) (view_of seat.new)) }
        ensures phase { IfSome result (λ got. TellsPhase got (view_of seat.new)) }
        ensures misses { IfNone result (Misses (F.post how.now) (view_of seat.old) (view_of seat.new)) }
    {
        let word = self.load(seat);
        let phase = phase_of_word(word);
        let nature = how(phase);
        if is_barred(word, nature) {
            return None;
        }
        match nature {
            LockNature::None => Some(LockResult::None(phase)),
            LockNature::Read => {
                if self.enter_read(seat, word) == word {
                    Some(LockResult::Read(()))
                } else {
                    None
                }
            }
            LockNature::Write => {
                if self.enter_write(seat, word) == word {
                    Some(LockResult::Write(()))
                } else {
                    None
                }
            }
        }
    }

    /// An exchange with no load before it, where the rule `how` asks to write at the phase that the seat found last: it expects
    /// that phase and no holder.
    #[inline(always)]
    fn try_at_once<F: Fn(Phase) -> LockNature>(&self, seat: &mut CellSeat, how: &F) -> bool
        requires table { IsSeatOf self.now seat.old }
        requires hold { (view_of seat.old).hold ≡ hold.Free }
        requires callable { F.IsAlwaysCallable how.now }
        ensures seat { IsSameSeat seat.old seat.new }
        ensures counts { SameCounts seat.old seat.new }
        ensures enters { OnTrue result (Enters (F.post how.now) (view_of seat.old) (view_of seat.new) LockNature.Write) }
        ensures waits { OnFalse result (Waits (view_of seat.old) (view_of seat.new)) }
    {
        let expected = seat.last % READER_UNITY as u64;
        match how(phase_of_word(expected)) {
            LockNature::Write => self.look_write(seat, expected) == expected,
            LockNature::Read | LockNature::None => false,
        }
    }

    /// Attempts until there is an answer. Where the rule `how` asks to write at the phase that the seat found last, an exchange
    /// that expects that phase and no holder comes first. Between attempts it spins, and then yields. The seat has no hold.
    #[inline(always)]
    pub fn enter<R: Wait, F: Fn(Phase) -> LockNature>(
        &self,
        rt: &R,
        seat: &mut CellSeat,
        how: &F,
    ) -> LockResult<(), ()>
        requires table { IsSeatOf self.now seat.old }
        requires hold { (view_of seat.old).hold ≡ hold.Free }
        requires callable { F.IsAlwaysCallable how.now }
        ensures seat { IsSameSeat seat.old seat.new }
        ensures counts { SameCounts seat.old seat.new }
        ensures enters { Gets (F.post how.now) (view_of seat.old) (view_of seat.new) result }
        ensures phase { TellsPhase result (view_of seat.new) }
    {
        if self.try_at_once(seat, how) {
            return LockResult::Write(());
        }
        if let Some(got) = self.try_enter(seat, how) {
            return got;
        }
        self.enter_later(rt, seat, how)
    }

    /// Further attempts until there is an answer. It stands apart, so that a first attempt that succeeds is short code.
    #[inline(never)]
    fn enter_later<R: Wait, F: Fn(Phase) -> LockNature>(
        &self,
        rt: &R,
        seat: &mut CellSeat,
        how: &F,
    ) -> LockResult<(), ()>
        requires table { IsSeatOf self.now seat.old }
        requires hold { (view_of seat.old).hold ≡ hold.Free }
        requires callable { F.IsAlwaysCallable how.now }
        ensures seat { IsSameSeat seat.old seat.new }
        ensures counts { SameCounts seat.old seat.new }
        ensures enters { Gets (F.post how.now) (view_of seat.old) (view_of seat.new) result }
        ensures phase { TellsPhase result (view_of seat.new) }
    {
        let mut spin = SpinWait::new();
        let mut got = None;
        // The loop ends with an answer alone.
        for _ in rt.forever() {
            spin.spin_or_yield();
            if let Some(found) = self.try_enter(seat, how) {
                got = Some(found);
                break;
            }
        }
        got.unwrap()
    }

    /// One more read hold, which `into` gets: one load by `seat`, which has a read hold, then at most one exchange by `into`,
    /// which has none. `false` comes only where the readers are at the limit, or where a step of another seat came between.
    pub fn try_clone(&self, seat: &mut CellSeat, into: &mut CellSeat) -> bool
        requires table { IsSeatOf self.now seat.old }
        requires into { IsSeatOf self.now into.old }
        requires hold { (view_of seat.old).hold ≡ hold.Read }
        requires free { (view_of into.old).hold ≡ hold.Free }
        ensures seats { IsSameSeat seat.old seat.new × IsSameSeat into.old into.new }
        ensures counts { SameCounts seat.old seat.new × SameCounts into.old into.new }
        ensures view { view_of seat.new ≡ loaded (view_of seat.new).last (view_of seat.old) }
        ensures looks { Looks (view_of seat.old) (view_of seat.new) }
        ensures clones { OnTrue result (Clones (view_of seat.new) (view_of into.old) (view_of into.new)) }
        ensures misses { OnFalse result (MissesClone (view_of seat.new) (view_of into.old) (view_of into.new)) }
    {
        let word = self.load(seat);
        if is_barred(word, LockNature::Read) {
            return false;
        }
        self.enter_read(into, word) == word
    }
}

/// Whether the record that the word says bars a call that wants this. One comparison tells, since the word of a cell that
/// spins has the lock bit or readers, and nothing above: a word from READER_UNITY on has a holder, and one from READER_BITS
/// on has the lock bit, or the greatest number of readers.
#[inline(always)]
fn is_barred(word: u64, nature: LockNature) -> bool
    requires { IsCellWord word }
    ensures { result ≡ bars (unpacked word) nature }
{
    match nature {
        LockNature::Read => word >= READER_BITS as u64,
        LockNature::Write => word >= READER_UNITY as u64,
        LockNature::None => false,
    }
}
