//! The seats by which callers step.

ghost use Rattle.std.specs.Prelude.{◌≡◌, [], max};
ghost use Rattle.phase_bits.specs.Number.{phase_of};
ghost use Rattle.phase_bits.specs.Word.{phase_in};

use crate::view::View;
use atomic_table::Seat;
use phase_bits::Phase;

/// What a caller steps with. It is of one table, and has at most one hold there.
///
/// A contract sees what the seat knows of the word (`view_of`): its hold, the phases that it has seen, its last loads and
/// its last step. A seat that is dropped with a hold keeps the hold for ever.
#[derive(Drop)]
pub struct CellSeat {
    /// What the proof knows of the seat. It takes no bytes.
    pub(crate) token: Seat<(), View>,
    /// The word that the last load found, 0 before the first.
    pub(crate) last: u64,
    /// The greatest length of trail that the seat was told of.
    pub(crate) trail_seen: u64,
    /// How many sections the seat gave back as recorded. It stays at the greatest `u64`.
    pub(crate) recorded: u64,
    ghost no_slot: { token.me.1 ≡ [] },
    ghost latest: { last ≡ token.me.0.last },
}

impl CellSeat {
    ghost use Rattle.lazy_threads.specs.Calls.{phase_got};
    ghost use Rattle.lazy_threads.specs.Seats.{view_of, Counts, counted};

    /// The greatest length of trail that the seat was told of, by its leaving calls or by the seats that it came from.
    pub fn trail_seen(&self) -> u64
        ensures { result ≡ self.now.trail_seen }
    {
        self.trail_seen
    }

    /// How many sections the seat gave back as recorded, with those of the seats joined into it. The greatest `u64` stays.
    pub fn recorded(&self) -> u64
        ensures { result ≡ self.now.recorded }
    {
        self.recorded
    }

    /// The phase that the seat's last load found: the empty phase before the first.
    pub fn phase_got(&self) -> Phase
        ensures { result ≡ phase_got (view_of self.now) }
    {
        phase_of_word(self.last)
    }

    /// The seat is told of a trail of this length.
    #[inline(always)]
    pub(crate) fn told(&mut self, seen: u64)
        ensures token { self.new.token ≡ self.old.token }
        ensures last { self.new.last ≡ self.old.last }
        ensures counts { Counts (max self.old.trail_seen seen) self.old.recorded self.new }
    {
        self.trail_seen = self.trail_seen.max(seen);
    }

    /// One section more, where it was recorded.
    #[inline(always)]
    pub(crate) fn count(&mut self, recorded: bool)
        ensures token { self.new.token ≡ self.old.token }
        ensures last { self.new.last ≡ self.old.last }
        ensures counts { Counts self.old.trail_seen (counted recorded self.old.recorded) self.new }
    {
        if recorded {
            self.recorded = self.recorded.saturating_add(1);
        }
    }
}

/// The phase of a word.
#[inline(always)]
pub(crate) fn phase_of_word(word: u64) -> Phase
    ensures { result ≡ phase_of (phase_in word) }
{
    Phase::from_bits_truncate((word % 256) as u32)
}
