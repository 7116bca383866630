//! The word that says who holds a cell's lock, in the form of static_init's lockers.

ghost use Rattle.std.specs.Prelude.{◌≡◌, ℕ};
ghost use Rattle.phase_bits.specs.declared.holders.Holders.{Holders};
ghost use Rattle.phase_bits.specs.Records.{IsValid};
ghost use Rattle.phase_bits.specs.Word.{packed, unpacked, spare_in, IsPacked};

use crate::holders::Holders;
use crate::phase::Phase;

/// One reader. The phase is in the bits below.
pub const READER_UNITY: u32 = 0x0000_0100;
/// The bits of the number of readers.
pub const READER_BITS: u32 = 0x0fff_ff00;
/// The bit above the number of readers, which is clear between two calls of a locker.
pub const READER_OVERF: u32 = 0x1000_0000;
/// A write lock is open, or a section runs.
pub const LOCKED_BIT: u32 = 0x2000_0000;
/// A call is parked to read.
pub const READ_WAITER_BIT: u32 = 0x4000_0000;
/// A call is parked to write.
pub const WRITE_WAITER_BIT: u32 = 0x8000_0000;

/// The word of a record. The record has a known phase, and readers within the limit.
pub fn pack(holders: &Holders) -> u32
    requires { IsValid holders.now }
    ensures { result ≡ packed holders.now }
{
    holders.phase.bits()
        | holders.readers << 8
        | u32::from(holders.locked) << 29
        | u32::from(holders.read_waiters) << 30
        | u32::from(holders.write_waiters) << 31
}

/// The record of a word. The bit above the readers is clear.
pub fn unpack(word: u32) -> Holders
    requires { spare_in word ≡ 0 }
    ensures { result ≡ unpacked word }
{
    Holders {
        phase: Phase::from_bits_truncate(word),
        readers: (word & READER_BITS) >> 8,
        locked: word & LOCKED_BIT != 0,
        read_waiters: word & READ_WAITER_BIT != 0,
        write_waiters: word & WRITE_WAITER_BIT != 0,
    }
}

/// Records and words go together: what was packed is unpacked again, and what was unpacked is packed again.
pub fn words_say_records()
    ensures unpacked { (h : Holders) → IsValid h → unpacked (packed h) ≡ h }
    ensures packed { (word : ℕ) → IsPacked word → packed (unpacked word) ≡ word }
    ensures below { (h : Holders) → IsValid h → IsPacked (packed h) }
{}
