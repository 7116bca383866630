//! Where a locker keeps its record.

ghost use Rattle.std.specs.Prelude.{◌≡◌, ◌==◌, ◌+◌, ◌<◌, ◌≤◌, not};
ghost use Rattle.phase_bits.specs.declared.phase.Phase.{Phase};
ghost use Rattle.phase_bits.specs.declared.holders.Holders.{Holders};
ghost use Rattle.phase_bits.specs.Number.{IsKnown};
ghost use Rattle.phase_bits.specs.Records.{IsValid, most_readers, leave_read, give_readers};
ghost use Rattle.phase_locker.specs.declared.ways.LockerKind.{LockerKind};
ghost use Rattle.phase_locker.specs.Natures.{bars};

use crate::tickets::LockNature;
use crate::ways::LockerKind;
use phase_bits::Phase;

/// Where a locker keeps its record, and the moves that its calls are made of. Each changes what its name says alone.
pub(crate) trait Store: Drop {
    // The record that it keeps.
    ghost kept: { Self → Holders };

    // Where the calls of the locker wait.
    ghost place: { Self → LockerKind };

    /// Where the calls of the locker wait.
    fn place(&self) -> LockerKind
        ensures { result ≡ place self.now };

    /// The phase of the cell.
    fn stored_phase(&self) -> Phase
        ensures phase { result ≡ (kept self.now).phase }
        ensures valid { IsValid (kept self.now) };

    /// Whether a call of this nature is barred.
    fn bars(&self, nature: LockNature) -> bool
        ensures bars { result ≡ bars (kept self.now) nature }
        ensures valid { IsValid (kept self.now) };

    /// Whether there is a reader.
    fn has_readers(&self) -> bool
        ensures { result ≡ not ((kept self.now).readers == 0) };

    /// Whether it is locked.
    fn is_locked(&self) -> bool
        ensures { result ≡ (kept self.now).locked };

    /// More readers come.
    fn add_readers(&mut self, more: u32)
        requires { (kept self.old).readers + more ≤ most_readers }
        ensures kept { kept self.new ≡ give_readers more (kept self.old) }
        ensures place { place self.new ≡ place self.old };

    /// A reader leaves.
    fn drop_reader(&mut self)
        requires { 0 < (kept self.old).readers }
        ensures kept { kept self.new ≡ leave_read (kept self.old) }
        ensures place { place self.new ≡ place self.old };

    /// It is locked, or it is not.
    fn set_locked(&mut self, locked: bool)
        ensures kept { kept self.new ≡ record (kept self.old) { locked = locked } }
        ensures place { place self.new ≡ place self.old };

    /// The phase becomes this one.
    fn store_phase(&mut self, phase: Phase)
        requires { IsKnown phase }
        ensures kept { kept self.new ≡ record (kept self.old) { phase = phase } }
        ensures place { place self.new ≡ place self.old };

    /// The waiter flags become these.
    fn set_waiters(&mut self, read: bool, write: bool)
        ensures kept { kept self.new ≡ record (kept self.old) { read_waiters = read; write_waiters = write } }
        ensures place { place self.new ≡ place self.old };
}
