//! What every locker does.

ghost use Rattle.std.specs.Prelude.{ℕ, ◌≡◌, ◌≢◌, ◌+◌, ◌<◌, ◌↔◌, IsNone, OnSome, Bool, true, length};
ghost use Rattle.phase_bits.specs.declared.phase.Phase.{Phase};
ghost use Rattle.phase_bits.specs.declared.holders.Holders.{Holders};
ghost use Rattle.phase_bits.specs.Number.{IsKnown};
ghost use Rattle.phase_bits.specs.Records.{IsValid, most_readers, unheld, admit_read, admit_write, leave_read, leave_write};
ghost use Rattle.phase_locker.specs.declared.ways.LockerKind.{LockerKind};
ghost use Rattle.phase_locker.specs.Natures.{MayJudge, IsRule, Tries};
ghost use Rattle.phase_locker.specs.declared.ways.How.{How};
ghost use Rattle.phase_locker.specs.declared.ways.Given.{Given};
ghost use Rattle.phase_locker.specs.Rows.{Rows, HasFree, freed};
ghost use Rattle.phase_locker.specs.Fits.{Fits, FitsNew, KeepsFit, IsWriteOpen, open_reads, IsIdle};
ghost use Rattle.phase_locker.specs.Gifts.{Hands, Downgrades};
ghost use Rattle.phase_locker.specs.Attempts.{Locks, Again, WaitsBy};
ghost use Rattle.phase_locker.specs.Others.{RowsStay, RowsStayBeside};
ghost use Rattle.phase_locker.specs.Left.{Left};
ghost use Rattle.phase_locker.specs.Stands.{MayCall, MayCallAgain, Stands, Opens, reads_opened, opens_write};

use crate::parks::Parks;
use crate::tickets::{Attempt, LockNature, LockResult, ReadTicket, WriteTicket};
use crate::ways::{Given, LockerKind, Who};
use phase_bits::Phase;

/// A locker of a cell: it keeps the cell's phase, and who holds its lock. It is static_init's `PhaseLocker`; that each
/// call is one attempt, that tickets stand in place of guards, and `Parks`, are this project's own.
///
/// A contract sees the record that the locker holds and the place where its calls wait. Each call is a move of the
/// record. A call that takes `parks` also sets the waiter flags to say which lists of the cell are not empty, needs
/// record and rows to fit together, and keeps that. What the rows say of other cells stays, so that what fits there
/// still does (`fits_beside` of the proofs), and so do the rows of parties that are neither parked at the cell nor the
/// caller. A lock that a call got is open then, and its party waits no longer; the open holds of others stay open. No
/// call takes memory. A rule, `how`, is judged once in a call, at the phase that the locker has then. What a locker may
/// choose it says by `waits`, `gives` and `shares`.
///
/// A ticket is not bound to a locker. A call that is given one needs such a lock to be open at this locker.
pub trait PhaseLocker: Drop {
    // The record that it holds.
    ghost held: { Self → Holders };

    // Where its calls wait.
    ghost place: { Self → LockerKind };

    // The kinds that it can be made of.
    ghost takes: { LockerKind → Bool };

    // How it lets a barred call wait, of the ways that the call may wait.
    ghost waits: { How → Type 0 };

    // What it gives to the parked calls of a cell that nobody holds any more, of what it may give.
    ghost gives: { ℕ → Rows → Given → Type 0 };

    // What it gives at a downgrade, of what it may give.
    ghost shares: { ℕ → Rows → Given → Type 0 };

    /// Whether a locker can be made of this kind.
    fn takes(kind: LockerKind) -> bool
        ensures { result ≡ takes kind };

    /// A locker of this kind, with this phase, that nobody holds. It fits the rows of parties of which nobody waits.
    fn new(kind: LockerKind, phase: Phase) -> Self
        requires takes { takes kind ≡ true }
        requires known { IsKnown phase }
        ensures held { held result ≡ unheld phase }
        ensures fits { FitsNew kind (held result) }
        ensures place { place result ≡ kind };

    /// The phase of the cell.
    fn phase(&self) -> Phase
        ensures phase { result ≡ (held self.now).phase }
        ensures known { IsKnown result }
        ensures valid { IsValid (held self.now) };

    /// A call of a party that does not wait. It waits exactly where the nature that the rule gives is barred; where it
    /// parks, it is woken as `wake` says, which is `Read` or `Write`. Nothing is given.
    fn lock<F: Fn(Phase) -> LockNature>(
        &mut self,
        parks: &mut Parks,
        who: Who,
        wake: LockNature,
        how: &F,
    ) -> (Attempt, Given)
        requires calls { MayCall who parks.old }
        requires wake { wake ≢ LockNature.None }
        requires callable { MayJudge (F.pre how.now) }
        requires rule { IsRule (F.post how.now) }
        requires fits { Fits (place self.old) (held self.old) parks.old who.cell }
        ensures locks { Locks (F.post how.now) (place self.old) who wake (held self.old) parks.old result (held self.new) parks.new }
        ensures rows { RowsStayBeside who.party who.cell parks.old parks.new }
        ensures stands { Stands who result.0 (held self.new) parks.new }
        ensures opens { Opens who.cell (reads_opened result.0) (opens_write result.0) (held self.old) parks.old (held self.new) parks.new }
        ensures left { Left held place who.cell self.old self.new parks.old parks.new }
        ensures waits { WaitsBy waits result.0 };

    /// A call of a party that waits at this cell. It keeps a share of the nature that the rule gives, and a drain that
    /// wants to write and has no reader beside it. Else it gives up what it has and leaves its list, which may cause a
    /// hand-over, and is judged as any other call.
    fn again<F: Fn(Phase) -> LockNature>(
        &mut self,
        parks: &mut Parks,
        who: Who,
        wake: LockNature,
        how: &F,
    ) -> (Attempt, Given)
        requires calls { MayCallAgain who parks.old }
        requires wake { wake ≢ LockNature.None }
        requires callable { MayJudge (F.pre how.now) }
        requires rule { IsRule (F.post how.now) }
        requires fits { Fits (place self.old) (held self.old) parks.old who.cell }
        ensures again { Again (F.post how.now) (place self.old) who wake (held self.old) parks.old result (held self.new) parks.new }
        ensures rows { RowsStayBeside who.party who.cell parks.old parks.new }
        ensures stands { Stands who result.0 (held self.new) parks.new }
        ensures opens { Opens who.cell (reads_opened result.0) (opens_write result.0) (held self.old) parks.old (held self.new) parks.new }
        ensures left { Left held place who.cell self.old self.new parks.old parks.new }
        ensures waits { WaitsBy waits result.0 }
        ensures gives { gives who.cell (freed who.party parks.old) result.1 };

    /// Takes a lock; `None` exactly where the nature that the rule gives is barred.
    fn try_lock<F: Fn(Phase) -> LockNature>(
        &mut self,
        how: &F,
    ) -> Option<LockResult<ReadTicket, WriteTicket>>
        requires callable { MayJudge (F.pre how.now) }
        requires rule { IsRule (F.post how.now) }
        ensures tries { Tries (F.post how.now) (held self.old) result (held self.new) }
        ensures fits { KeepsFit (place self.old) (held self.old) (held self.new) }
        ensures place { place self.new ≡ place self.old };

    /// Gives a read lock back. Where it was the last hold, the lock is handed to parked calls.
    fn release_read(&mut self, parks: &mut Parks, cell: u32, t: ReadTicket) -> Given
        requires cell { cell < length parks.old.readers }
        requires fits { Fits (place self.old) (held self.old) parks.old cell }
        requires open { 0 < open_reads (held self.old) parks.old cell }
        ensures hands { Hands cell (leave_read (held self.old)) parks.old result (held self.new) parks.new }
        ensures rows { RowsStay cell parks.old parks.new }
        ensures reads { open_reads (held self.new) parks.new cell + 1 ≡ open_reads (held self.old) parks.old cell }
        ensures closed { ¬ IsWriteOpen (held self.new) parks.new cell }
        ensures left { Left held place cell self.old self.new parks.old parks.new }
        ensures gives { gives cell parks.old result };

    /// Gives a write lock back with the phase that the cell has now, and hands the lock to parked calls.
    fn release_write(&mut self, parks: &mut Parks, cell: u32, t: WriteTicket, phase: Phase) -> Given
        requires cell { cell < length parks.old.readers }
        requires known { IsKnown phase }
        requires fits { Fits (place self.old) (held self.old) parks.old cell }
        requires open { IsWriteOpen (held self.old) parks.old cell }
        ensures hands { Hands cell (leave_write phase (held self.old)) parks.old result (held self.new) parks.new }
        ensures rows { RowsStay cell parks.old parks.new }
        ensures reads { open_reads (held self.new) parks.new cell ≡ 0 }
        ensures closed { ¬ IsWriteOpen (held self.new) parks.new cell }
        ensures left { Left held place cell self.old self.new parks.old parks.new }
        ensures gives { gives cell parks.old result };

    /// Makes a write lock a read lock, with the phase that the cell has now. It may give the lock to parked readers,
    /// for which some party must not wait, so that the readers stay within the limit.
    fn downgrade(
        &mut self,
        parks: &mut Parks,
        cell: u32,
        t: WriteTicket,
        phase: Phase,
    ) -> (ReadTicket, Given)
        requires cell { cell < length parks.old.readers }
        requires room { HasFree parks.old }
        requires known { IsKnown phase }
        requires fits { Fits (place self.old) (held self.old) parks.old cell }
        requires open { IsWriteOpen (held self.old) parks.old cell }
        ensures downgrades { Downgrades cell phase (held self.old) parks.old result.1 (held self.new) parks.new }
        ensures rows { RowsStay cell parks.old parks.new }
        ensures reads { open_reads (held self.new) parks.new cell ≡ 1 }
        ensures closed { ¬ IsWriteOpen (held self.new) parks.new cell }
        ensures left { Left held place cell self.old self.new parks.old parks.new }
        ensures shares { shares cell parks.old result.1 };

    /// Another read lock beside this one; `None` exactly where the readers are at the limit, 2^20 - 1.
    fn clone_read(&mut self, t: &ReadTicket) -> Option<ReadTicket>
        requires { 0 < (held self.old).readers }
        ensures most { IsNone result ↔ ((held self.old).readers ≡ most_readers) }
        ensures some { OnSome result (held self.new ≡ admit_read (held self.old)) }
        ensures none { IsNone result → held self.new ≡ held self.old }
        ensures fits { KeepsFit (place self.old) (held self.old) (held self.new) }
        ensures place { place self.new ≡ place self.old };

    /// The write lock of a cell that nobody holds.
    fn lock_mut(&mut self) -> WriteTicket
        requires { IsIdle (held self.old) }
        ensures held { held self.new ≡ admit_write (held self.old) }
        ensures fits { KeepsFit (place self.old) (held self.old) (held self.new) }
        ensures place { place self.new ≡ place self.old };

    /// The phase of a cell that nobody holds.
    fn get_phase_unique(&mut self) -> Phase
        requires { IsIdle (held self.old) }
        ensures phase { result ≡ (held self.old).phase }
        ensures known { IsKnown result }
        ensures held { held self.new ≡ held self.old }
        ensures place { place self.new ≡ place self.old };

    /// Sets the phase of a cell that nobody holds.
    fn set_phase(&mut self, phase: Phase)
        requires idle { IsIdle (held self.old) }
        requires known { IsKnown phase }
        ensures held { held self.new ≡ record (held self.old) { phase = phase } }
        ensures fits { KeepsFit (place self.old) (held self.old) (held self.new) }
        ensures place { place self.new ≡ place self.old };
}
