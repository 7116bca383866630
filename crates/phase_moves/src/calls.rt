//! The calls of a cell's sequentializer and of its locker, each with one record of what it leaves.

ghost use Rattle.std.specs.Prelude.{◌≡◌, ◌+◌, ◌<◌, ◌↔◌, IsNone, OnSome, length, true, false};
ghost use Rattle.phase_bits.specs.Number.{IsKnown};
ghost use Rattle.phase_bits.specs.Records.{admit_read, leave_read, leave_write, most_readers};
ghost use Rattle.phase_locker.specs.Rows.{HasFree};
ghost use Rattle.phase_locker.specs.Fits.{Fits, IsWriteOpen, KeepsFit, open_reads};
ghost use Rattle.phase_locker.specs.Gifts.{Downgrades, Hands};
ghost use Rattle.phase_locker.specs.Left.{Left};
ghost use Rattle.phase_locker.specs.Stands.{Opens};
ghost use Rattle.phase_seq.specs.Begins.{is_cyclic, running_after};
ghost use Rattle.phase_seq.specs.Exactly.{is_turned_back};
ghost use Rattle.phase_seq.specs.Finishes.{Finishes, FinishesFinal};
ghost use Rattle.phase_seq.specs.Registers.{MayRegister};
ghost use Rattle.phase_seq.specs.Stands.{BegunStands, FinishedStands, IsFinalizing, IsRunning, begins_write, reads_begun, reads_finished};
ghost use Rattle.lazy_cells.specs.Kinds.{is_finalizable};
ghost use Rattle.phase_moves.specs.Calls.{Calling, Calls, registry_for, registry_begun};
ghost use Rattle.phase_moves.specs.Lends.{TriesWrite};

use exit_registry::ExitRegistry;
use lazy_cells::{Kind, finalizable};
use phase_bits::Phase;
use phase_locker::{
    Given, LockNature, LockResult, Parks, PhaseLocker, ReadTicket, Who, WriteTicket,
};
use phase_seq::{Ask, Begun, Finished, LazySequentializer, Section, Want};

/// Gives a read lock back.
pub fn release_read<L: PhaseLocker>(
    cell: &mut LazySequentializer<L, ()>,
    parks: &mut Parks,
    number: u32,
    lock: ReadTicket,
) -> Given
    requires cell { number < length parks.old.readers }
    requires fits { Fits (L.place cell.old.locker) (L.held cell.old.locker) parks.old number }
    requires open { 0 < open_reads (L.held cell.old.locker) parks.old number }
    ensures hands { Hands number (leave_read (L.held cell.old.locker)) parks.old result (L.held cell.new.locker) parks.new }
    ensures reads { open_reads (L.held cell.new.locker) parks.new number + 1 ≡ open_reads (L.held cell.old.locker) parks.old number }
    ensures closed { ¬ IsWriteOpen (L.held cell.new.locker) parks.new number }
    ensures running { cell.new.running ≡ cell.old.running }
    ensures left { Left L.held L.place number cell.old.locker cell.new.locker parks.old parks.new }
{
    cell.locker_mut().release_read(parks, number, lock)
}

/// Gives a write lock back, with the phase that the cell has now.
pub fn release_write<L: PhaseLocker>(
    cell: &mut LazySequentializer<L, ()>,
    parks: &mut Parks,
    number: u32,
    lock: WriteTicket,
    phase: Phase,
) -> Given
    requires cell { number < length parks.old.readers }
    requires known { IsKnown phase }
    requires fits { Fits (L.place cell.old.locker) (L.held cell.old.locker) parks.old number }
    requires open { IsWriteOpen (L.held cell.old.locker) parks.old number }
    ensures hands { Hands number (leave_write phase (L.held cell.old.locker)) parks.old result (L.held cell.new.locker) parks.new }
    ensures reads { open_reads (L.held cell.new.locker) parks.new number ≡ 0 }
    ensures closed { ¬ IsWriteOpen (L.held cell.new.locker) parks.new number }
    ensures running { cell.new.running ≡ cell.old.running }
    ensures left { Left L.held L.place number cell.old.locker cell.new.locker parks.old parks.new }
{
    cell.locker_mut().release_write(parks, number, lock, phase)
}

/// Makes a write lock a read lock, with the phase that the cell has now.
pub fn downgrade<L: PhaseLocker>(
    cell: &mut LazySequentializer<L, ()>,
    parks: &mut Parks,
    number: u32,
    lock: WriteTicket,
    phase: Phase,
) -> (ReadTicket, Given)
    requires cell { number < length parks.old.readers }
    requires room { HasFree parks.old }
    requires known { IsKnown phase }
    requires fits { Fits (L.place cell.old.locker) (L.held cell.old.locker) parks.old number }
    requires open { IsWriteOpen (L.held cell.old.locker) parks.old number }
    ensures downgrades { Downgrades number phase (L.held cell.old.locker) parks.old result.1 (L.held cell.new.locker) parks.new }
    ensures reads { open_reads (L.held cell.new.locker) parks.new number ≡ 1 }
    ensures closed { ¬ IsWriteOpen (L.held cell.new.locker) parks.new number }
    ensures running { cell.new.running ≡ cell.old.running }
    ensures left { Left L.held L.place number cell.old.locker cell.new.locker parks.old parks.new }
{
    cell.locker_mut().downgrade(parks, number, lock, phase)
}

/// Another read lock beside this one; `None` exactly where the readers are at the limit.
pub fn clone_read<L: PhaseLocker>(
    cell: &mut LazySequentializer<L, ()>,
    lock: &ReadTicket,
) -> Option<ReadTicket>
    requires { 0 < (L.held cell.old.locker).readers }
    ensures most { IsNone result ↔ ((L.held cell.old.locker).readers ≡ most_readers) }
    ensures some { OnSome result (L.held cell.new.locker ≡ admit_read (L.held cell.old.locker)) }
    ensures none { IsNone result → L.held cell.new.locker ≡ L.held cell.old.locker }
    ensures fits { KeepsFit (L.place cell.old.locker) (L.held cell.old.locker) (L.held cell.new.locker) }
    ensures place { L.place cell.new.locker ≡ L.place cell.old.locker }
    ensures running { cell.new.running ≡ cell.old.running }
{
    cell.locker_mut().clone_read(lock)
}

/// A call of a party that waits or not. It is handed the registry where the cell's kind is registered for the exit.
#[inline(always)]
pub fn call<L: PhaseLocker>(
    cell: &mut LazySequentializer<L, ()>,
    parks: &mut Parks,
    registry: &mut ExitRegistry,
    kind: Kind,
    who: Who,
    ask: Ask,
    waits: bool,
) -> (Begun, Given)
    requires calls { Calling waits who parks.old }
    requires slow { waits ≡ true → ask.fast ≡ false }
    requires fits { Fits (L.place cell.old.locker) (L.held cell.old.locker) parks.old who.cell }
    requires registry { is_finalizable kind ≡ true → MayRegister who.cell (L.held cell.old.locker) parks.old registry.old }
    ensures calls { Calls waits (registry_for kind registry.old) (L.place cell.old.locker) who ask cell.old.running (L.held cell.old.locker) parks.old result (L.held cell.new.locker) parks.new }
    ensures cyclic { is_turned_back result.0 ≡ is_cyclic ask.want who.party cell.old.running }
    ensures registry { registry.new ≡ registry_begun kind who.cell (L.held cell.old.locker).phase result.0 registry.old }
    ensures running { cell.new.running ≡ running_after result.0 cell.old.running }
    ensures stands { BegunStands who result.0 cell.new.running (L.held cell.new.locker) parks.new }
    ensures opens { Opens who.cell (reads_begun result.0) (begins_write result.0) (L.held cell.old.locker) parks.old (L.held cell.new.locker) parks.new }
    ensures left { Left L.held L.place who.cell cell.old.locker cell.new.locker parks.old parks.new }
{
    if finalizable(kind) {
        if waits {
            cell.again(parks, who, ask, Some(registry))
        } else {
            cell.begin(parks, who, ask, Some(registry))
        }
    } else if waits {
        cell.again(parks, who, ask, None)
    } else {
        cell.begin(parks, who, ask, None)
    }
}

/// Ends the section of a run.
pub fn finish<L: PhaseLocker>(
    cell: &mut LazySequentializer<L, ()>,
    parks: &mut Parks,
    section: Section,
    made: bool,
) -> (Finished, Given)
    requires cell { section.who.cell < length parks.old.readers }
    requires running { IsRunning section cell.old.running (L.held cell.old.locker) parks.old }
    requires fits { Fits (L.place cell.old.locker) (L.held cell.old.locker) parks.old section.who.cell }
    requires room { (section.want ≡ Want.Read) × (made ≡ true) → HasFree parks.old }
    ensures finishes { Finishes section made (L.held cell.old.locker) parks.old result (L.held cell.new.locker) parks.new }
    ensures running { cell.new.running ≡ None }
    ensures stands { FinishedStands section.who.cell result.0 (L.held cell.new.locker) parks.new }
    ensures reads { open_reads (L.held cell.new.locker) parks.new section.who.cell ≡ reads_finished result.0 }
    ensures left { Left L.held L.place section.who.cell cell.old.locker cell.new.locker parks.old parks.new }
{
    cell.finish(parks, section, made)
}

/// Ends the section of a finalizer.
pub fn finish_final<L: PhaseLocker>(
    cell: &mut LazySequentializer<L, ()>,
    parks: &mut Parks,
    section: Section,
    fine: bool,
) -> (Phase, Given)
    requires cell { section.who.cell < length parks.old.readers }
    requires finalizing { IsFinalizing section (L.held cell.old.locker) parks.old }
    requires fits { Fits (L.place cell.old.locker) (L.held cell.old.locker) parks.old section.who.cell }
    ensures finishes { FinishesFinal section fine (L.held cell.old.locker) parks.old result (L.held cell.new.locker) parks.new }
    ensures running { cell.new.running ≡ cell.old.running }
    ensures closed { ¬ IsWriteOpen (L.held cell.new.locker) parks.new section.who.cell }
    ensures reads { open_reads (L.held cell.new.locker) parks.new section.who.cell ≡ 0 }
    ensures left { Left L.held L.place section.who.cell cell.old.locker cell.new.locker parks.old parks.new }
{
    cell.finish_final(parks, section, fine)
}

/// The lock to write a cell that nobody holds; `None` exactly where somebody does. The rows of who is parked stay.
pub fn try_write<L: PhaseLocker>(
    cell: &mut LazySequentializer<L, ()>,
    parks: &mut Parks,
    number: u32,
) -> Option<WriteTicket>
    requires cell { number < length parks.old.readers }
    requires fits { Fits (L.place cell.old.locker) (L.held cell.old.locker) parks.old number }
    ensures tries { TriesWrite result (L.held cell.old.locker) (L.held cell.new.locker) }
    ensures fits { KeepsFit (L.place cell.old.locker) (L.held cell.old.locker) (L.held cell.new.locker) }
    ensures place { L.place cell.new.locker ≡ L.place cell.old.locker }
    ensures running { cell.new.running ≡ cell.old.running }
    ensures parks { parks.new ≡ parks.old }
{
    let write = |_phase: Phase| -> LockNature
        ensures { result ≡ LockNature.Write }
    { LockNature::Write };
    match cell.locker_mut().try_lock(&write) {
        None => None,
        Some(LockResult::Write(lock)) => Some(lock),
        // What asks for a lock to write gets no other.
        Some(LockResult::None(_)) => None,
        Some(LockResult::Read(lock)) => {
            let _given = cell.locker_mut().release_read(parks, number, lock);
            None
        }
    }
}
