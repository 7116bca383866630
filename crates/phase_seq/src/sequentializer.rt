//! The sequentializer of a cell.

ghost use Rattle.std.specs.Prelude.{◌≡◌, ◌<◌, ◌&&◌, true, false, length};
ghost use Rattle.std.specs.Option.{ForSome, option_map, option_copied_mut};
ghost use Rattle.std.specs.Borrow.{sem};
ghost use Rattle.phase_bits.specs.Number.{IsKnown};
ghost use Rattle.phase_locker.specs.Rows.{HasFree};
ghost use Rattle.phase_locker.specs.Fits.{Fits, IsWriteOpen, open_reads};
ghost use Rattle.phase_locker.specs.Others.{RowsStay, RowsStayBeside};
ghost use Rattle.phase_locker.specs.Stands.{MayCall, MayCallAgain, Opens};
ghost use Rattle.phase_locker.specs.Left.{Left};
ghost use Rattle.phase_seq.specs.Asks.{asks_run};
ghost use Rattle.phase_seq.specs.Begins.{Begins, Resumes};
ghost use Rattle.phase_seq.specs.Registers.{MayRegister, On, left_behind, after_asking, is_refused};
ghost use Rattle.phase_seq.specs.Finishes.{Finishes, FinishesFinal};
ghost use Rattle.phase_seq.specs.Stands.{BegunStands, FinishedStands, IsRunning, IsFinalizing, RunsAfter, reads_begun, reads_finished, begins_write};
ghost use Rattle.phase_seq.specs.Exactly.{BeginsExactly, ResumesExactly, is_admitted, shall_run};
ghost use Rattle.phase_seq.specs.Lending.{lends_locker};

use crate::ask::{Ask, Want};
use crate::phases::{finalized, reached};
use crate::section::{Begun, Finished, Section};
use exit_registry::ExitRegistry;
use phase_bits::{Phase, Phased};
use phase_locker::{Given, Parks, PhaseLocker, Who};
use std::marker::PhantomData;

mod attempts;
mod closures;
mod direct;
mod settling;

/// The locker of a cell, and the party that runs the cell's generator. It is static_init's `LazySequentializer`, for one
/// event at a time.
///
/// A contract sees the locker, and the party that runs. The conditions of a call are those of the locker's call that it
/// makes, and what that call promises of the record and the rows holds here too. No call takes memory.
#[derive(Drop)]
pub struct LazySequentializer<L, G> {
    locker: L,
    running: Option<u32>,
    generator: PhantomData<G>,
}

impl<L: PhaseLocker, G> LazySequentializer<L, G> {
    /// The sequentializer of a cell with this locker. Nobody runs.
    pub fn new(locker: L) -> Self
        ensures locker { result.locker ≡ locker }
        ensures running { result.running ≡ None }
    {
        LazySequentializer {
            locker,
            running: None,
            generator: PhantomData,
        }
    }

    /// The locker of the cell.
    pub fn locker(&self) -> &L
        ensures { result.now ≡ self.now.locker }
    {
        &self.locker
    }

    /// The locker of the cell, by which tickets are given back, downgraded and cloned. The party that runs stays.
    pub fn locker_mut(&mut self) -> &mut L
        ensures* lends { sem 𝓛 (lends_locker L.row G.row self.entry result) }
        ensures locker { result.now ≡ self.old.locker }
    {
        &mut self.locker
    }

    /// A call of a party that does not wait. It is `Cyclic` exactly where it asks for a run of the generator that its own
    /// party is running, before any lock is tried; else it waits, or is `Missed` where it does not wait, exactly where
    /// the lock that it wants is barred. It is to run the finalizer exactly where it finalizes, the value is there and it
    /// is admitted. It is to run the generator exactly where it is admitted and asks for a run, but for cells that can't
    /// be registered.
    ///
    /// `reg` is the registry of a cell that is registered for the exit; the cell must be below its cells, and not known
    /// to it while the phase is empty and no write lock is open. A call that asks for a run and is admitted registers the
    /// cell where its phase is empty. Where the cell is not registered and puts up with no leak, no generator runs: the
    /// phase becomes REGISTRATION_REFUSED | INITIALIZATION_SKIPED, and the call is left with what it wants, as after a
    /// run. It answers `Nothing`, `Read` or `Write` then; a write lock is to be given back with that phase.
    #[inline(always)]
    pub fn begin(
        &mut self,
        parks: &mut Parks,
        who: Who,
        ask: Ask,
        reg: Option<&mut ExitRegistry>,
    ) -> (Begun, Given)
        requires calls { MayCall who parks.old }
        requires fits { Fits (L.place self.old.locker) (L.held self.old.locker) parks.old who.cell }
        requires registry { ForSome reg (λ m. MayRegister who.cell (L.held self.old.locker) parks.old m.now) }
        ensures begins { On (option_copied_mut reg.entry) (Begins (L.place self.old.locker) who ask self.old.running (L.held self.old.locker) parks.old) (L.place self.old.locker) who.cell parks.old ask.tol.leak (L.held self.old.locker).phase result (L.held self.new.locker) parks.new }
        ensures registry { option_copied_mut (left_behind reg.exit) ≡ option_map (after_asking (shall_run who ask self.old.running (L.held self.old.locker)) who.cell (L.held self.old.locker).phase) (option_copied_mut reg.entry) }
        ensures exactly { BeginsExactly who ask self.old.running (L.held self.old.locker) (is_refused ask.tol.leak (option_copied_mut reg.entry) (L.held self.old.locker).phase) result.0 }
        ensures running { RunsAfter who.cell result.0 self.old.running (L.held self.old.locker) parks.old self.new.running (L.held self.new.locker) parks.new }
        ensures rows { RowsStayBeside who.party who.cell parks.old parks.new }
        ensures stands { BegunStands who result.0 self.new.running (L.held self.new.locker) parks.new }
        ensures opens { Opens who.cell (reads_begun result.0) (begins_write result.0) (L.held self.old.locker) parks.old (L.held self.new.locker) parks.new }
        ensures left { Left L.held L.place who.cell self.old.locker self.new.locker parks.old parks.new }
    {
        let phase = self.locker.phase();
        let before = self.running;
        let leak = ask.tol.leak;
        let (begun, given) = self.enter(parks, who, ask);
        match reg {
            None => (begun, given),
            Some(registry) => {
                self.settle(parks, who, leak, registry, phase, before, begun, given)
            }
        }
    }

    /// A call of a party that waits at this cell. It answers as `begin`, with `reg` as there, and what the party has by
    /// its waiting goes into the attempt, as `again` of the locker says.
    #[inline(always)]
    pub fn again(
        &mut self,
        parks: &mut Parks,
        who: Who,
        ask: Ask,
        reg: Option<&mut ExitRegistry>,
    ) -> (Begun, Given)
        requires calls { MayCallAgain who parks.old }
        requires slow { ask.fast ≡ false }
        requires fits { Fits (L.place self.old.locker) (L.held self.old.locker) parks.old who.cell }
        requires registry { ForSome reg (λ m. MayRegister who.cell (L.held self.old.locker) parks.old m.now) }
        ensures resumes { On (option_copied_mut reg.entry) (Resumes (L.place self.old.locker) who ask self.old.running (L.held self.old.locker) parks.old) (L.place self.old.locker) who.cell parks.old ask.tol.leak (L.held self.old.locker).phase result (L.held self.new.locker) parks.new }
        ensures registry { option_copied_mut (left_behind reg.exit) ≡ option_map (after_asking (is_admitted result.0 && asks_run ask (L.held self.old.locker).phase) who.cell (L.held self.old.locker).phase) (option_copied_mut reg.entry) }
        ensures exactly { ResumesExactly who ask self.old.running (L.held self.old.locker) parks.old (is_refused ask.tol.leak (option_copied_mut reg.entry) (L.held self.old.locker).phase) result.0 }
        ensures running { RunsAfter who.cell result.0 self.old.running (L.held self.old.locker) parks.old self.new.running (L.held self.new.locker) parks.new }
        ensures rows { RowsStayBeside who.party who.cell parks.old parks.new }
        ensures stands { BegunStands who result.0 self.new.running (L.held self.new.locker) parks.new }
        ensures opens { Opens who.cell (reads_begun result.0) (begins_write result.0) (L.held self.old.locker) parks.old (L.held self.new.locker) parks.new }
        ensures left { Left L.held L.place who.cell self.old.locker self.new.locker parks.old parks.new }
    {
        let phase = self.locker.phase();
        let before = self.running;
        let leak = ask.tol.leak;
        let (begun, given) = self.resume(parks, who, ask);
        match reg {
            None => (begun, given),
            Some(registry) => {
                self.settle(parks, who, leak, registry, phase, before, begun, given)
            }
        }
    }

    /// Ends the section of a run, of which `made` tells whether the generator made a value. A failed run publishes its
    /// phase and leaves no lock. Else the phase is published and the call goes on without a lock, or reads on; a call
    /// that wants to write keeps its lock, and the phase is published when that is given back.
    pub fn finish(&mut self, parks: &mut Parks, section: Section, made: bool) -> (Finished, Given)
        requires cell { section.who.cell < length parks.old.readers }
        requires running { IsRunning section self.old.running (L.held self.old.locker) parks.old }
        requires fits { Fits (L.place self.old.locker) (L.held self.old.locker) parks.old section.who.cell }
        requires room { (section.want ≡ Want.Read) × (made ≡ true) → HasFree parks.old }
        ensures finishes { Finishes section made (L.held self.old.locker) parks.old result (L.held self.new.locker) parks.new }
        ensures running { self.new.running ≡ None }
        ensures rows { RowsStay section.who.cell parks.old parks.new }
        ensures stands { FinishedStands section.who.cell result.0 (L.held self.new.locker) parks.new }
        ensures reads { open_reads (L.held self.new.locker) parks.new section.who.cell ≡ reads_finished result.0 }
        ensures left { Left L.held L.place section.who.cell self.old.locker self.new.locker parks.old parks.new }
    {
        let Section {
            who,
            want,
            stays,
            ticket,
        } = section;
        self.running = None;
        let phase = reached(stays, made);
        if !made {
            let given = self.locker.release_write(parks, who.cell, ticket, phase);
            return (Finished::Failed(phase), given);
        }
        self.go_on(parks, who.cell, want, ticket, phase)
    }

    /// Ends the section of a finalizer, of which `fine` tells whether it succeeded. The cell's phase gets the flag of
    /// that outcome and is published, and the lock is given back. The phase is the answer.
    pub fn finish_final(
        &mut self,
        parks: &mut Parks,
        section: Section,
        fine: bool,
    ) -> (Phase, Given)
        requires cell { section.who.cell < length parks.old.readers }
        requires finalizing { IsFinalizing section (L.held self.old.locker) parks.old }
        requires fits { Fits (L.place self.old.locker) (L.held self.old.locker) parks.old section.who.cell }
        ensures finishes { FinishesFinal section fine (L.held self.old.locker) parks.old result (L.held self.new.locker) parks.new }
        ensures running { self.new.running ≡ self.old.running }
        ensures rows { RowsStay section.who.cell parks.old parks.new }
        ensures known { IsKnown result.0 }
        ensures closed { ¬ IsWriteOpen (L.held self.new.locker) parks.new section.who.cell }
        ensures reads { open_reads (L.held self.new.locker) parks.new section.who.cell ≡ 0 }
        ensures left { Left L.held L.place section.who.cell self.old.locker self.new.locker parks.old parks.new }
    {
        let Section {
            who,
            want: _want,
            stays: _stays,
            ticket,
        } = section;
        let left = finalized(self.locker.phase(), fine);
        let given = self.locker.release_write(parks, who.cell, ticket, left);
        (left, given)
    }
}

impl<L: PhaseLocker, G> Phased for LazySequentializer<L, G> {
    ghost phase = { λ s. (L.held s.locker).phase };

    fn phase(this: &Self) -> Phase {
        this.locker.phase()
    }
}
