//! What becomes of an answer on a cell that is registered for the exit.

ghost use Rattle.std.specs.Prelude.{◌≡◌, ◌+◌, ◌<◌, true, false, Some, length};
ghost use Rattle.phase_bits.specs.Number.{IsKnown};
ghost use Rattle.phase_locker.specs.Rows.{HasFree};
ghost use Rattle.phase_locker.specs.Fits.{Fits, IsWriteOpen, open_reads};
ghost use Rattle.phase_locker.specs.Others.{RowsStay};
ghost use Rattle.phase_locker.specs.Left.{Left};
ghost use Rattle.phase_seq.specs.Asks.{initializes};
ghost use Rattle.phase_seq.specs.Begins.{running_after};
ghost use Rattle.phase_seq.specs.Phases.{staying, refused};
ghost use Rattle.phase_seq.specs.Finishes.{GoesOn};
ghost use Rattle.phase_seq.specs.Registers.{IsEntered, MayTry, RunsOrNot, Settles, after_asking, is_refused};
ghost use Rattle.phase_seq.specs.Stands.{BegunStands, FinishedStands, reads_begun, reads_finished, begins_write};
ghost use Rattle.phase_seq.specs.Exactly.{SettlesExactly, is_run};

use crate::ask::Want;
use crate::phases::{may_generate, refused, without_outcome};
use crate::section::{Begun, Finished, Section, section_by};
use crate::sequentializer::LazySequentializer;
use exit_registry::ExitRegistry;
use phase_bits::Phase;
use phase_locker::{Given, Parks, PhaseLocker, Who, WriteTicket};

/// Tries the registration of a cell whose phase is empty. Answers the flags that stay.
pub(super) fn staying(registry: &mut ExitRegistry, cell: u32, phase: Phase) -> Phase
    requires { MayTry cell phase registry.old }
    ensures phase { result ≡ staying registry.old.is_open phase }
    ensures known { IsKnown result }
    ensures registry { registry.new ≡ after_asking true cell phase registry.old }
{
    if !phase.is_empty() {
        return without_outcome(phase);
    }
    if registry.register(cell) {
        Phase::REGISTERED
    } else {
        Phase::REGISTRATION_REFUSED
    }
}

impl<L: PhaseLocker, G> LazySequentializer<L, G> {
    /// A call that has the lock to write for a section without an error goes on as it wants, at this phase.
    pub(crate) fn go_on(
        &mut self,
        parks: &mut Parks,
        cell: u32,
        want: Want,
        ticket: WriteTicket,
        phase: Phase,
    ) -> (Finished, Given)
        requires cell { cell < length parks.old.readers }
        requires known { IsKnown phase }
        requires asked { initializes want ≡ true }
        requires locked { IsWriteOpen (L.held self.old.locker) parks.old cell }
        requires fits { Fits (L.place self.old.locker) (L.held self.old.locker) parks.old cell }
        requires room { want ≡ Want.Read → HasFree parks.old }
        ensures goes_on { GoesOn want cell phase (L.held self.old.locker) parks.old result (L.held self.new.locker) parks.new }
        ensures running { self.new.running ≡ self.old.running }
        ensures rows { RowsStay cell parks.old parks.new }
        ensures stands { FinishedStands cell result.0 (L.held self.new.locker) parks.new }
        ensures reads { open_reads (L.held self.new.locker) parks.new cell ≡ reads_finished result.0 }
        ensures left { Left L.held L.place cell self.old.locker self.new.locker parks.old parks.new }
    {
        match want {
            Want::Init | Want::Finalize => {
                let given = self.locker.release_write(parks, cell, ticket, phase);
                (Finished::Phase(phase), given)
            }
            Want::Read | Want::ReadOnly => {
                let (read, given) = self.locker.downgrade(parks, cell, ticket, phase);
                (Finished::Read(read, phase), given)
            }
            Want::Write | Want::WriteOnly => (Finished::Write(ticket, phase), Given::Nobody),
        }
    }

    /// A run is asked and admitted: the generator is to run, or the cell can't be registered, and the section is one at
    /// once. `before` is the party that ran before the call.
    fn run_or_not(
        &mut self,
        parks: &mut Parks,
        section: Section,
        leak: bool,
        registry: &mut ExitRegistry,
        phase: Phase,
        before: Option<u32>,
    ) -> (Begun, Given)
        requires entered { IsEntered section.who before (Begun.Run section) Given.Nobody self.old.running (L.place self.old.locker) (L.held self.old.locker) parks.old }
        requires registry { MayTry section.who.cell phase registry.old }
        ensures runs_or_not { RunsOrNot leak section registry.old phase (L.held self.old.locker) parks.old result (L.held self.new.locker) parks.new }
        ensures registry { registry.new ≡ after_asking true section.who.cell phase registry.old }
        ensures exactly { SettlesExactly (is_refused leak (Some registry.old) phase) (Begun.Run section) result.0 }
        ensures running { self.new.running ≡ running_after result.0 before }
        ensures rows { RowsStay section.who.cell parks.old parks.new }
        ensures stands { BegunStands section.who result.0 self.new.running (L.held self.new.locker) parks.new }
        ensures reads { open_reads (L.held self.new.locker) parks.new section.who.cell ≡ open_reads (L.held self.old.locker) parks.old section.who.cell + reads_begun result.0 }
        ensures closes { begins_write result.0 ≡ false → ¬ IsWriteOpen (L.held self.new.locker) parks.new section.who.cell }
        ensures left { Left L.held L.place section.who.cell self.old.locker self.new.locker parks.old parks.new }
    {
        let Section {
            who,
            want,
            stays: _stays,
            ticket,
        } = section;
        let stays = staying(registry, who.cell, phase);
        if may_generate(leak, stays) {
            let section = section_by(who, want, stays, ticket);
            return (Begun::Run(section), Given::Nobody);
        }
        self.running = before;
        let (finished, given) = self.go_on(parks, who.cell, want, ticket, refused());
        (finished.at_once(), given)
    }

    /// What becomes of an answer: where a run is asked and admitted, the cell is registered before the generator runs.
    pub(crate) fn settle(
        &mut self,
        parks: &mut Parks,
        who: Who,
        leak: bool,
        registry: &mut ExitRegistry,
        phase: Phase,
        before: Option<u32>,
        begun: Begun,
        given: Given,
    ) -> (Begun, Given)
        requires entered { IsEntered who before begun given self.old.running (L.place self.old.locker) (L.held self.old.locker) parks.old }
        requires registry { is_run begun ≡ true → MayTry who.cell phase registry.old }
        ensures settles { Settles leak registry.old phase (begun, given) (L.held self.old.locker) parks.old result (L.held self.new.locker) parks.new }
        ensures still { is_run begun ≡ false → (result ≡ (begun, given)) × (L.held self.new.locker ≡ L.held self.old.locker) × (parks.new ≡ parks.old) × (self.new.running ≡ self.old.running) }
        ensures registry { registry.new ≡ after_asking (is_run begun) who.cell phase registry.old }
        ensures exactly { SettlesExactly (is_refused leak (Some registry.old) phase) begun result.0 }
        ensures running { self.new.running ≡ running_after result.0 before }
        ensures rows { RowsStay who.cell parks.old parks.new }
        ensures stands { BegunStands who result.0 self.new.running (L.held self.new.locker) parks.new }
        ensures reads { open_reads (L.held self.new.locker) parks.new who.cell + reads_begun begun ≡ open_reads (L.held self.old.locker) parks.old who.cell + reads_begun result.0 }
        ensures closes { is_run begun ≡ true → begins_write result.0 ≡ false → ¬ IsWriteOpen (L.held self.new.locker) parks.new who.cell }
        ensures left { Left L.held L.place who.cell self.old.locker self.new.locker parks.old parks.new }
    {
        match begun {
            Begun::Run(section) => {
                self.run_or_not(parks, section, leak, registry, phase, before)
            }
            settled => (settled, given),
        }
    }
}
