//! The attempt of a call, and what it begins.

ghost use Rattle.std.specs.Prelude.{◌≡◌, true, false};
ghost use Rattle.phase_locker.specs.Fits.{Fits};
ghost use Rattle.phase_locker.specs.Others.{RowsStayBeside};
ghost use Rattle.phase_locker.specs.Stands.{MayCall, MayCallAgain, Opens};
ghost use Rattle.phase_locker.specs.Left.{Left};
ghost use Rattle.phase_seq.specs.Asks.{nature_of};
ghost use Rattle.phase_seq.specs.Begins.{Begins, Resumes, is_cyclic, begun_of, begun_by, begun_tried, running_after};
ghost use Rattle.phase_seq.specs.Registers.{RunsAlone};
ghost use Rattle.phase_seq.specs.Stands.{BegunStands, RunsAfter, reads_begun, begins_write};
ghost use Rattle.phase_seq.specs.Exactly.{BeginsExactly, ResumesExactly};

use crate::ask::Ask;
use crate::section::{Begun, section_by};
use crate::sequentializer::LazySequentializer;
use phase_bits::Phase;
use phase_locker::{
    Attempt, Given, LockNature, LockResult, Parks, PhaseLocker, ReadTicket, Who, WriteTicket,
};

impl<L: PhaseLocker, G> LazySequentializer<L, G> {
    /// A call of a party that does not wait, before any registration: that is the whole call on a cell without a registry.
    #[inline(always)]
    pub(crate) fn enter(&mut self, parks: &mut Parks, who: Who, ask: Ask) -> (Begun, Given)
        requires calls { MayCall who parks.old }
        requires fits { Fits (L.place self.old.locker) (L.held self.old.locker) parks.old who.cell }
        ensures begins { Begins (L.place self.old.locker) who ask self.old.running (L.held self.old.locker) parks.old result (L.held self.new.locker) parks.new }
        ensures exactly { BeginsExactly who ask self.old.running (L.held self.old.locker) false result.0 }
        ensures running { RunsAfter who.cell result.0 self.old.running (L.held self.old.locker) parks.old self.new.running (L.held self.new.locker) parks.new }
        ensures rows { RowsStayBeside who.party who.cell parks.old parks.new }
        ensures stands { BegunStands who result.0 self.new.running (L.held self.new.locker) parks.new }
        ensures opens { Opens who.cell (reads_begun result.0) (begins_write result.0) (L.held self.old.locker) parks.old (L.held self.new.locker) parks.new }
        ensures alone { RunsAlone who.cell (L.held self.old.locker) parks.old result.0 result.1 }
        ensures given { result.1 ≡ Given.Nobody }
        ensures left { Left L.held L.place who.cell self.old.locker self.new.locker parks.old parks.new }
    {
        if self.is_cyclic(who, ask) {
            return (Begun::Cyclic, Given::Nobody);
        }
        let phase = self.locker.phase();
        let how = |p: Phase| -> LockNature
            ensures { result ≡ nature_of ask p }
        { ask.nature(p) };
        if ask.fast {
            let got = self.locker.try_lock(&how);
            return (self.begun_tried(who, ask, phase, got), Given::Nobody);
        }
        let (attempt, given) = self.locker.lock(parks, who, ask.want.wake(), &how);
        (self.begun_by(who, ask, phase, attempt), given)
    }

    /// A call of a party that waits, before any registration: that is the whole call on a cell without a registry.
    #[inline(always)]
    pub(crate) fn resume(&mut self, parks: &mut Parks, who: Who, ask: Ask) -> (Begun, Given)
        requires calls { MayCallAgain who parks.old }
        requires slow { ask.fast ≡ false }
        requires fits { Fits (L.place self.old.locker) (L.held self.old.locker) parks.old who.cell }
        ensures resumes { Resumes (L.place self.old.locker) who ask self.old.running (L.held self.old.locker) parks.old result (L.held self.new.locker) parks.new }
        ensures exactly { ResumesExactly who ask self.old.running (L.held self.old.locker) parks.old false result.0 }
        ensures running { RunsAfter who.cell result.0 self.old.running (L.held self.old.locker) parks.old self.new.running (L.held self.new.locker) parks.new }
        ensures rows { RowsStayBeside who.party who.cell parks.old parks.new }
        ensures stands { BegunStands who result.0 self.new.running (L.held self.new.locker) parks.new }
        ensures opens { Opens who.cell (reads_begun result.0) (begins_write result.0) (L.held self.old.locker) parks.old (L.held self.new.locker) parks.new }
        ensures alone { RunsAlone who.cell (L.held self.old.locker) parks.old result.0 result.1 }
        ensures left { Left L.held L.place who.cell self.old.locker self.new.locker parks.old parks.new }
    {
        if self.is_cyclic(who, ask) {
            return (Begun::Cyclic, Given::Nobody);
        }
        let phase = self.locker.phase();
        let how = |p: Phase| -> LockNature
            ensures { result ≡ nature_of ask p }
        { ask.nature(p) };
        let (attempt, given) = self.locker.again(parks, who, ask.want.wake(), &how);
        (self.begun_by(who, ask, phase, attempt), given)
    }

    /// Whether a call asks for a run of the generator that its own party is running.
    fn is_cyclic(&self, who: Who, ask: Ask) -> bool
        ensures { result ≡ is_cyclic ask.want who.party self.now.running }
    {
        ask.want.initializes() && self.running == Some(who.party)
    }

    /// What an attempt begins.
    #[inline(always)]
    fn begun_by(&mut self, who: Who, ask: Ask, phase: Phase, attempt: Attempt) -> Begun
        ensures begun { result ≡ begun_by who ask phase attempt }
        ensures running { self.new.running ≡ running_after result self.old.running }
        ensures locker { self.new.locker ≡ self.old.locker }
    {
        match attempt {
            Attempt::Wait(how) => Begun::Wait(how),
            Attempt::Got(got) => self.begun_of(who, ask, phase, got),
        }
    }

    /// What a call begins that does not wait.
    fn begun_tried(
        &mut self,
        who: Who,
        ask: Ask,
        phase: Phase,
        got: Option<LockResult<ReadTicket, WriteTicket>>,
    ) -> Begun
        ensures begun { result ≡ begun_tried who ask phase got }
        ensures running { self.new.running ≡ running_after result self.old.running }
        ensures locker { self.new.locker ≡ self.old.locker }
    {
        match got {
            None => Begun::Missed,
            Some(got) => self.begun_of(who, ask, phase, got),
        }
    }

    /// What is begun with what the locker gave at this phase.
    #[inline(always)]
    fn begun_of(
        &mut self,
        who: Who,
        ask: Ask,
        phase: Phase,
        got: LockResult<ReadTicket, WriteTicket>,
    ) -> Begun
        ensures begun { result ≡ begun_of who ask phase got }
        ensures running { self.new.running ≡ running_after result self.old.running }
        ensures locker { self.new.locker ≡ self.old.locker }
    {
        match got {
            LockResult::None(p) => Begun::Nothing(p),
            LockResult::Read(ticket) => Begun::Read(ticket, phase),
            LockResult::Write(ticket) => {
                if ask.asks_run(phase) {
                    self.running = Some(who.party);
                    Begun::Run(section_by(who, ask.want, Phase::empty(), ticket))
                } else if ask.want.finalizes() {
                    Begun::Final(section_by(who, ask.want, phase, ticket))
                } else {
                    Begun::Write(ticket, phase)
                }
            }
        }
    }
}
