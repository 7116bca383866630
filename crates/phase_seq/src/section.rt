//! What a call begins, and what the end of a run gives. All of it is this project's own: a call of static_init runs the
//! generator itself and returns a guard.

ghost use Rattle.std.specs.Prelude.{◌≡◌};
ghost use Rattle.phase_seq.specs.Exactly.{is_run};
ghost use Rattle.phase_seq.specs.Registers.{begun_at_once};

use crate::ask::Want;
use phase_bits::Phase;
use phase_locker::{How, ReadTicket, Who, WriteTicket};

/// An open section in which the generator of a cell, or its finalizer, is to be run. It is spent by `finish` or
/// `finish_final`.
pub struct Section {
    pub(crate) who: Who,
    pub(crate) want: Want,
    // The flags that stay beside those that the end of the section sets.
    pub(crate) stays: Phase,
    pub(crate) ticket: WriteTicket,
}

impl Section {
    /// The cell, and the party that runs its generator or finalizer.
    pub fn who(&self) -> Who
        ensures { result ≡ self.now.who }
    {
        self.who
    }

    /// What the call wants that opened the section.
    pub fn want(&self) -> Want
        ensures { result ≡ self.now.want }
    {
        self.want
    }
}

/// The section of a call.
pub(crate) fn section_by(who: Who, want: Want, stays: Phase, ticket: WriteTicket) -> Section
    ensures { result ≡ record { who = who; want = want; stays = stays; ticket = ticket } }
{
    Section {
        who,
        want,
        stays,
        ticket,
    }
}

/// The answer to a call.
pub enum Begun {
    /// The call is barred, and waits in this way until its party calls again.
    Wait(How),
    /// The call is barred, and does not wait.
    Missed,
    /// The call asks for a run of the generator that its own party is running.
    Cyclic,
    /// No lock is left, and nothing is to be run: the phase of the cell.
    Nothing(Phase),
    /// A read lock, and the phase of the cell.
    Read(ReadTicket, Phase),
    /// A write lock, and the phase of the cell. Where the cell could not be registered, it is the phase that says so, and
    /// is to be published by giving the lock back with it.
    Write(WriteTicket, Phase),
    /// The generator is to be run, and `finish` to be told its outcome.
    Run(Section),
    /// The finalizer is to be run, and `finish_final` to be told its outcome.
    Final(Section),
}

impl Begun {
    /// Whether the generator is to be run.
    pub(crate) fn is_run(&self) -> bool
        ensures { result ≡ is_run self.now }
    {
        matches!(self, Begun::Run(_))
    }
}

/// The answer to the end of a run, with the phase that the run reached.
pub enum Finished {
    /// The call has what it wants. No lock is left.
    Phase(Phase),
    /// A read lock. The phase is published.
    Read(ReadTicket, Phase),
    /// A write lock. The phase is to be published by giving it back with this phase.
    Write(WriteTicket, Phase),
    /// The run failed. No lock is left.
    Failed(Phase),
}

impl Finished {
    /// What is begun by a call that has a section at once.
    pub(crate) fn at_once(self) -> Begun
        ensures { result ≡ begun_at_once self }
    {
        match self {
            Finished::Phase(phase) | Finished::Failed(phase) => Begun::Nothing(phase),
            Finished::Read(ticket, phase) => Begun::Read(ticket, phase),
            Finished::Write(ticket, phase) => Begun::Write(ticket, phase),
        }
    }
}
