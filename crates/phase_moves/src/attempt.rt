//! An attempt of a call or a turn.

ghost use Rattle.std.specs.Prelude.{◌≡◌, ◌<◌, true, false, None, Some, is_some};
ghost use Rattle.schedule_rules.specs.Kinds.{is_owned, tolerance_of};
ghost use Rattle.schedule_rules.specs.Transcripts.{most_parties};
ghost use Rattle.phase_moves.specs.declared.rows.Taken.TheVariants.{Runs};
ghost use Rattle.phase_moves.specs.Moves.{KeptGuards};
ghost use Rattle.phase_moves.specs.Tries.{MayAttempt, Attempts, ask_of, draft_after, has_want, opens_section, party_after, party_running, run_after, run_of, taken_of, waiting_after, waiting_with};

use crate::calls::{call, finish_final};
use crate::rows::{CellRow, Draft, OpenRun, PartyRow, Rows, RunRow, Taken, Target};
use phase_locker::{Given, Parks, PhaseLocker, Who};
use phase_seq::{Ask, Begun, Section, Tolerance};
use schedule_rules::{CellPlan, Place, Want};

/// Whether the cell belongs to a party.
fn is_owned(place: Place) -> bool
    ensures { result ≡ is_owned place }
{
    match place {
        Place::Park | Place::Spin => false,
        Place::Own(_) => true,
    }
}

/// What the generator of a cell puts up with.
pub fn tolerance_of(plan: CellPlan) -> Tolerance
    ensures { result ≡ tolerance_of plan }
{
    Tolerance {
        retry: plan.retry,
        leak: plan.leak,
    }
}

/// What is asked of a cell: nothing, where the call looks at the cell as it is. At a cell of its party's own nothing
/// waits, so that the rows of who is parked say of no party that it waits there.
fn ask_of(plan: CellPlan, want: Want) -> Option<Ask>
    requires { has_want plan.kind want ≡ true }
    ensures { result ≡ ask_of plan want }
{
    let tol = tolerance_of(plan);
    let ask = match want {
        Want::Calls(call) => lazy_cells::ask_of(plan.kind, call, tol)?,
        Want::Turns => Ask {
            want: phase_seq::Want::Finalize,
            fast: false,
            tol,
        },
    };
    Some(Ask {
        want: ask.want,
        fast: ask.fast || is_owned(plan.place),
        tol,
    })
}

impl<L: PhaseLocker> CellRow<L> {
    /// Opens a section in a cell where none runs. One that ran would be given back.
    #[inline(always)]
    fn open(&mut self, parks: &mut Parks, run: OpenRun)
        requires { self.old.run ≡ None }
        ensures row { self.new ≡ record self.old { run = Some run } }
        ensures parks { parks.new ≡ parks.old }
    {
        match self.run.replace(run) {
            None => {}
            Some(open) => {
                let OpenRun { run: _, section } = open;
                let (_phase, _given) = finish_final(&mut self.seq, parks, section, false);
            }
        }
    }

    /// The party waits here with this from now on, or waits no longer.
    #[inline(always)]
    fn awaits(&mut self, of: &mut PartyRow, waiting: Option<Target>)
        requires counted { is_some of.old.waiting ≡ true → 0 < self.old.waiting }
        requires few { self.old.waiting < most_parties }
        ensures party { of.new ≡ record of.old { waiting = waiting } }
        ensures row { self.new ≡ record self.old { waiting = waiting_with (is_some of.old.waiting) (is_some waiting) self.old.waiting } }
    {
        if of.waiting.is_some() {
            self.waiting -= 1;
        }
        if waiting.is_some() {
            self.waiting += 1;
        }
        of.waiting = waiting;
    }

    /// The party runs a section here.
    #[inline(always)]
    fn runs(
        &mut self,
        of: &mut PartyRow,
        parks: &mut Parks,
        party: u32,
        target: Target,
        section: Section,
    ) -> Taken
        requires none { self.old.run ≡ None }
        requires counted { is_some of.old.waiting ≡ true → 0 < self.old.waiting }
        requires few { self.old.waiting < most_parties }
        ensures taken { result ≡ Runs }
        ensures party { of.new ≡ party_running target }
        ensures row { self.new ≡ record self.old { run = Some (run_of party target of.old section); waiting = waiting_with (is_some of.old.waiting) false self.old.waiting } }
        ensures parks { parks.new ≡ parks.old }
    {
        let run = RunRow {
            party,
            want: target.want,
            outer: of.innermost,
        };
        self.awaits(of, None);
        of.innermost = Some(target.cell);
        self.open(parks, OpenRun { run, section });
        Taken::Runs
    }

    /// What an attempt of the party took of what it began here.
    #[inline(always)]
    fn takes(
        &mut self,
        of: &mut PartyRow,
        parks: &mut Parks,
        party: u32,
        target: Target,
        begun: Begun,
    ) -> Taken
        requires none { opens_section begun ≡ true → self.old.run ≡ None }
        requires counted { is_some of.old.waiting ≡ true → 0 < self.old.waiting }
        requires few { self.old.waiting < most_parties }
        ensures taken { result ≡ taken_of begun }
        ensures party { of.new ≡ party_after target begun of.old }
        ensures row { self.new ≡ record self.old { run = run_after party target of.old begun self.old.run; waiting = waiting_after begun (is_some of.old.waiting) self.old.waiting; draft = draft_after begun self.old.value self.old.draft } }
        ensures parks { parks.new ≡ parks.old }
    {
        match begun {
            Begun::Wait(how) => {
                self.awaits(of, Some(target));
                Taken::Wait(how)
            }
            Begun::Cyclic => Taken::Cyclic,
            Begun::Missed => Taken::Missed,
            Begun::Nothing(phase) => {
                self.awaits(of, None);
                Taken::Nothing(phase)
            }
            Begun::Read(lock, phase) => {
                self.awaits(of, None);
                Taken::Read(lock, phase)
            }
            Begun::Write(lock, phase) => {
                self.awaits(of, None);
                self.draft = Draft {
                    phase,
                    value: self.value,
                };
                Taken::Write(lock, phase)
            }
            Begun::Run(section) => self.runs(of, parks, party, target, section),
            Begun::Final(section) => self.runs(of, parks, party, target, section),
        }
    }
}

impl<L: PhaseLocker> Rows<L> {
    /// One attempt of a party, which waits at the cell or does not wait. A call that is admitted and asks for a run
    /// registers its cell for the exit, where the cell's kind is registered. A lock that is got is in the hand of the
    /// step then.
    #[inline(always)]
    pub fn attempt(&mut self, party: u32, target: Target, waits: bool) -> (Taken, Given)
        requires { MayAttempt L.held L.place self.old party target waits }
        ensures attempts { Attempts L.held L.place self.old party target waits result self.new }
        ensures kept { KeptGuards self.old self.new }
    {
        let who = Who {
            cell: target.cell,
            party,
        };
        let row = &mut self.cells[target.cell as usize];
        let Some(ask) = ask_of(row.plan, target.want) else {
            return (Taken::Nothing(row.seq.locker().phase()), Given::Nobody);
        };
        let (begun, given) = call(
            &mut row.seq,
            &mut self.parks,
            &mut self.exit.registry,
            row.plan.kind,
            who,
            ask,
            waits,
        );
        let of = &mut self.parties[party as usize];
        let taken = row.takes(of, &mut self.parks, party, target, begun);
        (taken, given)
    }
}
