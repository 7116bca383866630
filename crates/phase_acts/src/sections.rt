//! The outcomes of generators and finalizers.

ghost use Rattle.std.specs.Prelude.{◌≡◌};
ghost use Rattle.std.specs.Option.{unwrap_or};
ghost use Rattle.schedule_rules.specs.Exits.{finishing};
ghost use Rattle.schedule_rules.specs.Forms.{form_of};
ghost use Rattle.schedule_rules.specs.Phases.{finishes_so};
ghost use Rattle.phase_moves.specs.Meets.{takes_none};
ghost use Rattle.phase_acts.specs.Steps.{MayAct, Acts, answer_back, outcome};

use crate::machine::Machine;
use lazy_cells::primed;
use phase_bits::Phase;
use phase_locker::PhaseLocker;
use phase_moves::GuardRow;
use phase_seq::Finished;
use schedule_rules::{Answer, Call, Form, Kind, Line, Refusal, Want, form_of};

/// Whether a call of cells of this kind keeps no lock.
fn takes_none(kind: Kind, call: Call) -> bool
    ensures { result ≡ takes_none (form_of kind call) }
{
    match form_of(kind, call) {
        Form::Told { .. } | Form::Shown => true,
        Form::Held { .. } => false,
    }
}

/// The answer of a call whose run made this value and reached this phase, and which keeps no lock.
fn told(kind: Kind, call: Call, made: Option<u64>, phase: Phase) -> Answer
    ensures { result ≡ answer_back (form_of kind call) (unwrap_or made 0) phase }
{
    match form_of(kind, call) {
        Form::Shown => Answer::Value(made.unwrap_or(0)),
        Form::Told { .. } | Form::Held { .. } => Answer::Phase(phase),
    }
}

/// Whether a finalizer of this kind may end so: it succeeds or fails, and leaves a value or none.
fn finishes_so(kind: Kind, fine: bool, left: Option<u64>) -> bool
    ensures { result ≡ finishes_so kind fine left }
{
    let hard = kind.is_hard();
    let primed = primed(kind);
    let leaves = hard & primed;
    let may_fail = !hard | primed;
    (leaves == left.is_some()) & (fine | may_fail)
}

impl<L: PhaseLocker> Machine<L> {
    /// The generator of the party's innermost section made this value, or failed.
    pub(crate) fn outcome(&mut self, party: u32, made: Option<u64>) -> Line
        requires { MayAct L.held L.place self.old.rows party (outcome made) }
        ensures { Acts L.held L.place self.old.rows party (outcome made) result self.new.rows }
    {
        let Some(run) = self.rows.innermost(party) else {
            return self.refuse(Refusal::NoSection);
        };
        let cell = run.cell;
        let Want::Calls(call) = run.want else {
            return self.refuse(Refusal::NoOutcome);
        };
        let Some((finished, given)) = self.rows.end(party, cell, made) else {
            return self.refuse(Refusal::NoSection);
        };
        match finished {
            Finished::Phase(phase) => {
                self.end_step(GuardRow::Free, told(run.kind, call, made, phase), given)
            }
            Finished::Read(lock, _phase) => {
                let row = GuardRow::Read { party, cell, lock };
                self.end_step(row, Answer::ReadGuard, given)
            }
            Finished::Write(lock, phase) => {
                if takes_none(run.kind, call) {
                    let given = self.rows.leave_write(cell, lock);
                    return self.end_step(GuardRow::Free, told(run.kind, call, made, phase), given);
                }
                let row = GuardRow::Write { party, cell, lock };
                self.end_step(row, Answer::WriteGuard, given)
            }
            Finished::Failed(_phase) => self.end_step(GuardRow::Free, Answer::Failed, given),
        }
    }

    /// The finalizer of the party's innermost section succeeded, or failed, and left this.
    pub(crate) fn finish(&mut self, party: u32, fine: bool, left: Option<u64>) -> Line
        requires { MayAct L.held L.place self.old.rows party (finishing fine left) }
        ensures { Acts L.held L.place self.old.rows party (finishing fine left) result self.new.rows }
    {
        let Some(run) = self.rows.innermost(party) else {
            return self.refuse(Refusal::NoSection);
        };
        let Want::Turns = run.want else {
            return self.refuse(Refusal::NoOutcome);
        };
        if !finishes_so(run.kind, fine, left) {
            return self.refuse(Refusal::NoOutcome);
        }
        match self.rows.finalize(party, run.cell, fine, left) {
            Some((phase, given)) => self.end_step(GuardRow::Free, Answer::Phase(phase), given),
            None => self.refuse(Refusal::NoSection),
        }
    }
}
