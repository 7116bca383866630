//! What becomes of what an attempt took.

ghost use Rattle.std.specs.Prelude.{◌≡◌};
ghost use Rattle.phase_bits.specs.Number.{number};
ghost use Rattle.schedule_rules.specs.Answers.{answer_at};
ghost use Rattle.phase_moves.specs.Meets.{answer_left, answer_missed, answer_running};
ghost use Rattle.phase_moves.specs.Moves.{KeptWith};
ghost use Rattle.phase_moves.specs.declared.rows.Taken.TheVariants as taken;
ghost use Rattle.phase_acts.specs.Settles.{MaySettle, Settles, reads_on, writes_on};

use crate::line::given_first;
use crate::machine::Machine;
use lazy_cells::accessible;
use phase_bits::Phase;
use phase_locker::{Given, PhaseLocker, ReadTicket, WriteTicket};
use phase_moves::{CellRow, GuardRow, Taken, Target};
use schedule_rules::{Answer, Call, Form, Line, Want, form_of};

/// The answer of an attempt that opens a section which runs.
fn opened(target: Target) -> Answer
    ensures { result ≡ answer_running target.cell target.want }
{
    match target.want {
        Want::Calls(_) => Answer::Running,
        Want::Turns => Answer::Finalizing(target.cell),
    }
}

/// The answer of an attempt that is barred and does not wait.
fn missed(want: Want) -> Answer
    ensures { result ≡ answer_missed want }
{
    match want {
        Want::Calls(Call::FastRead | Call::FastWrite | Call::FastTryRead | Call::FastTryWrite) =>
            Answer::Missed,
        Want::Calls(_) | Want::Turns => Answer::Borrowed,
    }
}

/// The answer of a call that is admitted and runs nothing, by its form and by what the cell holds then.
fn answer_at(form: Form, accessible: bool, phase: Phase, value: Option<u64>) -> Answer
    ensures { result ≡ answer_at form accessible (record { phase = number phase; value = value }) }
{
    match form {
        Form::Told { tests } => {
            if tests && !accessible {
                Answer::Access(phase)
            } else {
                Answer::Phase(phase)
            }
        }
        Form::Shown => {
            if accessible {
                Answer::Value(value.unwrap_or(0))
            } else {
                Answer::Access(phase)
            }
        }
        Form::Held { writes, falls_back } => match (accessible, writes, falls_back) {
            (true, true, _) => Answer::WriteGuard,
            (true, false, _) => Answer::ReadGuard,
            (false, _, true) => Answer::ErrGuard,
            (false, _, false) => Answer::Access(phase),
        },
    }
}

/// The answer of an attempt that is admitted and runs nothing, at a cell of this row with this phase.
fn answer_left<L>(row: &CellRow<L>, target: Target, phase: Phase) -> Answer
    ensures { result ≡ answer_left row.now.plan.kind target.cell target.want (record { phase = number phase; value = row.now.value }) }
{
    let kind = row.plan.kind;
    match target.want {
        Want::Calls(call) => {
            let form = form_of(kind, call);
            answer_at(form, accessible(kind, phase), phase, row.value)
        }
        Want::Turns => Answer::Skipped(target.cell),
    }
}

/// Whether the party has a guard to read then.
fn reads_on(answer: Answer) -> bool
    ensures { result ≡ reads_on answer }
{
    matches!(answer, Answer::ReadGuard | Answer::ErrGuard)
}

/// Whether it has a guard to write then.
fn writes_on(answer: Answer) -> bool
    ensures { result ≡ writes_on answer }
{
    matches!(answer, Answer::WriteGuard)
}

impl<L: PhaseLocker> Machine<L> {
    /// The step of an attempt ends, which took this and gave so: a lock that it got is kept in a guard, or given back
    /// where the value may not be accessed.
    #[inline(always)]
    pub(crate) fn settle(&mut self, party: u32, target: Target, taken: Taken, given: Given) -> Line
        requires { MaySettle L.held L.place self.old.rows party target taken given }
        ensures settles { Settles L.held L.place self.old.rows party target taken given result self.new.rows }
        ensures kept { KeptWith 1 self.old.rows self.new.rows }
    {
        match taken {
            Taken::Wait(how) => self.end_step(GuardRow::Free, Answer::Waiting(how), given),
            Taken::Missed => self.end_step(GuardRow::Free, missed(target.want), given),
            Taken::Cyclic => self.end_step(GuardRow::Free, Answer::Cyclic, given),
            Taken::Nothing(phase) => self.settle_nothing(party, target, phase, given),
            Taken::Read(lock, phase) => self.settle_read(party, target, lock, phase, given),
            Taken::Write(lock, phase) => self.settle_write(party, target, lock, phase, given),
            Taken::Runs => self.end_step(GuardRow::Free, opened(target), given),
        }
    }

    /// No lock is left. A turn is skipped.
    fn settle_nothing(&mut self, party: u32, target: Target, phase: Phase, given: Given) -> Line
        requires { MaySettle L.held L.place self.old.rows party target (taken.Nothing phase) given }
        ensures settles { Settles L.held L.place self.old.rows party target (taken.Nothing phase) given result self.new.rows }
        ensures kept { KeptWith 1 self.old.rows self.new.rows }
    {
        let answer = answer_left(&self.rows.cells[target.cell as usize], target, phase);
        match target.want {
            Want::Calls(_) => self.end_step(GuardRow::Free, answer, given),
            Want::Turns => {
                self.rows.skip(target.cell);
                self.end_step(GuardRow::Free, answer, given)
            }
        }
    }

    /// A lock to read is kept, or given back.
    fn settle_read(
        &mut self,
        party: u32,
        target: Target,
        lock: ReadTicket,
        phase: Phase,
        given: Given,
    ) -> Line
        requires { MaySettle L.held L.place self.old.rows party target (taken.Read lock phase) given }
        ensures settles { Settles L.held L.place self.old.rows party target (taken.Read lock phase) given result self.new.rows }
        ensures kept { KeptWith 1 self.old.rows self.new.rows }
    {
        let cell = target.cell;
        let answer = answer_left(&self.rows.cells[cell as usize], target, phase);
        if reads_on(answer) {
            let row = GuardRow::Read { party, cell, lock };
            return self.end_step(row, answer, given);
        }
        let last = self.rows.leave_read(cell, lock);
        let all = given_first(given, last);
        self.end_step(GuardRow::Free, answer, all)
    }

    /// The lock to write is kept, or given back. A call that falls back reads on.
    fn settle_write(
        &mut self,
        party: u32,
        target: Target,
        lock: WriteTicket,
        phase: Phase,
        given: Given,
    ) -> Line
        requires { MaySettle L.held L.place self.old.rows party target (taken.Write lock phase) given }
        ensures settles { Settles L.held L.place self.old.rows party target (taken.Write lock phase) given result self.new.rows }
        ensures kept { KeptWith 1 self.old.rows self.new.rows }
    {
        let cell = target.cell;
        let row = &self.rows.cells[cell as usize];
        let answer = answer_left(row, target, phase);
        if writes_on(answer) {
            let row = GuardRow::Write { party, cell, lock };
            return self.end_step(row, answer, given);
        }
        if reads_on(answer) {
            let (lock, last) = self.rows.downgrade(cell, lock);
            let row = GuardRow::Read { party, cell, lock };
            let all = given_first(given, last);
            return self.end_step(row, answer, all);
        }
        let last = self.rows.leave_write(cell, lock);
        let all = given_first(given, last);
        self.end_step(GuardRow::Free, answer, all)
    }
}
