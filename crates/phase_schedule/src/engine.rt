//! The engine: a run that keeps its own steps.

ghost use Rattle.std.specs.Prelude.{◌≡◌, ◌<◌, ◌^◌, ◌∷◌, ◌++◌, [], length, None, IfOk, IfErr};
ghost use Rattle.schedule_rules.specs.Core.{core};
ghost use Rattle.schedule_rules.specs.Exits.{ended_turns};
ghost use Rattle.schedule_rules.specs.Kinds.{cell_at};
ghost use Rattle.schedule_rules.specs.Legal.{IsLegal};
ghost use Rattle.schedule_rules.specs.Transcripts.{AreFinals, NamesKnown};
ghost use Rattle.schedule_rules.specs.Waits.{waits};
ghost use Rattle.phase_schedule.specs.Errors.{cause_of_plan, IsCause};
ghost use Rattle.phase_schedule.specs.Known.{AreKnown, TellsKnown};
ghost use Rattle.phase_schedule.specs.Standing.{history};
ghost use Rattle.phase_schedule.specs.Shown.{Shows};
ghost use Rattle.phase_schedule.specs.Stands.{kind_at};
ghost use Rattle.phase_schedule.specs.Progress.{TakesPlaces};

use crate::cause::plan_cause;
use crate::ending::Ending;
use crate::error::RunError;
use crate::progress::Progress;
use phase_locker::{Parks, PhaseLocker};
use schedule_rules::{Line, Plan, Step, Transcript};
use std::alloc::Global;
use std::marker::Model;

/// A schedule that runs, step by step, over lockers of this type. It is spent by `finish`. This project's own, as its
/// calls are.
///
/// A contract sees its parties, its cells, how many steps it has room for, and the steps so far with their lines.
pub struct Engine<L: PhaseLocker> {
    progress: Progress<L>,
    steps: Vec<Step>,
    lines: Vec<Line>,
}

impl<L: PhaseLocker> Model for Engine<L> {
    ghost use Rattle.phase_schedule.specs.Standing.{Standing};

    ghost Value = { Standing };

    ghost use Rattle.phase_schedule.specs.Inside.{standing_of, IsStanding};

    ghost view = { standing_of L.held L.place };

    ghost invariant = { IsStanding L.held L.place };
}

impl<L: PhaseLocker> Engine<L> {
    /// An engine for this plan, with room for so many steps. All memory is taken here.
    ///
    /// # Errors
    ///
    /// `TooManyParties` for 2^20 parties or more, else `BadPlan` at the first cell that can't belong to its party, both asked
    /// before memory is taken; `Memory` where that ran out.
    pub fn new(alloc: Global, plan: &Plan, count: u32) -> Result<Engine<L>, RunError>
        requires cells { length plan.now.cells.items < 2 ^ 32 }
        requires places { TakesPlaces L.takes plan.now.cells.items }
        ensures parties { IfOk result (λ e. e.parties ≡ plan.now.parties) }
        ensures cells { IfOk result (λ e. e.cells ≡ plan.now.cells.items) }
        ensures count { IfOk result (λ e. e.count ≡ count) }
        ensures steps { IfOk result (λ e. e.steps ≡ []) }
        ensures lines { IfOk result (λ e. e.lines ≡ []) }
        ensures known { IfOk result (λ _. cause_of_plan plan.now.parties plan.now.cells.items ≡ None) }
        ensures cause { IfErr result (IsCause (cause_of_plan plan.now.parties plan.now.cells.items)) }
    {
        if let Some(error) = plan_cause(plan) {
            return Err(error);
        }
        let steps = Vec::with_capacity(alloc, count as usize)?;
        let lines = Vec::with_capacity(alloc, count as usize)?;
        let progress = Progress::new(alloc, plan, count)?;
        Ok(Engine {
            progress,
            steps,
            lines,
        })
    }

    /// Makes one step, and answers its line. It takes no memory.
    pub fn step(&mut self, s: &Step) -> Line
        requires known { NamesKnown self.old.parties (length self.old.cells) s.now }
        requires room { length self.old.steps < self.old.count }
        ensures steps { self.new.steps ≡ self.old.steps ++ s.now ∷ [] }
        ensures lines { self.new.lines ≡ self.old.lines ++ result ∷ [] }
        ensures legal { IsLegal self.new.cells (history self.new) }
        ensures known { TellsKnown result.answer }
        ensures parties { self.new.parties ≡ self.old.parties }
        ensures cells { self.new.cells ≡ self.old.cells }
        ensures count { self.new.count ≡ self.old.count }
    {
        let line = self.progress.step(s);
        self.steps.push_reserved(*s);
        self.lines.push_reserved(line);
        line
    }

    /// The locker of a cell, which holds the record of the cell's holders, and is of the kind that the cell's place wants.
    pub fn locker(&self, cell: u32) -> &L
        requires { cell < length self.now.cells }
        ensures held { L.held result.now ≡ core self.now.cells cell (history self.now) }
        ensures place { L.place result.now ≡ kind_at (cell_at self.now.cells cell).place }
    {
        self.progress.machine.rows.cells[cell as usize].seq.locker()
    }

    /// How each party waits, and who is parked at each cell.
    pub fn parks(&self) -> &Parks
        ensures shows { Shows (waits self.now.cells (history self.now)) result.now }
        ensures parties { length result.now.rows ≡ self.now.parties }
        ensures cells { length result.now.readers ≡ length self.now.cells }
    {
        &self.progress.machine.rows.parks
    }

    /// The lines so far, what each cell is left with, and the turns of the exit that ended. What is still open is given
    /// back. It takes no memory.
    pub fn finish(self) -> Transcript
        ensures lines { result.lines.items ≡ self.lines }
        ensures finals { AreFinals result.finals.items self.cells (history self) }
        ensures exits { result.exits.items ≡ ended_turns (history self) }
        ensures known { AreKnown result.finals.items }
        ensures told { length self.lines ≡ length self.steps }
        ensures legal { IsLegal self.cells (history self) }
    {
        let Engine {
            progress,
            steps,
            lines,
        } = self;
        drop(steps);
        let Ending { finals, exits } = progress.finish();
        Transcript {
            lines,
            finals,
            exits,
        }
    }
}
