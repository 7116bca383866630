//! The ends of sections.

ghost use Rattle.std.specs.Prelude.{◌≡◌, None};
ghost use Rattle.schedule_rules.specs.Phases.{value_finalized};
ghost use Rattle.phase_moves.specs.Ends.{MayEnd, Ends, MayFinalize, Finalizes};
ghost use Rattle.phase_moves.specs.Moves.{KeptGuards};
ghost use Rattle.phase_moves.specs.Standing.{turn_of};

use crate::calls::{finish, finish_final};
use crate::rows::{CellRow, Draft, OpenRun, Rows};
use phase_bits::Phase;
use phase_locker::{Given, PhaseLocker};
use phase_seq::Finished;
use schedule_rules::{Kind, Turn, Turned};

/// How the turn ends whose finalizer succeeded, or failed.
fn turn_of(fine: bool) -> Turn
    ensures { result ≡ turn_of fine }
{
    if fine { Turn::Done } else { Turn::Failed }
}

/// The value of a cell of this kind once its finalizer left this: a hard kind keeps no other.
fn value_finalized(kind: Kind, left: Option<u64>, value: Option<u64>) -> Option<u64>
    ensures { result ≡ value_finalized kind left value }
{
    if kind.is_hard() { left } else { value }
}

impl<L> CellRow<L> {
    /// The section that runs, which is gone from the row then.
    fn take_run(&mut self) -> Option<OpenRun>
        ensures row { self.new ≡ record self.old { run = None } }
        ensures run { result ≡ self.old.run }
    {
        self.run.take()
    }
}

impl<L: PhaseLocker> Rows<L> {
    /// The run of the party in this cell ends, with this made or failing, and its call goes on as it wants. `None` where
    /// nothing runs there.
    pub fn end(&mut self, party: u32, cell: u32, made: Option<u64>) -> Option<(Finished, Given)>
        requires { MayEnd L.held L.place self.old party cell made }
        ensures ends { Ends L.held L.place self.old party cell made result self.new }
        ensures kept { KeptGuards self.old self.new }
    {
        let row = &mut self.cells[cell as usize];
        let Some(open) = row.take_run() else {
            return None;
        };
        let OpenRun { run, section } = open;
        let (finished, given) = finish(&mut row.seq, &mut self.parks, section, made.is_some());
        self.parties[party as usize].innermost = run.outer;
        match finished {
            Finished::Phase(phase) => {
                row.value = made;
                Some((Finished::Phase(phase), given))
            }
            Finished::Read(lock, phase) => {
                row.value = made;
                Some((Finished::Read(lock, phase), given))
            }
            Finished::Write(lock, phase) => {
                row.draft = Draft { phase, value: made };
                Some((Finished::Write(lock, phase), given))
            }
            Finished::Failed(phase) => Some((Finished::Failed(phase), given)),
        }
    }

    /// The finalizer that the party runs in this cell ends and leaves this, and its turn ends with it. `None` where
    /// nothing runs there.
    pub fn finalize(
        &mut self,
        party: u32,
        cell: u32,
        fine: bool,
        left: Option<u64>,
    ) -> Option<(Phase, Given)>
        requires { MayFinalize L.held L.place self.old party cell }
        ensures finalizes { Finalizes L.held L.place self.old party cell fine left result self.new }
        ensures kept { KeptGuards self.old self.new }
    {
        let row = &mut self.cells[cell as usize];
        let Some(open) = row.take_run() else {
            return None;
        };
        let OpenRun { run, section } = open;
        let (phase, given) = finish_final(&mut row.seq, &mut self.parks, section, fine);
        row.value = value_finalized(row.plan.kind, left, row.value);
        self.parties[party as usize].innermost = run.outer;
        let turn = turn_of(fine);
        self.exit.turns.push_reserved(Turned { cell, turn });
        Some((phase, given))
    }
}
