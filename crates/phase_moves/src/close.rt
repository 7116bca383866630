//! The end of the rows: what is open is given back, guards by the moves of releases, sections by their sequentializers.

ghost use Rattle.std.specs.Prelude.{◌≡◌, ◌<◌, ◌^◌, [], length};
ghost use Rattle.phase_moves.specs.Closing.{CanClose, IsPopped, AreClosing, IsClosing, IsOpenRun, StayBeside};

use crate::calls::{finish, finish_final, release_read, release_write};
use crate::rows::{CellRow, Exit, GuardRow, OpenRun, Rows};
use phase_locker::{Parks, PhaseLocker};
use phase_seq::{Finished, LazySequentializer, Section};
use schedule_rules::{Turned, Want};

impl<L: PhaseLocker> Rows<L> {
    /// Gives back what is open, and ends the rows. The turns of the exit that ended are left. It takes no memory.
    pub fn close(mut self) -> Vec<Turned>
        requires can { CanClose L.held L.place self }
        requires few { length self.cells.items < 2 ^ 32 }
        ensures { result.items ≡ self.exit.turns.items }
    {
        self.close_guards();
        let Rows {
            cells,
            mut guards,
            parties: _,
            mut parks,
            exit,
        } = self;
        guards.destroy_empty();
        close_cells(cells, &mut parks);
        let Exit {
            registry: _,
            owner: _,
            turns,
        } = exit;
        turns
    }

    /// Gives every guard back, the latest first.
    fn close_guards(&mut self)
        requires { CanClose L.held L.place self.old }
        ensures can { CanClose L.held L.place self.new }
        ensures none { self.new.guards.items ≡ [] }
        ensures cells { length self.new.cells.items ≡ length self.old.cells.items }
        ensures turns { self.new.exit.turns.items ≡ self.old.exit.turns.items }
    {
        while let Some(row) = self.guards.pop() {
            self.close_guard(row);
        }
    }

    /// Gives the guard of this row back, where there is one. It was that of the latest step.
    fn close_guard(&mut self, row: GuardRow)
        requires { IsPopped L.held L.place row self.old }
        ensures can { CanClose L.held L.place self.new }
        ensures guards { self.new.guards ≡ self.old.guards }
        ensures cells { length self.new.cells.items ≡ length self.old.cells.items }
        ensures turns { self.new.exit.turns.items ≡ self.old.exit.turns.items }
    {
        match row {
            GuardRow::Free => {}
            GuardRow::Read {
                party: _,
                cell,
                lock,
            } => {
                let _given = self.leave_read(cell, lock);
            }
            GuardRow::Write {
                party: _,
                cell,
                lock,
            } => {
                let _given = self.leave_write(cell, lock);
            }
        }
    }
}

/// Ends the rows of cells, and gives back what runs there.
fn close_cells<L: PhaseLocker>(mut cells: Vec<CellRow<L>>, parks: &mut Parks)
    requires closing { AreClosing L.held L.place parks.old cells.items }
    requires few { length cells.items < 2 ^ 32 }
{
    while let Some(row) = cells.pop() {
        close_cell(cells.len() as u32, row, parks);
    }
    cells.destroy_empty();
}

/// Ends the row of a cell, and gives back what runs there.
fn close_cell<L: PhaseLocker>(cell: u32, row: CellRow<L>, parks: &mut Parks)
    requires { IsClosing L.held L.place cell parks.old row }
    ensures { StayBeside cell parks.old parks.new }
{
    let CellRow {
        plan: _,
        value: _,
        draft: _,
        run,
        waiting: _,
        mut seq,
    } = row;
    match run {
        None => {}
        Some(open) => {
            let OpenRun { run, section } = open;
            close_run(cell, &mut seq, parks, run.want, section);
        }
    }
}

/// Gives a section back, as one that failed.
fn close_run<L: PhaseLocker>(
    cell: u32,
    seq: &mut LazySequentializer<L, ()>,
    parks: &mut Parks,
    want: Want,
    section: Section,
)
    requires { IsOpenRun L.held L.place cell parks.old seq.old want section }
    ensures { StayBeside cell parks.old parks.new }
{
    match want {
        Want::Turns => {
            let (_phase, _given) = finish_final(seq, parks, section, false);
        }
        Want::Calls(_) => {
            let (finished, _given) = finish(seq, parks, section, false);
            match finished {
                Finished::Failed(_) => {}
                Finished::Phase(_) => {}
                Finished::Read(lock, _) => {
                    let _given = release_read(seq, parks, cell, lock);
                }
                Finished::Write(lock, phase) => {
                    let _given = release_write(seq, parks, cell, lock, phase);
                }
            }
        }
    }
}
