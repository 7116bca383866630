//! What is read off the rows.

ghost use Rattle.std.specs.Prelude.{◌≡◌, slice_get};
ghost use Rattle.phase_moves.specs.Reading.{AwaitsBy, HoldsBy, RunsBy, run_kept, shown_by, value_drafted, value_kept};

use crate::rows::{GuardRow, Rows, Target};
use phase_locker::PhaseLocker;
use schedule_rules::{Kind, Want};

/// A section that runs.
#[derive(Clone, Copy, PartialEq, Eq, Debug)]
pub struct Running {
    /// The cell.
    pub cell: u32,
    /// What the cell is.
    pub kind: Kind,
    /// What opened the section.
    pub want: Want,
}

/// What the holder of a guard sees.
#[derive(Clone, Copy, PartialEq, Eq, Debug)]
pub struct Held {
    /// The cell of the guard.
    pub cell: u32,
    /// Whether it is a write guard.
    pub writes: bool,
    /// The value: a write guard shows what its holder left there, a read guard what is published.
    pub value: Option<u64>,
}

impl<L: PhaseLocker> Rows<L> {
    /// What the party waits with. `None` where it does not wait.
    pub fn waiting(&self, party: u32) -> Option<Target>
        ensures { AwaitsBy L.held L.place self.now party result }
    {
        match self.parties.get(party as usize) {
            None => None,
            Some(of) => of.waiting,
        }
    }

    /// The published value of a cell.
    fn value(&self, cell: u32) -> Option<u64>
        ensures { result ≡ value_kept (slice_get self.now.cells.items cell) }
    {
        match self.cells.get(cell as usize) {
            None => None,
            Some(row) => row.value,
        }
    }

    /// The value that the holder of a cell's write guard sees.
    fn drafted(&self, cell: u32) -> Option<u64>
        ensures { result ≡ value_drafted (slice_get self.now.cells.items cell) }
    {
        match self.cells.get(cell as usize) {
            None => None,
            Some(row) => row.draft.value,
        }
    }

    /// What runs in a cell.
    fn run(&self, cell: u32) -> Option<Running>
        ensures { result ≡ run_kept cell (slice_get self.now.cells.items cell) }
    {
        match self.cells.get(cell as usize) {
            None => None,
            Some(row) => match &row.run {
                None => None,
                Some(open) => Some(Running {
                    cell,
                    kind: row.plan.kind,
                    want: open.run.want,
                }),
            },
        }
    }

    /// The innermost section that the party runs. `None` where it runs none.
    pub fn innermost(&self, party: u32) -> Option<Running>
        ensures { RunsBy L.held L.place self.now party result }
    {
        match self.parties.get(party as usize) {
            None => None,
            Some(of) => match of.innermost {
                None => None,
                Some(cell) => self.run(cell),
            },
        }
    }

    /// What the party sees by its guard with this number. `None` where it has none.
    pub fn held(&self, party: u32, guard: u32) -> Option<Held>
        ensures { HoldsBy L.held L.place self.now party guard result }
    {
        match self.guards.get(guard as usize) {
            None => None,
            Some(row) => self.shown(party, row),
        }
    }

    /// What the party sees by the guard of this row, where that is its own.
    fn shown(&self, party: u32, row: &GuardRow) -> Option<Held>
        ensures { result ≡ shown_by self.now party row.now }
    {
        match row {
            GuardRow::Free => None,
            GuardRow::Read {
                party: owner,
                cell,
                ..
            } => {
                if *owner != party {
                    return None;
                }
                Some(Held {
                    cell: *cell,
                    writes: false,
                    value: self.value(*cell),
                })
            }
            GuardRow::Write {
                party: owner,
                cell,
                ..
            } => {
                if *owner != party {
                    return None;
                }
                Some(Held {
                    cell: *cell,
                    writes: true,
                    value: self.drafted(*cell),
                })
            }
        }
    }
}
