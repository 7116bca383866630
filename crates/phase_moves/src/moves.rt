//! The moves on guards.

ghost use Rattle.std.specs.Prelude.{◌≡◌, ◌<◌, vec_capacity, length};
ghost use Rattle.phase_moves.specs.Reading.{is_row_of};
ghost use Rattle.phase_moves.specs.Gifts.{GivesRead, GivesWrite, GivesDown};
ghost use Rattle.phase_moves.specs.Moves.{KeptGuards, KeptWith, MayLeaveRead, LeavesRead, MayLeaveWrite, LeavesWrite, Pushes, Takes, MayDowngrade, Downgrades, MayClone, Clones, MaySet, Sets};

use crate::calls::{clone_read, downgrade, release_read, release_write};
use crate::rows::{GuardRow, Rows};
use phase_locker::{Given, PhaseLocker, ReadTicket, WriteTicket};
use std::mem;

impl GuardRow {
    /// Whether it is the row of a guard of the party.
    fn is_of(&self, party: u32) -> bool
        ensures { result ≡ is_row_of party self.now }
    {
        match self {
            GuardRow::Free => false,
            GuardRow::Read { party: owner, .. } => *owner == party,
            GuardRow::Write { party: owner, .. } => *owner == party,
        }
    }
}

impl<L: PhaseLocker> Rows<L> {
    /// The row of the step is pushed. Each step pushes one as it ends.
    pub fn push(&mut self, row: GuardRow)
        requires { length self.old.guards.items < vec_capacity self.old.guards }
        ensures pushes { Pushes L.held L.place self.old row self.new }
        ensures kept { KeptWith 1 self.old self.new }
    {
        self.guards.push_reserved(row);
    }

    /// The guard that the party has by this number is taken into the hand. It is `Free` where the party has none.
    pub fn take(&mut self, party: u32, guard: u32) -> GuardRow
        ensures takes { Takes L.held L.place self.old party guard result self.new }
        ensures kept { KeptWith 0 self.old self.new }
    {
        let Some(row) = self.guards.get(guard as usize) else {
            return GuardRow::Free;
        };
        if !row.is_of(party) {
            return GuardRow::Free;
        }
        mem::replace(&mut self.guards[guard as usize], GuardRow::Free)
    }

    /// The read guard in hand is given back.
    pub fn leave_read(&mut self, cell: u32, lock: ReadTicket) -> Given
        requires { MayLeaveRead L.held L.place self.old cell }
        ensures leaves { LeavesRead L.held L.place self.old cell result self.new }
        ensures gives { GivesRead L.held L.place self.old cell result }
        ensures kept { KeptGuards self.old self.new }
    {
        let row = &mut self.cells[cell as usize];
        release_read(&mut row.seq, &mut self.parks, cell, lock)
    }

    /// The write guard in hand is given back, and what its holder sees is published.
    pub fn leave_write(&mut self, cell: u32, lock: WriteTicket) -> Given
        requires { MayLeaveWrite L.held L.place self.old cell }
        ensures leaves { LeavesWrite L.held L.place self.old cell result self.new }
        ensures gives { GivesWrite L.held L.place self.old cell result }
        ensures kept { KeptGuards self.old self.new }
    {
        let row = &mut self.cells[cell as usize];
        let draft = row.draft;
        row.value = draft.value;
        release_write(&mut row.seq, &mut self.parks, cell, lock, draft.phase)
    }

    /// The write guard in hand is given back, what its holder sees is published, and its holder reads on.
    pub fn downgrade(&mut self, cell: u32, lock: WriteTicket) -> (ReadTicket, Given)
        requires { MayDowngrade L.held L.place self.old cell }
        ensures downgrades { Downgrades L.held L.place self.old cell result.1 self.new }
        ensures gives { GivesDown L.held L.place self.old cell result.1 }
        ensures kept { KeptGuards self.old self.new }
    {
        let row = &mut self.cells[cell as usize];
        let draft = row.draft;
        row.value = draft.value;
        downgrade(&mut row.seq, &mut self.parks, cell, lock, draft.phase)
    }

    /// One more read guard beside this one, unless the readers of its cell are at their limit.
    pub fn clone_guard(&mut self, guard: u32, cell: u32) -> Option<ReadTicket>
        requires { MayClone L.held L.place self.old guard cell }
        ensures clones { Clones L.held L.place self.old guard cell result self.new }
        ensures kept { KeptGuards self.old self.new }
    {
        let GuardRow::Read { lock, .. } = &self.guards[guard as usize] else {
            return None;
        };
        clone_read(&mut self.cells[cell as usize].seq, lock)
    }

    /// The holder of the cell's write guard sets the value, which is published when the guard is given back.
    pub fn set(&mut self, cell: u32, value: u64)
        requires { MaySet L.held L.place self.old cell }
        ensures sets { Sets L.held L.place self.old cell value self.new }
        ensures kept { KeptGuards self.old self.new }
    {
        self.cells[cell as usize].draft.value = Some(value);
    }
}
