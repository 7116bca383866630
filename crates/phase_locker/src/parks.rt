//! The rows of the parties, and who is parked.

ghost use Rattle.std.specs.Prelude.{◌≡◌, ◌≢◌, ◌<◌, ◌↔◌, IfOk, IfSome, IsNone, not, true, false, length};
ghost use Rattle.phase_bits.specs.Records.{readers_limit};
ghost use Rattle.phase_locker.specs.declared.ways.Waiting.{Waiting};
ghost use Rattle.phase_locker.specs.declared.ways.Waiting.TheVariants.{Free, ParkedRead};
ghost use Rattle.phase_locker.specs.Rows.{Rows, IsSound, no_rows, row_of, readers_of, writers_of, is_empty, is_parked, first_of, occurs, put, park_reader, park_writer, freed, left, rows_to_readers, rows_to_writer};
ghost use Rattle.phase_locker.specs.Links.{writer_left};

use crate::links::{EMPTY, Link, Queues, UNLINKED, append, share, unlink};
use crate::ways::{FREE, Row, Waiting};
use std::alloc::{AllocError, Global};
use std::marker::Model;

#[cfg(test)]
mod tests;

/// How each party waits, and which calls of each cell are parked, in order of parking. This project's own: static_init
/// parks threads in queues of the platform.
///
/// A contract sees a row for each party, and for each cell the list of its parked readers and that of its parked
/// writers. Only `new` takes memory.
///
/// A party is in one list at most, so that it has one link, beside its row: a call that does not park reads and writes
/// rows alone.
#[derive(Drop)]
pub struct Parks {
    rows: Vec<Row>,
    links: Vec<Link>,
    queues: Vec<Queues>,
}

impl Model for Parks {
    ghost use Rattle.phase_locker.specs.Rows.{Rows};
    ghost use Rattle.phase_locker.specs.Links.{seen, IsShown};

    ghost Value = { Rows };

    ghost view = { λ p. seen p.rows.items p.links.items p.queues.items };

    ghost invariant = { λ p. IsShown p.links.items p.queues.items (seen p.rows.items p.links.items p.queues.items) };
}

impl Parks {
    /// Rows for so many cells and parties, of which nobody waits. Parties are below 2^20.
    ///
    /// # Errors
    ///
    /// `AllocError` where memory is short.
    pub fn new(alloc: Global, cells: u32, parties: u32) -> Result<Parks, AllocError>
        requires { parties < readers_limit }
        ensures { IfOk result (λ p. p ≡ no_rows cells parties) }
    {
        let rows = Vec::from_elem(alloc, FREE, parties as usize)?;
        let links = Vec::from_elem(alloc, UNLINKED, parties as usize)?;
        let empty = Queues {
            readers: EMPTY,
            writers: EMPTY,
        };
        let queues = Vec::from_elem(alloc, empty, cells as usize)?;
        Ok(Parks {
            rows,
            links,
            queues,
        })
    }

    /// How this party waits.
    pub fn waiting(&self, party: u32) -> Waiting
        requires { party < length self.now.rows }
        ensures waiting { result ≡ (row_of self.now party).waiting }
        ensures sound { IsSound self.now }
    {
        self.rows[party as usize].waiting
    }

    /// The cell at which this party waits.
    pub fn cell_of(&self, party: u32) -> u32
        requires party { party < length self.now.rows }
        requires waits { (row_of self.now party).waiting ≢ Free }
        ensures { result ≡ (row_of self.now party).cell }
    {
        self.rows[party as usize].cell
    }

    /// How many cells there are.
    #[cfg(test)]
    pub(crate) fn cells(&self) -> usize
        ensures { result ≡ length self.now.readers }
    {
        self.queues.len()
    }

    /// The rows of the parties.
    #[cfg(test)]
    pub(crate) fn rows(&self) -> &[Row]
        ensures { result.now ≡ self.now.rows }
    {
        &self.rows
    }

    /// Says that the lists go with the rows, and does nothing.
    pub(crate) fn be_sound(&self)
        ensures { IsSound self.now }
    {
        let _rows = &self.rows;
    }

    /// Whether a reader is parked at this cell.
    pub(crate) fn has_readers(&self, cell: u32) -> bool
        requires { cell < length self.now.readers }
        ensures readers { result ≡ not (is_empty (readers_of self.now cell)) }
        ensures sound { IsSound self.now }
    {
        self.queues[cell as usize].readers.count != 0
    }

    /// The writer that has been parked at this cell for longest.
    pub(crate) fn first_writer(&self, cell: u32) -> Option<u32>
        requires { cell < length self.now.readers }
        ensures first { result ≡ first_of (writers_of self.now cell) }
        ensures writer { IfSome result (λ p. occurs p (writers_of self.now cell) ≡ 1) }
        ensures nobody { IsNone result ↔ (is_empty (writers_of self.now cell) ≡ true) }
    {
        let writers = self.queues[cell as usize].writers;
        (writers.count != 0).then_some(writers.first)
    }

    /// Whether a writer is parked at this cell.
    pub(crate) fn has_writers(&self, cell: u32) -> bool
        requires { cell < length self.now.readers }
        ensures { result ≡ not (is_empty (writers_of self.now cell)) }
    {
        self.queues[cell as usize].writers.count != 0
    }

    /// The party waits at this cell without being parked.
    pub(crate) fn put(&mut self, waiting: Waiting, cell: u32, party: u32)
        requires party { party < length self.old.rows }
        requires free { (row_of self.old party).waiting ≡ Free }
        requires waiting { is_parked waiting ≡ false }
        ensures { self.new ≡ put waiting cell party self.old }
    {
        self.rows[party as usize] = Row { waiting, cell };
    }

    /// The party parks at this cell as a reader.
    pub(crate) fn park_reader(&mut self, cell: u32, party: u32)
        requires cell { cell < length self.old.readers }
        requires party { party < length self.old.rows }
        requires free { (row_of self.old party).waiting ≡ Free }
        ensures { self.new ≡ park_reader cell party self.old }
    {
        self.rows[party as usize] = Row {
            waiting: Waiting::ParkedRead,
            cell,
        };
        let queue = &mut self.queues[cell as usize].readers;
        append(&mut self.links, queue, party);
    }

    /// The party parks at this cell as a writer.
    pub(crate) fn park_writer(&mut self, cell: u32, party: u32)
        requires cell { cell < length self.old.readers }
        requires party { party < length self.old.rows }
        requires free { (row_of self.old party).waiting ≡ Free }
        ensures { self.new ≡ park_writer cell party self.old }
    {
        self.rows[party as usize] = Row {
            waiting: Waiting::ParkedWrite,
            cell,
        };
        let queue = &mut self.queues[cell as usize].writers;
        append(&mut self.links, queue, party);
    }

    /// The party leaves the parked readers of this cell, and waits no longer.
    fn leave_readers(&mut self, cell: u32, party: u32)
        requires cell { cell < length self.old.readers }
        requires parked { occurs party (readers_of self.old cell) ≡ 1 }
        ensures { self.new ≡ left ParkedRead cell party self.old }
    {
        self.rows[party as usize] = FREE;
        let queue = &mut self.queues[cell as usize].readers;
        unlink(&mut self.links, queue, party);
    }

    /// The party leaves the parked writers of this cell, and its row becomes this one.
    fn leave_writers(&mut self, cell: u32, party: u32, row: Row)
        requires cell { cell < length self.old.readers }
        requires parked { occurs party (writers_of self.old cell) ≡ 1 }
        requires row { is_parked row.waiting ≡ false }
        ensures { self.new ≡ writer_left row cell party self.old }
    {
        self.rows[party as usize] = row;
        let queue = &mut self.queues[cell as usize].writers;
        unlink(&mut self.links, queue, party);
    }

    /// The party waits no longer.
    pub(crate) fn free(&mut self, party: u32)
        requires { party < length self.old.rows }
        ensures { self.new ≡ freed party self.old }
    {
        let row = self.rows[party as usize];
        match row.waiting {
            Waiting::ParkedRead => self.leave_readers(row.cell, party),
            Waiting::ParkedWrite => self.leave_writers(row.cell, party, FREE),
            _ => self.rows[party as usize] = FREE,
        }
    }

    /// Gives a write share to a parked writer of this cell.
    pub(crate) fn give_writer(&mut self, cell: u32, party: u32)
        requires cell { cell < length self.old.readers }
        requires parked { occurs party (writers_of self.old cell) ≡ 1 }
        ensures { self.new ≡ rows_to_writer cell party self.old }
    {
        let share = Row {
            waiting: Waiting::ShareWrite,
            cell,
        };
        self.leave_writers(cell, party, share);
    }

    /// Gives a read share to each parked reader of this cell. Answers how many there were.
    pub(crate) fn give_readers(&mut self, cell: u32) -> u32
        requires { cell < length self.old.readers }
        ensures rows { self.new ≡ rows_to_readers cell self.old }
        ensures count { result ≡ length (readers_of self.old cell) }
        ensures few { result < readers_limit }
    {
        let queue = self.queues[cell as usize].readers;
        share(&mut self.rows, &self.links, queue, cell);
        self.queues[cell as usize].readers = EMPTY;
        queue.count
    }
}
