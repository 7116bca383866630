//! Who calls a locker, how a barred call waits, and what parked calls are given.

ghost use Rattle.std.specs.Prelude.{◌≡◌};
ghost use Rattle.phase_locker.specs.Rows.{reads_at, writes_at, is_parked};

/// Where the calls of a locker wait. This project's own: static_init has a type for each.
#[derive(Clone, Copy, PartialEq, Eq, Debug)]
pub enum LockerKind {
    /// Barred calls park in lists, and a lock that nobody holds any more is handed to them.
    Park,
    /// Barred calls ask again and again, and nothing is handed over.
    Spin,
    /// The cell belongs to one party.
    Own,
}

/// A cell, and the party that calls it. This project's own, as all types of this file.
#[derive(Clone, Copy, PartialEq, Eq, Debug)]
pub struct Who {
    /// The number of the cell.
    pub cell: u32,
    /// The number of the party.
    pub party: u32,
}

/// How a barred call waits.
#[derive(Clone, Copy, PartialEq, Eq, Debug)]
pub enum How {
    /// It asks again.
    Spin,
    /// It is parked, and is woken to read.
    ParkedRead,
    /// It is parked, and is woken to write.
    ParkedWrite,
    /// It wants to write, and keeps others out while the readers leave.
    Drain,
}

/// What a call gave to those that are parked.
#[derive(Clone, Copy, PartialEq, Eq, Debug)]
pub enum Given {
    /// Nothing.
    Nobody,
    /// The write lock, to this party.
    Writer(u32),
    /// A read lock, to each parked reader of the cell.
    Readers,
}

/// How a party waits, as its row of `Parks` says.
#[derive(Clone, Copy, PartialEq, Eq, Debug)]
pub enum Waiting {
    /// It does not wait.
    Free,
    /// It asks again.
    Spin,
    /// It is parked as a reader.
    ParkedRead,
    /// It is parked as a writer.
    ParkedWrite,
    /// It drains the readers.
    Drain,
    /// It was parked as a reader, and has been given a read lock.
    ShareRead,
    /// It was parked as a writer, and has been given the write lock.
    ShareWrite,
}

/// The row of a party: how it waits, and at which cell. The row of a party that does not wait names cell 0.
#[derive(Clone, Copy, PartialEq, Eq, Debug)]
pub struct Row {
    /// How it waits.
    pub waiting: Waiting,
    /// The cell that it waits at.
    pub cell: u32,
}

/// The row of a party that does not wait.
pub(crate) const FREE: Row = Row {
    waiting: Waiting::Free,
    cell: 0,
};

impl Row {
    /// Whether it is the row of a parked reader of this cell.
    pub(crate) fn reads_at(&self, cell: u32) -> bool
        ensures { result ≡ reads_at cell self.now }
    {
        self.waiting == Waiting::ParkedRead && self.cell == cell
    }

    /// Whether it is the row of a parked writer of this cell.
    pub(crate) fn writes_at(&self, cell: u32) -> bool
        ensures { result ≡ writes_at cell self.now }
    {
        self.waiting == Waiting::ParkedWrite && self.cell == cell
    }

    /// Whether it is the row of a party that is in a list.
    pub(crate) fn is_parked(&self) -> bool
        ensures { result ≡ is_parked (self.now).waiting }
    {
        self.waiting == Waiting::ParkedRead || self.waiting == Waiting::ParkedWrite
    }
}
