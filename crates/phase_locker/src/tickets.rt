//! What a call wants of a locker, and what it gets.

use crate::ways::How;
use phase_bits::Phase;

/// What a call wants of a cell: to read it, to write it, or its phase alone. It is static_init's `LockNature`.
#[derive(Clone, Copy, PartialEq, Eq, Debug)]
pub enum LockNature {
    /// A read lock, which others may have at the same time.
    Read,
    /// A write lock, beside which there is no other lock.
    Write,
    /// No lock.
    None,
}

/// What a call got of a cell. It is static_init's `LockResult`, with a ticket in place of a guard.
#[derive(Drop)]
pub enum LockResult<R, W> {
    /// A read lock.
    Read(R),
    /// A write lock.
    Write(W),
    /// No lock: the phase alone.
    None(Phase),
}

/// An open read lock. A locker makes it, and it is spent by giving it back to that locker. This project's own: the
/// guards of static_init unlock where they are dropped.
pub struct ReadTicket {
    held: (),
}

/// An open write lock. A locker makes it, and it is spent by giving it back to that locker or by making it a read
/// lock. This project's own, as `ReadTicket`.
pub struct WriteTicket {
    held: (),
}

impl ReadTicket {
    pub(crate) fn open() -> ReadTicket {
        ReadTicket { held: () }
    }

    pub(crate) fn close(self) {
        let ReadTicket { held: () } = self;
    }
}

impl WriteTicket {
    pub(crate) fn open() -> WriteTicket {
        WriteTicket { held: () }
    }

    pub(crate) fn close(self) {
        let WriteTicket { held: () } = self;
    }
}

/// The answer to a call that may wait. This project's own: a call of static_init returns when it no longer waits.
pub enum Attempt {
    /// The call has what it wants.
    Got(LockResult<ReadTicket, WriteTicket>),
    /// The call is barred, and waits in this way until its party calls again.
    Wait(How),
}
