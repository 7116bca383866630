//! Lockers: who may read or write a cell, how a call waits that may not, and to whom the lock is given then. It stands on
//! `phase_bits` for phases and for the record of a lock's holders.
#![tactic(auto)]

mod attempts;
mod gifts;
mod holder;
mod links;
mod locker;
mod parks;
mod store;
mod tickets;
mod unsync;
mod ways;

pub use holder::HolderLocker;
pub use locker::PhaseLocker;
pub use parks::Parks;
pub use tickets::{Attempt, LockNature, LockResult, ReadTicket, WriteTicket};
pub use unsync::UnSyncPhaseLocker;
pub use ways::{Given, How, LockerKind, Waiting, Who};
