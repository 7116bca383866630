//! What a seat knows of the word. Contracts and proofs speak of these types; no value of them is made.

use std::collections::LinkedList;

/// The hold of a seat. A seat has at most one.
#[derive(Clone, Copy, PartialEq, Eq, Debug)]
pub enum Hold {
    /// No hold.
    Free,
    /// A read hold, beside which other seats may have read holds.
    Read,
    /// A write hold, beside which no seat has a hold.
    Write,
}

/// What a seat knows of the word: what it did and what it found.
pub struct View {
    /// The hold that the seat has.
    pub hold: Hold,
    /// The number of the phase that the word had when the seat got its latest write hold.
    pub entered: u32,
    /// The numbers of the phases seen, found by a load or published by a leave, the latest first.
    pub seen: LinkedList<u32>,
    /// How many loads the seat made. An exchange is a load where no load came before it, and where it found another word.
    pub loads: u64,
    /// The word that the last load found.
    pub last: u64,
    /// The word that the load before the last one found.
    pub earlier: u64,
    /// The word before the seat's last step.
    pub before: u64,
    /// The word after the seat's last step.
    pub after: u64,
}
