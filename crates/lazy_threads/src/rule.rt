//! The rule of the word, and what each kind of step tells the seat that makes it.
//!
//! The kit's table owes that the rule holds between any two steps, and asks of each step that it keeps it. A step is named by
//! a marker: `then` says how the seat's view changes, by the word that the step found.

ghost use Rattle.std.specs.Prelude.{◌≡◌};
ghost use Rattle.lazy_threads.specs.Rule.{rule, Finds, FindsOwn};
ghost use Rattle.lazy_threads.specs.Views.{fresh, loaded, exchanged, entered_read, entered_write, looked_write, left_read, left_write, downgraded, split_off, joined};

use crate::view::View;
use atomic_table::{Join, Play, Split, TableRule};

/// The rule of the word.
pub struct WordRule;

impl TableRule<(), View, ()> for WordRule {
    ghost holds = { λ _ state. rule state };

    ghost first = { λ _. fresh };
}

/// A look at the word. It finds INITIALIZED where its seat has seen it.
pub(crate) struct Load;

impl Play<(), View> for Load {
    ghost then = { λ step v found w. (w ≡ (loaded found v.0, v.1)) × Finds found v.0 };
}

/// An exchange for a read hold. Where it finds another word than the expected one it is a look.
pub(crate) struct EnterRead;

impl Play<(), View> for EnterRead {
    ghost then = { λ step v found w. (w ≡ (exchanged entered_read step.first found v.0, v.1)) × Finds found v.0 };
}

/// An exchange for a write hold. Where it finds another word than the expected one it is a look.
pub(crate) struct EnterWrite;

impl Play<(), View> for EnterWrite {
    ghost then = { λ step v found w. (w ≡ (exchanged entered_write step.first found v.0, v.1)) × Finds found v.0 };
}

/// An exchange for a write hold with no load before it. It is the load too, whatever it finds.
pub(crate) struct LookWrite;

impl Play<(), View> for LookWrite {
    ghost then = { λ step v found w. (w ≡ (exchanged looked_write step.first found v.0, v.1)) × Finds found v.0 };
}

/// A read hold is given back.
pub(crate) struct LeaveRead;

impl Play<(), View> for LeaveRead {
    ghost then = { λ step v found w. (w ≡ (left_read found v.0, v.1)) × Finds found v.0 };
}

/// A write hold is given back. The word was as the hold had left it.
pub(crate) struct LeaveWrite;

impl Play<(), View> for LeaveWrite {
    ghost then = { λ step v found w. (w ≡ (left_write found step.first v.0, v.1)) × FindsOwn found v.0 };
}

/// A write hold becomes a read hold. The word was as the hold had left it.
pub(crate) struct Downgrade;

impl Play<(), View> for Downgrade {
    ghost then = { λ step v found w. (w ≡ (downgraded found step.first v.0, v.1)) × FindsOwn found v.0 };
}

/// A seat is split: the new one has seen as much, and has no hold.
pub(crate) struct SplitSeat;

impl Split<View> for SplitSeat {
    ghost left = { λ v. v };

    ghost right = { λ v. split_off v };
}

/// Two seats are joined: the one that stays has seen what both had seen, and the other is spent.
pub(crate) struct JoinSeats;

impl Join<View> for JoinSeats {
    ghost both = { λ v other. joined v other };

    ghost spent = { fresh };
}
