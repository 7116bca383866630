//! Cells that are one party's own: nobody waits for such a cell. The first such schedule stands with its text.

ghost use Rattle.std.specs.Prelude.{[], ◌∷◌, ◌++◌};
ghost use Rattle.schedule_examples.specs.Examples.{Goes, GoesOnlySo, row};
ghost use Rattle.schedule_examples.specs.Openings.{writes_first, reads_first};
ghost use Rattle.schedule_examples.specs.Cells.{own_cell, own_lazy_cell, untouched, initialized_with};
ghost use Rattle.schedule_examples.specs.Words.{phase, get, init, read, write, fast_read, try_read, try_write, fast_try_read, fast_try_write, again, made, look, release, downgrade, clone, empty_phase, value, read_guard, write_guard, running, done, cyclic, borrowed, missed, waiting, waiting_read, waiting_write, waiting_drain, not_waiting, not_owner, no_such_call, no_guard, no_section};

/// Each call that wants a lock is borrowed beside an open guard that bars it; those that want none are answered, and a guard
/// to read is cloned. A borrowed call leaves all as it was, and its party goes on.
pub fn a_borrowed_call_leaves_all_as_it_was()
    ensures { Goes (own_cell 1 ∷ [])
        (writes_first 1 0 3
        ++ row (try_read 1 0) borrowed
        ∷ row (try_write 1 0) borrowed
        ∷ row (init 1 0) borrowed
        ∷ row (fast_try_write 1 0) missed
        ∷ row (phase 1 0) empty_phase
        ∷ row (again 1) not_waiting
        ∷ row (look 1 1) (value 3)
        ∷ row (downgrade 1 1) read_guard
        ∷ row (read 1 0) read_guard
        ∷ row (clone 1 9) read_guard
        ∷ row (write 1 0) borrowed
        ∷ row (release 1 9) done
        ∷ row (release 1 10) done
        ∷ row (release 1 11) done
        ∷ row (write 1 0) write_guard
        ∷ [])
        (initialized_with 3 ∷ []) }
{}

/// To every call of the cell, and before it is asked whether the kind has the call. Acts on guards and outcomes are refused
/// to another party for their own reasons.
pub fn another_party_is_refused()
    ensures { Goes (own_cell 0 ∷ own_lazy_cell 0 ∷ [])
        (row (read 0 0) running
        ∷ row (phase 1 0) not_owner
        ∷ row (get 1 0) not_owner
        ∷ row (fast_try_read 1 0) not_owner
        ∷ row (read 1 1) not_owner
        ∷ row (get 0 0) no_such_call
        ∷ row (read 0 1) no_such_call
        ∷ row (made 1 4) no_section
        ∷ row (made 0 4) read_guard
        ∷ row (look 1 8) no_guard
        ∷ row (get 1 1) not_owner
        ∷ [])
        (initialized_with 4 ∷ untouched ∷ []) }
{}

/// A call that waits, one that gets in, a fast call that is borrowed and another that misses; a later reason to refuse; and a
/// call of the running generator that is borrowed before it is cyclic.
pub fn an_own_cell_is_borrowed_or_not()
    ensures borrows { GoesOnlySo (own_cell 0 ∷ [])
        (writes_first 0 0 3)
        (row (read 0 0) borrowed) (waiting ∷ waiting_read ∷ missed ∷ read_guard ∷ []) }
    ensures misses { GoesOnlySo (own_cell 0 ∷ [])
        (writes_first 0 0 3)
        (row (fast_read 0 0) missed) (borrowed ∷ waiting ∷ []) }
    ensures beside { GoesOnlySo (own_cell 0 ∷ [])
        (reads_first 0 0 3)
        (row (read 0 0) read_guard) (borrowed ∷ []) }
    ensures drains { GoesOnlySo (own_cell 0 ∷ [])
        (reads_first 0 0 3)
        (row (write 0 0) borrowed) (waiting_drain ∷ waiting_write ∷ []) }
    ensures other { GoesOnlySo (own_cell 0 ∷ [])
        (writes_first 0 0 3)
        (row (read 1 0) not_owner) (borrowed ∷ waiting ∷ []) }
    ensures first { GoesOnlySo (own_cell 0 ∷ [])
        []
        (row (get 1 0) not_owner) (no_such_call ∷ []) }
    ensures turned_back { GoesOnlySo (own_lazy_cell 0 ∷ [])
        (row (get 0 0) running
        ∷ [])
        (row (get 0 0) cyclic) (borrowed ∷ waiting ∷ running ∷ []) }
{}
