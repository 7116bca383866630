//! Cells whose value a finalizer drops.

ghost use Rattle.std.specs.Prelude.{[], ◌∷◌, ◌++◌};
ghost use Rattle.schedule_examples.specs.Examples.{Goes, GoesWith, row};
ghost use Rattle.schedule_examples.specs.Openings.{writes_first, fills, finalizes, closes};
ghost use Rattle.schedule_examples.specs.Cells.{exit_cell, lazy_exit_cell, dropped_cell, parking_dropped_cell, primed_dropped_cell, finalized_with, left_dropped, finalizer_failed_with, was_done, was_failed};
ghost use Rattle.schedule_examples.specs.Words.{phase, get, init, read, write, fast_read, try_read, try_write, again, made, made_failed, release, exit, finished, finish_failed, finished_with, finish_failed_with, writer, giving, registered_phase, finalized_phase, finalizer_failed_phase, value, running, done, registered_failed_access, finalized_access, failed, waiting_write, finalizing, round, closed, no_section, no_outcome};

/// After its finalizer the cell has no value, and every call that asks for it is denied. The phase tells why.
pub fn a_dropped_value_is_out_of_reach()
    ensures { GoesWith (dropped_cell ∷ [])
        (fills 0 0 4 1
        ++ row (exit 0) (round 1)
        ∷ finalizes 0 0
        ++ row (read 0 0) finalized_access
        ∷ row (write 0 0) finalized_access
        ∷ row (init 0 0) finalized_access
        ∷ row (try_write 0 0) finalized_access
        ∷ row (fast_read 0 0) finalized_access
        ∷ row (phase 0 0) finalized_phase
        ∷ row (exit 0) closed
        ∷ [])
        (left_dropped ∷ []) (was_done 0 ∷ []) }
{}

/// Its finalizer does not fail, and leaves no value: such an outcome is refused, and the finalizer runs on. Without a section
/// it is refused for that.
pub fn a_drop_does_not_fail()
    ensures { GoesWith (dropped_cell ∷ [])
        (row (finished_with 0 1) no_section
        ∷ fills 0 0 4 2
        ++ row (exit 0) (round 1)
        ∷ row (exit 0) (finalizing 0)
        ∷ row (finish_failed 0) no_outcome
        ∷ row (finish_failed_with 0 3) no_outcome
        ∷ row (finished_with 0 3) no_outcome
        ∷ row (phase 1 0) registered_phase
        ∷ row (finished 0) finalized_phase
        ∷ [])
        (left_dropped ∷ []) (was_done 0 ∷ []) }
{}

/// A primed one leaves a value in either case, and no other finalizer does.
pub fn a_finalizer_leaves_what_its_kind_leaves()
    ensures { GoesWith (primed_dropped_cell 9 ∷ exit_cell ∷ lazy_exit_cell ∷ [])
        (fills 0 0 4 1
        ++ fills 0 1 5 4
        ++ row (get 0 2) running
        ∷ row (made 0 6) (value 6)
        ∷ row (exit 0) (round 3)
        ∷ row (exit 0) (finalizing 2)
        ∷ row (finished_with 0 1) no_outcome
        ∷ row (finish_failed 0) finalizer_failed_phase
        ∷ row (exit 0) (finalizing 1)
        ∷ row (finish_failed_with 0 1) no_outcome
        ∷ row (finished 0) finalized_phase
        ∷ row (exit 0) (finalizing 0)
        ∷ row (finished 0) no_outcome
        ∷ row (finish_failed 0) no_outcome
        ∷ row (finished_with 0 1) finalized_phase
        ∷ [])
        (finalized_with 1 ∷ finalized_with 5 ∷ finalizer_failed_with 6 ∷ [])
        (was_failed 2 ∷ was_done 1 ∷ was_done 0 ∷ []) }
{}

/// Writers that are parked while the value is dropped hand the lock on, each as it is denied.
pub fn what_is_denied_after_a_drop_hands_on()
    ensures { GoesWith (parking_dropped_cell ∷ [])
        (writes_first 0 0 1
        ++ row (release 0 1) done
        ∷ row (exit 0) (round 1)
        ∷ row (exit 0) (finalizing 0)
        ∷ row (write 1 0) waiting_write
        ∷ row (write 2 0) waiting_write
        ∷ row (finished 0) (giving (writer 1) finalized_phase)
        ∷ row (again 1) (giving (writer 2) finalized_access)
        ∷ row (again 2) finalized_access
        ∷ [])
        (left_dropped ∷ []) (was_done 0 ∷ []) }
{}

/// A failed run is tried again at the next call that asks for one, and is registered once. After the drop no run is due.
pub fn a_dropped_cell_is_filled_once()
    ensures { GoesWith (dropped_cell ∷ [])
        (row (init 0 0) running
        ∷ row (made_failed 0) failed
        ∷ row (try_read 0 0) registered_failed_access
        ∷ row (init 0 0) running
        ∷ row (made 0 5) registered_phase
        ∷ row (exit 0) (round 1)
        ∷ finalizes 0 0
        ++ row (init 0 0) finalized_access
        ∷ closes 0)
        (left_dropped ∷ []) (was_done 0 ∷ []) }
{}
