//! Cells that show their value without a guard.

ghost use Rattle.std.specs.Prelude.{[], ◌∷◌, ◌++◌};
ghost use Rattle.schedule_examples.specs.Examples.{Goes, GoesWith, row, early};
ghost use Rattle.schedule_examples.specs.Openings.{gets_first, fails_to_get, finalizes, closes};
ghost use Rattle.schedule_examples.specs.Cells.{parking_exit_cell, lazy_cell, parking_lazy_cell, once_lazy_cell, lazy_exit_cell, parking_lazy_exit_cell, leaking_lazy_cell, initialized_with, left_failed, registered_with, leaked_with, left_declined, finalized_with, was_done};
ghost use Rattle.schedule_examples.specs.Words.{phase, try_get, get, init, write, again, made, made_failed, put, release, exit, finished, readers, writer, giving, empty_phase, initialized_phase, failed_phase, registered_phase, registered_failed_phase, leaked_phase, declined_phase, finalized_phase, value, write_guard, running, done, empty_access, failed_access, declined_access, failed, cyclic, waiting_read, waiting_write, finalizing, round, closed, no_section};

/// A get whose generator failed runs it again, each time. What it makes then is the answer, and is published at once.
pub fn a_get_is_tried_again()
    ensures { Goes (lazy_cell ∷ [])
        (fails_to_get 0 0
        ++ row (phase 0 0) failed_phase
        ∷ fails_to_get 0 0
        ++ row (phase 0 0) failed_phase
        ∷ gets_first 0 0 2
        ++ row (phase 0 0) initialized_phase
        ∷ row (get 1 0) (value 2)
        ∷ row (try_get 1 0) (value 2)
        ∷ row (init 1 0) initialized_phase
        ∷ [])
        (initialized_with 2 ∷ []) }
{}

/// Without retry there is one run. After it a get is denied, and opens nothing.
pub fn without_retry_one_get_runs()
    ensures { Goes (once_lazy_cell ∷ [])
        (fails_to_get 0 0
        ++ row (get 0 0) failed_access
        ∷ row (made 0 1) no_section
        ∷ row (try_get 0 0) failed_access
        ∷ row (init 0 0) failed_phase
        ∷ [])
        (left_failed ∷ []) }
{}

/// A cell is registered before its first run, and is not registered again by the runs after that.
pub fn a_get_registers_once()
    ensures { Goes (parking_lazy_exit_cell ∷ [])
        (fails_to_get 0 0
        ++ row (phase 0 0) registered_failed_phase
        ∷ fails_to_get 0 0
        ++ row (phase 0 0) registered_failed_phase
        ∷ gets_first 0 0 42
        ++ row (phase 0 0) registered_phase
        ∷ row (exit 0) (round 1)
        ∷ [])
        (registered_with 42 ∷ []) }
{}

/// After the exit a cell that asks to be registered is declined, again at each get, and one that puts up with it is not. An
/// init of such a cell tells its phase, and does not test access.
pub fn a_closed_registry_declines_a_get()
    ensures got { Goes (lazy_exit_cell ∷ leaking_lazy_cell ∷ [])
        (closes 0
        ++ row (get 0 0) declined_access
        ∷ row (get 0 0) declined_access
        ∷ row (init 0 0) declined_phase
        ∷ row (try_get 0 0) declined_access
        ∷ gets_first 0 1 9
        ++ row (phase 0 1) leaked_phase
        ∷ [])
        (left_declined ∷ leaked_with 9 ∷ []) }
    ensures first { Goes (lazy_exit_cell ∷ [])
        (closes 0
        ++ row (init 0 0) declined_phase
        ∷ row (phase 0 0) declined_phase
        ∷ [])
        (left_declined ∷ []) }
{}

/// An init runs the generator as a get does, and answers the phase that it reaches.
pub fn an_init_tells_the_phase()
    ensures { Goes (lazy_cell ∷ lazy_exit_cell ∷ [])
        (row (init 0 0) running
        ∷ row (init 0 1) running
        ∷ row (init 0 0) cyclic
        ∷ row (get 0 1) cyclic
        ∷ row (try_get 0 1) empty_access
        ∷ row (made 0 4) registered_phase
        ∷ row (made 0 5) initialized_phase
        ∷ row (get 0 0) (value 5)
        ∷ row (get 0 1) (value 4)
        ∷ [])
        (initialized_with 5 ∷ registered_with 4 ∷ []) }
{}

/// A get parks as a reader while another party runs the generator; a call for the phase and a try_get are never barred. Once
/// the value is there a get wants no lock: it gives its share back.
pub fn a_get_parks_while_a_generator_runs()
    ensures { Goes (parking_lazy_cell ∷ [])
        (row (get 0 0) running
        ∷ row (get 1 0) waiting_read
        ∷ row (init 2 0) waiting_read
        ∷ row (try_get 3 0) empty_access
        ∷ row (phase 3 0) empty_phase
        ∷ row (made 0 5) (giving readers (value 5))
        ∷ row (try_get 3 0) (value 5)
        ∷ row (get 3 0) (value 5)
        ∷ row (again 1) (value 5)
        ∷ row (again 2) initialized_phase
        ∷ [])
        (initialized_with 5 ∷ []) }
{}

/// A parked get that wants no lock once the value is there gives up its share, and the last of them hands the cell on: here
/// to its turn.
pub fn a_share_that_no_get_needs_is_handed_on()
    ensures { GoesWith (parking_lazy_exit_cell ∷ [])
        (row (get 0 0) running
        ∷ row (get 1 0) waiting_read
        ∷ row (init 2 0) waiting_read
        ∷ row (made 0 5) (giving readers (value 5))
        ∷ row (exit 3) (round 1)
        ∷ row (exit 3) waiting_write
        ∷ row (again 1) (value 5)
        ∷ early (row (again 2) (giving (writer 3) registered_phase))
        ∷ row (again 3) (finalizing 0)
        ∷ row (finished 3) finalized_phase
        ∷ [])
        (finalized_with 5 ∷ []) (was_done 0 ∷ []) }
{}

/// After a failure one of the parked gets runs, and the other waits on.
pub fn a_parked_get_runs_after_a_failure()
    ensures { Goes (parking_lazy_cell ∷ [])
        (row (get 0 0) running
        ∷ row (get 1 0) waiting_read
        ∷ row (made_failed 0) (giving readers failed)
        ∷ row (get 2 0) waiting_read
        ∷ row (again 1) running
        ∷ row (made 1 6) (giving readers (value 6))
        ∷ row (again 2) (value 6)
        ∷ [])
        (initialized_with 6 ∷ []) }
{}

/// The exit takes such cells in rounds, the latest first, also those that a finalizer asks for. They keep their values.
pub fn an_exit_finalizes_what_was_got()
    ensures { GoesWith (lazy_exit_cell ∷ lazy_exit_cell ∷ lazy_exit_cell ∷ [])
        (gets_first 0 0 1
        ++ gets_first 0 1 2
        ++ row (exit 0) (round 2)
        ∷ row (exit 0) (finalizing 1)
        ∷ gets_first 0 2 3
        ++ row (finished 0) finalized_phase
        ∷ finalizes 0 0
        ++ row (exit 0) (round 1)
        ∷ finalizes 0 2
        ++ row (exit 0) closed
        ∷ row (get 0 1) (value 2)
        ∷ row (try_get 0 2) (value 3)
        ∷ [])
        (finalized_with 1 ∷ finalized_with 2 ∷ finalized_with 3 ∷ []) (was_done 1 ∷ was_done 0 ∷ was_done 2 ∷ []) }
{}

/// A configuration and a log: both are started, the log from within its own generator, and stopped in turn.
pub fn a_service_starts_and_stops()
    ensures { GoesWith (parking_lazy_exit_cell ∷ parking_exit_cell ∷ [])
        (row (write 0 1) running
        ∷ gets_first 0 0 80
        ++ row (made 0 1) write_guard
        ∷ row (put 0 3 2) done
        ∷ row (release 0 3) done
        ∷ row (exit 0) (round 2)
        ∷ finalizes 0 0
        ++ finalizes 0 1
        ++ row (exit 0) closed
        ∷ [])
        (finalized_with 80 ∷ finalized_with 2 ∷ []) (was_done 0 ∷ was_done 1 ∷ []) }
{}
