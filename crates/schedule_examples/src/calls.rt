//! Calls that do not wait, calls that run nothing, and an init of a cell with guards.

ghost use Rattle.std.specs.Prelude.{[], ◌∷◌, ◌++◌};
ghost use Rattle.schedule_examples.specs.Examples.{Goes, row, draining};
ghost use Rattle.schedule_examples.specs.Openings.{writes_first, reads_first, fails_first};
ghost use Rattle.schedule_examples.specs.Cells.{cell, parking_cell, once_cell, exit_cell, lazy_cell, dropped_cell, primed_cell, untouched, untouched_with, initialized_with, left_failed, registered_with, left_declined};
ghost use Rattle.schedule_examples.specs.Words.{phase, try_get, get, init, read, write, fast_read, fast_write, try_read, try_write, fast_try_read, fast_try_write, primed_read, primed_write, primed_read_non_initializing, primed_write_non_initializing, again, made, made_failed, look, put, release, exit, readers, writer, giving, empty_phase, initialized_phase, registered_phase, declined_phase, value, read_guard, write_guard, running, done, empty_access, failed_access, declined_access, failed, cyclic, missed, waiting, waiting_read, waiting_write, waiting_drain, closed, not_waiting, no_such_call, no_guard};

/// A fast call that is barred misses, at every place, and nothing waits. That its party runs the generator comes before
/// that, for a call that asks for a run.
pub fn a_fast_call_misses_where_it_is_barred()
    ensures { Goes (parking_cell ∷ [])
        (row (fast_write 0 0) running
        ∷ row (fast_read 0 0) cyclic
        ∷ row (fast_try_read 0 0) missed
        ∷ row (fast_read 1 0) missed
        ∷ row (fast_write 1 0) missed
        ∷ row (fast_try_write 1 0) missed
        ∷ row (again 1) not_waiting
        ∷ row (made 0 7) write_guard
        ∷ row (fast_read 0 0) missed
        ∷ row (release 0 7) done
        ∷ row (fast_read 1 0) read_guard
        ∷ row (fast_try_read 2 0) read_guard
        ∷ row (fast_try_write 2 0) missed
        ∷ row (fast_write 2 0) missed
        ∷ row (look 2 11) (value 7)
        ∷ row (release 1 10) done
        ∷ row (release 2 11) done
        ∷ row (fast_try_write 2 0) write_guard
        ∷ row (put 2 17 8) done
        ∷ row (release 2 17) done
        ∷ row (fast_write 1 0) write_guard
        ∷ row (look 1 20) (value 8)
        ∷ [])
        (initialized_with 8 ∷ []) }
{}

/// A fast call runs the generator, and is denied, as one that may wait.
pub fn a_fast_call_runs_and_is_denied()
    ensures { Goes (once_cell ∷ cell ∷ [])
        (row (fast_try_read 0 0) empty_access
        ∷ row (fast_try_write 0 0) empty_access
        ∷ row (fast_read 0 0) running
        ∷ row (fast_read 0 1) running
        ∷ row (made 0 3) read_guard
        ∷ row (made_failed 0) failed
        ∷ row (fast_read 0 0) failed_access
        ∷ row (fast_write 0 0) failed_access
        ∷ row (fast_try_write 0 0) failed_access
        ∷ row (look 0 4) (value 3)
        ∷ [])
        (left_failed ∷ initialized_with 3 ∷ []) }
{}

/// The try calls run nothing. They wait for their lock as the calls do that run.
pub fn a_try_call_waits_and_runs_nothing()
    ensures barred { Goes (parking_cell ∷ [])
        (row (try_write 0 0) empty_access
        ∷ row (try_read 0 0) empty_access
        ∷ row (write 0 0) running
        ∷ row (try_write 0 0) waiting_write
        ∷ row (try_read 1 0) waiting_read
        ∷ [])
        (untouched ∷ []) }
    ensures beside { Goes (parking_cell ∷ [])
        (reads_first 0 0 7
        ++ draining (try_write 1 0) waiting_drain
        ∷ row (try_read 2 0) read_guard
        ∷ row (release 0 1) done
        ∷ row (release 2 3) done
        ∷ row (try_read 2 0) waiting_read
        ∷ row (again 1) write_guard
        ∷ row (put 1 7 8) done
        ∷ row (release 1 7) (giving readers done)
        ∷ row (again 2) read_guard
        ∷ row (look 2 10) (value 8)
        ∷ [])
        (initialized_with 8 ∷ []) }
    ensures denied { Goes (parking_cell ∷ [])
        (row (read 0 0) running
        ∷ row (try_read 1 0) waiting_read
        ∷ row (try_write 2 0) waiting_write
        ∷ row (made_failed 0) (giving readers failed)
        ∷ row (again 1) (giving (writer 2) failed_access)
        ∷ row (again 2) failed_access
        ∷ [])
        (left_failed ∷ []) }
{}

/// An init of a cell with guards asks for the lock to write, and opens nothing: it publishes at once what its generator makes.
pub fn an_init_leaves_nothing_open()
    ensures published { Goes (cell ∷ exit_cell ∷ [])
        (row (init 0 0) running
        ∷ row (phase 1 0) empty_phase
        ∷ row (init 0 0) cyclic
        ∷ row (made 0 4) initialized_phase
        ∷ row (release 0 3) no_guard
        ∷ row (init 1 0) initialized_phase
        ∷ row (init 0 1) running
        ∷ row (made 0 5) registered_phase
        ∷ row (read 1 0) read_guard
        ∷ row (look 1 8) (value 4)
        ∷ row (init 0 0) waiting
        ∷ row (release 1 8) done
        ∷ row (again 0) initialized_phase
        ∷ [])
        (initialized_with 4 ∷ registered_with 5 ∷ []) }
    ensures denied { Goes (once_cell ∷ exit_cell ∷ [])
        (row (init 0 0) running
        ∷ row (made_failed 0) failed
        ∷ row (init 0 0) failed_access
        ∷ row (exit 0) closed
        ∷ row (init 0 1) declined_access
        ∷ row (phase 0 1) declined_phase
        ∷ [])
        (left_failed ∷ left_declined ∷ []) }
{}

/// It parks as a writer, and hands on the lock that it gets in the step in which it answers.
pub fn an_init_hands_on_its_lock()
    ensures parks { Goes (parking_cell ∷ [])
        (writes_first 0 0 7
        ++ row (init 1 0) waiting_write
        ∷ row (read 2 0) waiting_read
        ∷ row (release 0 1) (giving (writer 1) done)
        ∷ row (again 1) (giving readers initialized_phase)
        ∷ row (again 2) read_guard
        ∷ [])
        (initialized_with 7 ∷ []) }
    ensures runs { Goes (parking_cell ∷ [])
        (fails_first 0 0
        ++ row (init 1 0) running
        ∷ row (read 2 0) waiting_read
        ∷ row (made 1 7) (giving readers initialized_phase)
        ∷ row (again 2) read_guard
        ∷ [])
        (initialized_with 7 ∷ []) }
{}

/// A cell without guards has no call that asks for one, and a cell with guards none that shows its value; the primed calls
/// are those of primed cells.
pub fn a_kind_has_its_calls_alone()
    ensures { Goes (lazy_cell ∷ cell ∷ dropped_cell ∷ primed_cell 3 ∷ [])
        (row (read 0 0) no_such_call
        ∷ row (fast_try_write 0 0) no_such_call
        ∷ row (primed_read 0 0) no_such_call
        ∷ row (get 0 1) no_such_call
        ∷ row (try_get 0 1) no_such_call
        ∷ row (primed_write 0 1) no_such_call
        ∷ row (primed_read_non_initializing 0 2) no_such_call
        ∷ row (primed_write_non_initializing 0 2) no_such_call
        ∷ row (get 0 3) no_such_call
        ∷ row (try_get 0 3) no_such_call
        ∷ row (phase 0 0) empty_phase
        ∷ [])
        (untouched ∷ untouched ∷ untouched ∷ untouched_with 3 ∷ []) }
{}
