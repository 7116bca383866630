//! Cells with a value from the start, and guards that read it where the cell has none of its own.

ghost use Rattle.std.specs.Prelude.{[], ◌∷◌, ◌++◌};
ghost use Rattle.schedule_examples.specs.Examples.{Goes, GoesWith, row, draining};
ghost use Rattle.schedule_examples.specs.Openings.{closes};
ghost use Rattle.schedule_examples.specs.Cells.{once, leaking, primed_cell, parking_once_primed_cell, primed_dropped_cell, untouched_with, initialized_with, failed_with, leaked_with, declined_with, finalizer_failed_with, was_failed};
ghost use Rattle.schedule_examples.specs.Words.{phase, init, read, write, fast_write, try_read, fast_try_read, primed_read, primed_write, primed_read_non_initializing, primed_write_non_initializing, again, made, made_failed, look, put, release, downgrade, clone, exit, finish_failed_with, readers, writer, giving, declined_phase, finalizer_failed_phase, value, read_guard, err_guard, write_guard, running, done, empty_access, failed_access, declined_access, failed, cyclic, missed, waiting, waiting_read, waiting_write, waiting_drain, finalizing, round, closed, no_guard, not_writer};

/// A finalizer that fails leaves a value too.
pub fn a_failed_finalizer_leaves_a_value()
    ensures { GoesWith (primed_dropped_cell 5 ∷ [])
        (row (write 0 0) running
        ∷ row (made 0 7) write_guard
        ∷ row (release 0 1) done
        ∷ row (exit 0) (round 1)
        ∷ row (exit 0) (finalizing 0)
        ∷ row (finish_failed_with 0 9) finalizer_failed_phase
        ∷ row (primed_read 0 0) err_guard
        ∷ row (look 0 6) (value 9)
        ∷ row (exit 0) closed
        ∷ [])
        (finalizer_failed_with 9 ∷ []) (was_failed 0 ∷ []) }
{}

/// A value that is made replaces the prime value, and one that is set replaces that.
pub fn a_prime_value_is_replaced()
    ensures { Goes (primed_cell 42 ∷ [])
        (row (primed_write_non_initializing 0 0) err_guard
        ∷ row (look 0 0) (value 42)
        ∷ row (release 0 0) done
        ∷ row (primed_read 0 0) running
        ∷ row (made 0 22) read_guard
        ∷ row (release 0 4) done
        ∷ row (primed_write 0 0) write_guard
        ∷ row (look 0 6) (value 22)
        ∷ row (put 0 6 33) done
        ∷ row (release 0 6) done
        ∷ row (primed_read_non_initializing 0 0) read_guard
        ∷ row (look 0 10) (value 33)
        ∷ row (release 0 10) done
        ∷ row (primed_write_non_initializing 0 0) write_guard
        ∷ [])
        (initialized_with 33 ∷ []) }
{}

/// A failed run leaves the prime value. Without retry it is read on, beside other readers; the calls of cells without a prime
/// value are denied.
pub fn a_failed_run_leaves_the_prime_value()
    ensures kept { Goes (once (primed_cell 8) ∷ [])
        (row (try_read 0 0) empty_access
        ∷ row (primed_write 0 0) running
        ∷ row (primed_read 0 0) cyclic
        ∷ row (primed_read_non_initializing 1 0) waiting
        ∷ row (made_failed 0) failed
        ∷ row (again 1) err_guard
        ∷ row (primed_read 0 0) err_guard
        ∷ row (look 0 6) (value 8)
        ∷ row (primed_write 0 0) waiting
        ∷ row (release 1 5) done
        ∷ row (read 1 0) failed_access
        ∷ row (init 2 0) waiting
        ∷ [])
        (failed_with 8 ∷ []) }
    ensures retried { Goes (primed_cell 8 ∷ [])
        (row (primed_read 0 0) running
        ∷ row (made_failed 0) failed
        ∷ row (primed_write_non_initializing 0 0) err_guard
        ∷ row (look 0 2) (value 8)
        ∷ row (release 0 2) done
        ∷ row (primed_read 0 0) running
        ∷ row (made 0 9) read_guard
        ∷ row (look 0 6) (value 9)
        ∷ [])
        (initialized_with 9 ∷ []) }
{}

/// Where registration is refused the prime value is all that there is. The calls of cells without one are denied.
pub fn a_declined_primed_cell_shows_its_prime_value()
    ensures { Goes (primed_dropped_cell 3 ∷ primed_dropped_cell 4 ∷ leaking (primed_dropped_cell 5) ∷ [])
        (closes 0
        ++ row (primed_read 0 0) err_guard
        ∷ row (phase 1 0) declined_phase
        ∷ row (look 0 1) (value 3)
        ∷ row (primed_write 0 1) err_guard
        ∷ row (look 0 4) (value 4)
        ∷ row (release 0 4) done
        ∷ row (read 0 1) declined_access
        ∷ row (init 0 1) declined_access
        ∷ row (primed_write 0 2) running
        ∷ row (made 0 6) write_guard
        ∷ row (release 0 10) done
        ∷ [])
        (declined_with 3 ∷ declined_with 4 ∷ leaked_with 6 ∷ []) }
{}

/// A guard that reads the prime value is a guard to read: it is cloned, and bars writes, but sets nothing.
pub fn a_guard_of_the_prime_value_reads()
    ensures { Goes (primed_cell 2 ∷ [])
        (row (primed_write_non_initializing 0 0) err_guard
        ∷ row (put 0 0 5) not_writer
        ∷ row (downgrade 0 0) not_writer
        ∷ row (clone 0 0) read_guard
        ∷ row (release 0 0) done
        ∷ row (look 0 3) (value 2)
        ∷ row (look 1 3) no_guard
        ∷ row (fast_write 1 0) missed
        ∷ row (primed_read 1 0) waiting
        ∷ row (release 0 3) done
        ∷ row (again 1) running
        ∷ [])
        (untouched_with 2 ∷ []) }
{}

/// A call that wanted to write reads on, as after a downgrade: parked readers are handed the lock.
pub fn a_guard_of_the_prime_value_gives_to_readers()
    ensures { Goes (parking_once_primed_cell 7 ∷ [])
        (row (write 0 0) running
        ∷ row (primed_write 1 0) waiting_write
        ∷ row (primed_read 2 0) waiting_read
        ∷ row (made_failed 0) (giving (writer 1) failed)
        ∷ row (again 1) (giving readers err_guard)
        ∷ row (again 2) err_guard
        ∷ row (look 1 4) (value 7)
        ∷ row (look 2 5) (value 7)
        ∷ [])
        (failed_with 7 ∷ []) }
{}

/// The same of a call that drained the readers before it.
pub fn a_drain_that_reads_on_gives_to_readers()
    ensures { Goes (parking_once_primed_cell 7 ∷ [])
        (row (primed_read_non_initializing 0 0) err_guard
        ∷ draining (primed_write_non_initializing 1 0) waiting_drain
        ∷ row (release 0 0) done
        ∷ row (primed_read_non_initializing 0 0) waiting_read
        ∷ row (fast_try_read 2 0) missed
        ∷ row (again 1) (giving readers err_guard)
        ∷ row (again 0) err_guard
        ∷ row (look 1 5) (value 7)
        ∷ [])
        (untouched_with 7 ∷ []) }
{}
