//! Cells without retry, whose generator runs once.

ghost use Rattle.std.specs.Prelude.{[], ◌∷◌, ◌++◌};
ghost use Rattle.schedule_examples.specs.Examples.{Goes, GoesOnlySo, row};
ghost use Rattle.schedule_examples.specs.Openings.{writes_first, fails_first};
ghost use Rattle.schedule_examples.specs.Cells.{cell, once_cell, parking_once_cell, initialized_with, left_failed};
ghost use Rattle.schedule_examples.specs.Words.{phase, read, write, try_read, again, made, made_failed, look, put, release, readers, writer, giving, initialized_phase, failed_phase, value, read_guard, write_guard, running, done, empty_access, failed_access, failed, waiting_read, waiting_write};

/// After the only run failed, a read and a write are told that the value may not be accessed, and leave the phase.
pub fn a_failed_run_is_not_tried_again()
    ensures { Goes (once_cell ∷ [])
        (fails_first 0 0
        ++ row (read 0 0) failed_access
        ∷ row (write 0 0) failed_access
        ∷ row (phase 0 0) failed_phase
        ∷ [])
        (left_failed ∷ []) }
{}

/// A `try_read` runs no generator: it is told that the value may not be accessed, until another call has made it.
pub fn a_try_read_runs_nothing()
    ensures { Goes (once_cell ∷ [])
        (row (try_read 0 0) empty_access
        ∷ row (read 0 0) running
        ∷ row (made 0 7) read_guard
        ∷ row (try_read 1 0) read_guard
        ∷ row (look 1 3) (value 7)
        ∷ [])
        (initialized_with 7 ∷ []) }
{}

/// Where the only run succeeds, all goes as with retry.
pub fn a_run_that_succeeds_goes_as_with_retry()
    ensures { Goes (once_cell ∷ [])
        (writes_first 0 0 3
        ++ row (release 0 1) done
        ∷ row (phase 1 0) initialized_phase
        ∷ row (write 1 0) write_guard
        ∷ row (put 1 4 5) done
        ∷ row (release 1 4) done
        ∷ row (read 0 0) read_guard
        ∷ row (look 0 7) (value 5)
        ∷ [])
        (initialized_with 5 ∷ []) }
{}

/// A parked reader that is given a share after the run failed gives it back in the step in which it takes it up.
pub fn a_parked_reader_is_denied()
    ensures { Goes (parking_once_cell ∷ [])
        (row (read 0 0) running
        ∷ row (read 1 0) waiting_read
        ∷ row (made_failed 0) (giving readers failed)
        ∷ row (again 1) failed_access
        ∷ [])
        (left_failed ∷ []) }
{}

/// What is denied hands on as it gives its share back: of two readers the last hands over to a writer, and that to the
/// next writer.
pub fn what_is_denied_hands_on()
    ensures { Goes (parking_once_cell ∷ [])
        (row (read 0 0) running
        ∷ row (read 1 0) waiting_read
        ∷ row (write 2 0) waiting_write
        ∷ row (read 3 0) waiting_read
        ∷ row (write 4 0) waiting_write
        ∷ row (made_failed 0) (giving readers failed)
        ∷ row (again 1) failed_access
        ∷ row (again 3) (giving (writer 2) failed_access)
        ∷ row (again 2) (giving (writer 4) failed_access)
        ∷ row (again 4) failed_access
        ∷ [])
        (left_failed ∷ []) }
{}

/// The lock comes first: a read waits for a write share that was given, and is denied once it has its own.
pub fn a_call_that_will_be_denied_waits_for_its_lock()
    ensures { Goes (parking_once_cell ∷ [])
        (row (write 0 0) running
        ∷ row (write 1 0) waiting_write
        ∷ row (made_failed 0) (giving (writer 1) failed)
        ∷ row (read 2 0) waiting_read
        ∷ row (again 1) (giving readers failed_access)
        ∷ row (again 2) failed_access
        ∷ [])
        (left_failed ∷ []) }
{}

/// With retry, and before a run, no value is denied. After the only run failed each is, and no run is tried again.
pub fn a_value_is_denied_after_the_only_run_alone()
    ensures with_retry { GoesOnlySo (cell ∷ []) (fails_first 0 0)
        (row (read 0 0) running) (failed_access ∷ []) }
    ensures before { GoesOnlySo (once_cell ∷ []) []
        (row (read 0 0) running) (empty_access ∷ []) }
    ensures read { GoesOnlySo (once_cell ∷ []) (fails_first 0 0)
        (row (read 0 0) failed_access) (empty_access ∷ read_guard ∷ running ∷ []) }
    ensures write { GoesOnlySo (once_cell ∷ []) (fails_first 0 0)
        (row (write 1 0) failed_access) (running ∷ write_guard ∷ []) }
{}

/// What is denied hands nothing on where another share is left.
pub fn what_is_denied_hands_nothing_on_beside_a_share()
    ensures { GoesOnlySo (parking_once_cell ∷ [])
        (row (read 0 0) running
        ∷ row (read 1 0) waiting_read
        ∷ row (read 2 0) waiting_read
        ∷ row (write 3 0) waiting_write
        ∷ row (made_failed 0) (giving readers failed)
        ∷ [])
        (row (again 1) failed_access) (giving (writer 3) failed_access ∷ []) }
{}
