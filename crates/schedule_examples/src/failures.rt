//! Generators that fail.

ghost use Rattle.std.specs.Prelude.{[], ◌∷◌, ◌++◌};
ghost use Rattle.schedule_examples.specs.Examples.{Goes, row};
ghost use Rattle.schedule_examples.specs.Openings.{writes_first, reads_first, fails_first};
ghost use Rattle.schedule_examples.specs.Cells.{cell, initialized_with, left_failed};
ghost use Rattle.schedule_examples.specs.Words.{phase, read, write, again, made, made_failed, look, release, initialized_phase, failed_phase, value, read_guard, running, done, failed, waiting};

/// A generator that failed runs again, and what it makes then is read.
pub fn a_failed_run_is_tried_again()
    ensures { Goes (cell ∷ [])
        (fails_first 0 0
        ++ row (phase 0 0) failed_phase
        ∷ reads_first 0 0 8
        ++ row (phase 0 0) initialized_phase
        ∷ row (look 0 4) (value 8)
        ∷ [])
        (initialized_with 8 ∷ []) }
{}

/// Where a run failed, the read of another party runs, and its failure leaves the phase.
pub fn another_party_runs_after_a_failure()
    ensures { Goes (cell ∷ [])
        (fails_first 0 0
        ++ fails_first 1 0
        ++ row (phase 0 0) failed_phase
        ∷ [])
        (left_failed ∷ []) }
{}

/// A read that waited for a run takes over when the run fails. The value that it makes is read by
/// both.
pub fn a_waiting_read_runs_after_a_failure()
    ensures { Goes (cell ∷ [])
        (row (write 0 0) running
        ∷ row (read 1 0) waiting
        ∷ row (made_failed 0) failed
        ∷ row (again 1) running
        ∷ row (made 1 3) read_guard
        ∷ row (read 0 0) read_guard
        ∷ row (look 1 4) (value 3)
        ∷ row (look 0 5) (value 3)
        ∷ [])
        (initialized_with 3 ∷ []) }
{}

/// The phase of the failure stands until the write after it is released.
pub fn a_write_after_a_failure_publishes_at_its_release()
    ensures { Goes (cell ∷ [])
        (row (write 0 0) running
        ∷ row (made_failed 0) failed
        ∷ row (phase 1 0) failed_phase
        ∷ writes_first 1 0 4
        ++ row (phase 0 0) failed_phase
        ∷ row (release 1 4) done
        ∷ row (phase 0 0) initialized_phase
        ∷ [])
        (initialized_with 4 ∷ []) }
{}
