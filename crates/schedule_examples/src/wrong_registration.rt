//! The one line of a call at a cell that is registered, or is refused to be, beside lines that no choice makes legal there.

ghost use Rattle.std.specs.Prelude.{[], ◌∷◌};
ghost use Rattle.schedule_examples.specs.Examples.{GoesOnlySo, row};
ghost use Rattle.schedule_examples.specs.Openings.{reads_first};
ghost use Rattle.schedule_examples.specs.Cells.{exit_cell, parking_exit_cell, leaking_cell};
ghost use Rattle.schedule_examples.specs.Words.{phase, read, write, made_failed, exit, readers, writer, giving, empty_phase, initialized_phase, failed_phase, registered_phase, registered_failed_phase, leaked_phase, declined_phase, read_guard, write_guard, running, empty_access, failed_access, declined_access, failed, skipped, round, closed};

/// A run, or a guard, of a cell that the closed registry declines, and the phase of a registered cell where one puts up with it.
pub fn nothing_is_registered_after_the_exit()
    ensures read { GoesOnlySo (exit_cell ∷ [])
        (row (exit 0) closed
        ∷ [])
        (row (read 0 0) declined_access) (running ∷ read_guard ∷ []) }
    ensures write { GoesOnlySo (exit_cell ∷ [])
        (row (exit 0) closed
        ∷ [])
        (row (write 0 0) declined_access) (write_guard ∷ []) }
    ensures declined { GoesOnlySo (exit_cell ∷ [])
        (row (exit 0) closed
        ∷ row (read 0 0) declined_access
        ∷ [])
        (row (write 0 0) declined_access) (running ∷ []) }
    ensures leaks { GoesOnlySo (leaking_cell ∷ [])
        (row (exit 0) closed
        ∷ reads_first 0 0 4)
        (row (phase 0 0) leaked_phase) (registered_phase ∷ []) }
    ensures puts_up { GoesOnlySo (leaking_cell ∷ [])
        (row (exit 0) closed
        ∷ [])
        (row (read 0 0) running) (declined_access ∷ []) }
{}

/// The phase before the call, that of a failed run, and a phase that is not published.
pub fn a_declined_call_tells_and_publishes_its_phase()
    ensures told { GoesOnlySo (exit_cell ∷ [])
        (row (exit 0) closed
        ∷ [])
        (row (read 0 0) declined_access) (empty_access ∷ failed_access ∷ []) }
    ensures published { GoesOnlySo (exit_cell ∷ [])
        (row (exit 0) closed
        ∷ row (write 0 0) declined_access
        ∷ [])
        (row (phase 0 0) declined_phase) (empty_phase ∷ []) }
{}

/// Readers and a writer that a declined call gives the lock to, where nobody is parked.
pub fn a_declined_call_wakes_nobody_that_is_not_parked()
    ensures readers { GoesOnlySo (parking_exit_cell ∷ [])
        (row (exit 0) closed
        ∷ [])
        (row (read 0 0) declined_access) (giving readers declined_access ∷ []) }
    ensures writer { GoesOnlySo (parking_exit_cell ∷ [])
        (row (exit 0) closed
        ∷ [])
        (row (write 0 0) declined_access) (giving (writer 1) declined_access ∷ []) }
{}

/// A run of a registered cell that drops the flag of its registration, and one that is declined after the registry closed.
pub fn registration_is_kept_by_a_run()
    ensures made { GoesOnlySo (exit_cell ∷ [])
        (reads_first 0 0 4)
        (row (phase 0 0) registered_phase) (initialized_phase ∷ []) }
    ensures failed { GoesOnlySo (exit_cell ∷ [])
        (row (read 0 0) running
        ∷ row (made_failed 0) failed
        ∷ [])
        (row (phase 0 0) registered_failed_phase) (failed_phase ∷ []) }
    ensures declined { GoesOnlySo (exit_cell ∷ [])
        (row (read 0 0) running
        ∷ row (made_failed 0) failed
        ∷ row (exit 1) (round 1)
        ∷ row (exit 1) (skipped 0)
        ∷ row (exit 1) closed
        ∷ [])
        (row (read 0 0) running) (declined_access ∷ []) }
{}
