//! Turns of the exit that wait, and exits and outcomes that are refused.

ghost use Rattle.std.specs.Prelude.{[], ◌∷◌, ◌++◌};
ghost use Rattle.schedule_examples.specs.Examples.{Goes, GoesWith, row, draining};
ghost use Rattle.schedule_examples.specs.Openings.{writes_first, reads_first, fills, finalizes_first};
ghost use Rattle.schedule_examples.specs.Cells.{exit_cell, parking_exit_cell, leaking_cell, untouched, registered_with, leaked_with, finalized_with, finalizer_failed_with, was_done, was_failed, was_skipped};
ghost use Rattle.schedule_examples.specs.Words.{read, write, again, made, made_failed, release, exit, finished, finish_failed, readers, writer, giving, finalized_phase, finalizer_failed_phase, read_guard, write_guard, running, done, failed, waiting, waiting_read, waiting_write, waiting_drain, finalizing, skipped, round, closed, waits, no_section, no_outcome, exit_begun, inside};

/// The party that runs a section does not exit, and a generator is not ended as a finalizer. A turn that is barred waits, and
/// another attempt goes on with it.
pub fn an_exit_waits_for_its_turn_as_a_write()
    ensures { GoesWith (exit_cell ∷ [])
        (row (write 0 0) running
        ∷ row (exit 0) inside
        ∷ row (finished 0) no_outcome
        ∷ row (made 0 1) write_guard
        ∷ row (release 0 3) done
        ∷ row (write 0 0) write_guard
        ∷ row (exit 1) (round 1)
        ∷ row (exit 1) waiting
        ∷ row (release 0 5) done
        ∷ row (again 1) (finalizing 0)
        ∷ row (finished 1) finalized_phase
        ∷ [])
        (finalized_with 1 ∷ []) (was_done 0 ∷ []) }
{}

/// On a cell whose calls park a turn that readers alone bar may drain them, as a write. A reader that comes when none is left
/// parks, and is handed the lock when the finalizer ends.
pub fn a_turn_drains_the_readers()
    ensures { GoesWith (parking_exit_cell ∷ [])
        (reads_first 0 0 4
        ++ row (exit 1) (round 1)
        ∷ draining (exit 1) waiting_drain
        ∷ row (read 2 0) read_guard
        ∷ row (release 0 1) done
        ∷ row (release 2 4) done
        ∷ row (read 2 0) waiting_read
        ∷ row (again 1) (finalizing 0)
        ∷ row (finished 1) (giving readers finalized_phase)
        ∷ row (again 2) read_guard
        ∷ [])
        (finalized_with 4 ∷ []) (was_done 0 ∷ []) }
{}

/// Where a writer bars it a turn parks as a writer, and the lock is handed to it.
pub fn a_turn_parks_as_a_writer()
    ensures { GoesWith (parking_exit_cell ∷ [])
        (writes_first 0 0 4
        ++ row (release 0 1) done
        ∷ row (write 0 0) write_guard
        ∷ row (exit 1) (round 1)
        ∷ row (exit 1) waiting_write
        ∷ row (release 0 3) (giving (writer 1) done)
        ∷ row (read 2 0) waiting_read
        ∷ row (again 1) (finalizing 0)
        ∷ row (write 3 0) waiting_write
        ∷ row (finish_failed 1) (giving (writer 3) finalizer_failed_phase)
        ∷ row (again 3) write_guard
        ∷ [])
        (finalizer_failed_with 4 ∷ []) (was_failed 0 ∷ []) }
{}

/// A turn that is skipped takes no lock. Like every step on a cell where nothing stands, it may still hand the lock to the
/// calls that are parked there.
pub fn a_skipped_turn_may_hand_on()
    ensures { GoesWith (parking_exit_cell ∷ [])
        (row (read 0 0) running
        ∷ row (read 1 0) waiting_read
        ∷ row (exit 2) (round 1)
        ∷ row (made_failed 0) failed
        ∷ row (exit 2) (giving readers (skipped 0))
        ∷ row (again 1) running
        ∷ row (made 1 5) read_guard
        ∷ [])
        (registered_with 5 ∷ []) (was_skipped 0 ∷ []) }
{}

/// A turn that waits has taken its cell of the round: another attempt goes on with that cell, and the next exit takes the next.
pub fn a_turn_that_waits_has_taken_its_cell()
    ensures { GoesWith (exit_cell ∷ exit_cell ∷ [])
        (fills 0 0 4 1
        ++ reads_first 0 1 5
        ++ row (exit 1) (round 2)
        ∷ row (exit 1) waiting
        ∷ row (again 1) waiting
        ∷ row (exit 1) waits
        ∷ row (release 0 4) done
        ∷ row (again 1) (finalizing 1)
        ∷ row (finished 1) finalized_phase
        ∷ row (exit 1) (finalizing 0)
        ∷ row (finished 1) finalized_phase
        ∷ row (exit 1) closed
        ∷ [])
        (finalized_with 4 ∷ finalized_with 5 ∷ []) (was_done 1 ∷ was_done 0 ∷ []) }
{}

/// The owner's own guard bars its turn as any other: it waits, and can't give the guard back.
pub fn an_exit_waits_for_its_own_guard()
    ensures { Goes (exit_cell ∷ [])
        (reads_first 0 0 4
        ++ row (exit 0) (round 1)
        ∷ row (exit 0) waiting
        ∷ row (release 0 1) waits
        ∷ row (again 0) waiting
        ∷ [])
        (registered_with 4 ∷ []) }
{}

/// A finalizer that reads its own cell is barred by its own section. It asks for no run, and so is not turned back as cyclic.
pub fn a_finalizer_that_reads_its_own_cell_waits()
    ensures { Goes (exit_cell ∷ [])
        (finalizes_first
        ++ row (read 0 0) waiting
        ∷ row (finished 0) waits
        ∷ row (again 0) waiting
        ∷ [])
        (registered_with 4 ∷ []) }
{}

/// The first exit that is not refused names the owner. Another's is refused for that before it is asked whether the party runs
/// a section, and a party that waits is refused for that first of all.
pub fn another_partys_exit_is_refused()
    ensures { GoesWith (exit_cell ∷ exit_cell ∷ [])
        (row (read 0 0) running
        ∷ row (exit 0) inside
        ∷ row (exit 1) (round 1)
        ∷ row (exit 0) exit_begun
        ∷ row (read 2 0) waiting
        ∷ row (exit 2) waits
        ∷ row (exit 1) (skipped 0)
        ∷ row (exit 3) exit_begun
        ∷ row (made 0 4) read_guard
        ∷ row (exit 0) exit_begun
        ∷ row (write 1 1) running
        ∷ row (exit 1) inside
        ∷ row (made 1 5) write_guard
        ∷ row (exit 1) (round 1)
        ∷ row (exit 1) (skipped 1)
        ∷ row (exit 1) closed
        ∷ row (exit 1) exit_begun
        ∷ [])
        (registered_with 4 ∷ untouched ∷ []) (was_skipped 0 ∷ was_skipped 1 ∷ []) }
{}

/// After the registry is closed an exit is refused for that, also where its party runs a section.
pub fn after_the_exit_even_its_owner_is_refused()
    ensures { Goes (leaking_cell ∷ [])
        (row (exit 0) closed
        ∷ row (write 0 0) running
        ∷ row (exit 0) exit_begun
        ∷ row (exit 1) exit_begun
        ∷ row (made 0 6) write_guard
        ∷ row (release 0 4) done
        ∷ [])
        (leaked_with 6 ∷ []) }
{}

/// Without a section there is no outcome to tell, of a finalizer as of a generator. A write guard is no section that runs.
pub fn a_finalizer_that_does_not_run_cannot_end()
    ensures { GoesWith (exit_cell ∷ [])
        (row (finished 0) no_section
        ∷ row (finish_failed 0) no_section
        ∷ row (write 0 0) running
        ∷ row (finished 1) no_section
        ∷ row (finish_failed 0) no_outcome
        ∷ row (made 0 4) write_guard
        ∷ row (finished 0) no_section
        ∷ row (exit 0) (round 1)
        ∷ row (exit 0) (skipped 0)
        ∷ row (finished 0) no_section
        ∷ [])
        (untouched ∷ []) (was_skipped 0 ∷ []) }
{}
