//! The exit: rounds, and turns that finalize, fail or skip.

ghost use Rattle.std.specs.Prelude.{[], ◌∷◌, ◌++◌};
ghost use Rattle.schedule_examples.specs.Examples.{Goes, GoesWith, row};
ghost use Rattle.schedule_examples.specs.Openings.{writes_first, fills, two_filled, finalizes_first};
ghost use Rattle.schedule_examples.specs.Cells.{exit_cell, parking_exit_cell, untouched, registered_with, finalized_with, finalizer_failed_with, was_done, was_failed, was_skipped};
ghost use Rattle.schedule_examples.specs.Words.{phase, read, write, made, made_failed, look, put, release, exit, finished, finish_failed, empty_phase, registered_phase, finalized_phase, finalizer_failed_phase, value, read_guard, write_guard, running, done, finalizing, skipped, round, closed, no_outcome, exit_begun, inside};

/// Without a registered cell the first look closes the registry, and the exit is over.
pub fn an_exit_without_cells_closes()
    ensures { Goes (exit_cell ∷ [])
        (row (exit 0) closed
        ∷ row (exit 0) exit_begun
        ∷ row (exit 1) exit_begun
        ∷ row (phase 0 0) empty_phase
        ∷ [])
        (untouched ∷ []) }
{}

/// A turn opens a section of its owner, and the end of the finalizer publishes its phase. The value stays.
pub fn a_turn_finalizes_a_cell()
    ensures { GoesWith (exit_cell ∷ [])
        (fills 0 0 4 1
        ++ row (exit 1) (round 1)
        ∷ row (exit 1) (finalizing 0)
        ∷ row (phase 0 0) registered_phase
        ∷ row (finished 1) finalized_phase
        ∷ row (exit 1) closed
        ∷ row (read 0 0) read_guard
        ∷ row (look 0 8) (value 4)
        ∷ [])
        (finalized_with 4 ∷ []) (was_done 0 ∷ []) }
{}

/// A finalizer that fails ends its turn too. The exit goes on, and the value may still be read.
pub fn a_finalizer_that_fails_is_noted()
    ensures { GoesWith (exit_cell ∷ exit_cell ∷ [])
        (two_filled
        ++ row (exit 0) (round 2)
        ∷ row (exit 0) (finalizing 1)
        ∷ row (finish_failed 0) finalizer_failed_phase
        ∷ row (read 0 1) read_guard
        ∷ row (look 0 9) (value 5)
        ∷ row (exit 0) (finalizing 0)
        ∷ row (finished 0) finalized_phase
        ∷ row (exit 0) closed
        ∷ [])
        (finalized_with 4 ∷ finalizer_failed_with 5 ∷ []) (was_failed 1 ∷ was_done 0 ∷ []) }
{}

/// A look takes the cells registered since the last one, the latest first. A cell that is registered between two looks is
/// taken by the second.
pub fn cells_are_taken_in_rounds_the_latest_first()
    ensures { GoesWith (exit_cell ∷ exit_cell ∷ exit_cell ∷ [])
        (writes_first 0 0 1
        ++ row (release 0 1) done
        ∷ writes_first 0 1 2
        ++ row (release 0 4) done
        ∷ row (exit 0) (round 2)
        ∷ row (exit 0) (finalizing 1)
        ∷ writes_first 1 2 3
        ++ row (release 1 9) done
        ∷ row (finished 0) finalized_phase
        ∷ row (exit 0) (finalizing 0)
        ∷ row (finished 0) finalized_phase
        ∷ row (exit 0) (round 1)
        ∷ row (exit 0) (finalizing 2)
        ∷ row (finished 0) finalized_phase
        ∷ row (exit 0) closed
        ∷ [])
        (finalized_with 1 ∷ finalized_with 2 ∷ finalized_with 3 ∷ []) (was_done 1 ∷ was_done 0 ∷ was_done 2 ∷ []) }
{}

/// The turns go by the order of registration, and not by that of the cells, nor by that in which their runs ended.
pub fn registration_orders_the_turns()
    ensures { GoesWith (exit_cell ∷ exit_cell ∷ exit_cell ∷ [])
        (row (write 0 2) running
        ∷ row (write 1 0) running
        ∷ row (write 2 1) running
        ∷ row (made 1 5) write_guard
        ∷ row (release 1 3) done
        ∷ row (made 2 6) write_guard
        ∷ row (release 2 5) done
        ∷ row (made 0 7) write_guard
        ∷ row (release 0 7) done
        ∷ row (exit 1) (round 3)
        ∷ row (exit 1) (finalizing 1)
        ∷ row (finished 1) finalized_phase
        ∷ row (exit 1) (finalizing 0)
        ∷ row (finished 1) finalized_phase
        ∷ row (exit 1) (finalizing 2)
        ∷ row (finished 1) finalized_phase
        ∷ row (exit 1) closed
        ∷ [])
        (finalized_with 5 ∷ finalized_with 6 ∷ finalized_with 7 ∷ []) (was_done 1 ∷ was_done 0 ∷ was_done 2 ∷ []) }
{}

/// A turn skips a cell whose generator still runs. The value comes later, and is never finalized.
pub fn a_turn_skips_a_cell_whose_value_is_not_published()
    ensures { GoesWith (parking_exit_cell ∷ [])
        (row (read 0 0) running
        ∷ row (exit 1) (round 1)
        ∷ row (exit 1) (skipped 0)
        ∷ row (made 0 4) read_guard
        ∷ row (release 0 3) done
        ∷ row (exit 1) closed
        ∷ row (phase 1 0) registered_phase
        ∷ row (exit 1) exit_begun
        ∷ [])
        (registered_with 4 ∷ []) (was_skipped 0 ∷ []) }
{}

/// The same where the value is made and its write guard is still open: its phase is not published.
pub fn a_turn_skips_a_cell_whose_write_guard_is_open()
    ensures { GoesWith (exit_cell ∷ [])
        (writes_first 0 0 4
        ++ row (exit 1) (round 1)
        ∷ row (exit 1) (skipped 0)
        ∷ row (release 0 1) done
        ∷ row (exit 1) closed
        ∷ [])
        (registered_with 4 ∷ []) (was_skipped 0 ∷ []) }
{}

/// A finalizer reads a cell that is not yet initialized, and so registers it. An outcome ends the section opened last, and
/// must be of its sort; the exit goes on when no section runs.
pub fn a_finalizer_calls_other_cells()
    ensures { GoesWith (exit_cell ∷ exit_cell ∷ [])
        (finalizes_first
        ++ row (read 0 1) running
        ∷ row (finished 0) no_outcome
        ∷ row (finish_failed 0) no_outcome
        ∷ row (exit 0) inside
        ∷ row (made 0 5) read_guard
        ∷ row (made 0 6) no_outcome
        ∷ row (made_failed 0) no_outcome
        ∷ row (exit 0) inside
        ∷ row (finished 0) finalized_phase
        ∷ row (release 0 9) done
        ∷ row (exit 0) (round 1)
        ∷ row (exit 0) (finalizing 1)
        ∷ row (finished 0) finalized_phase
        ∷ row (exit 0) closed
        ∷ [])
        (finalized_with 4 ∷ finalized_with 5 ∷ []) (was_done 0 ∷ was_done 1 ∷ []) }
{}

/// A finalized cell is read and written as before. Its phase stays, and it has no second turn.
pub fn a_finalized_cell_is_written_on()
    ensures { GoesWith (exit_cell ∷ [])
        (finalizes_first
        ++ row (finished 0) finalized_phase
        ∷ row (write 0 0) write_guard
        ∷ row (put 0 6 8) done
        ∷ row (release 0 6) done
        ∷ row (phase 0 0) finalized_phase
        ∷ row (exit 0) closed
        ∷ [])
        (finalized_with 8 ∷ []) (was_done 0 ∷ []) }
{}
