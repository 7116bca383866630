//! The one line of an exit that goes, beside lines that no choice makes legal there, and the turns that a transcript tells.

ghost use Rattle.std.specs.Prelude.{[], ◌∷◌, ◌++◌};
ghost use Rattle.schedule_examples.specs.Examples.{GoesOnlySo, EndsOnlySo, row, early};
ghost use Rattle.schedule_examples.specs.Openings.{writes_first, reads_first, fills, two_filled, finalizes_first};
ghost use Rattle.schedule_examples.specs.Cells.{cell, exit_cell, parking_exit_cell, leaking_cell, untouched, registered_with, finalized_with, finalizer_failed_with, was_done, was_failed, was_skipped};
ghost use Rattle.schedule_examples.specs.Words.{phase, read, write, again, made, made_failed, release, exit, finished, finish_failed, readers, giving, registered_phase, finalized_phase, finalizer_failed_phase, read_guard, write_guard, running, done, failed, waiting, waiting_read, waiting_write, finalizing, skipped, round, closed, waits, no_section, no_outcome, exit_begun, inside};

/// A turn of the cell registered first, one of a cell of the next round, and a look while cells are left.
pub fn an_exit_does_not_take_the_oldest_first()
    ensures oldest { GoesOnlySo (exit_cell ∷ exit_cell ∷ [])
        (two_filled
        ++ row (exit 0) (round 2)
        ∷ [])
        (row (exit 0) (finalizing 1)) (finalizing 0 ∷ closed ∷ []) }
    ensures next_round { GoesOnlySo (exit_cell ∷ exit_cell ∷ [])
        (fills 0 0 4 1
        ++ row (exit 0) (round 1)
        ∷ row (read 1 1) running
        ∷ row (made 1 5) read_guard
        ∷ row (release 1 5) done
        ∷ [])
        (row (exit 0) (finalizing 0)) (finalizing 1 ∷ []) }
{}

/// A look that leaves out a cell, whether it was registered before the exit or during it, one that takes a cell twice, or one of
/// another kind; and a cell that has its turn twice.
pub fn a_look_drops_no_cell()
    ensures before { GoesOnlySo (exit_cell ∷ exit_cell ∷ [])
        two_filled
        (row (exit 0) (round 2)) (round 1 ∷ closed ∷ []) }
    ensures during { GoesOnlySo (exit_cell ∷ exit_cell ∷ [])
        (fills 0 0 4 1
        ++ row (exit 0) (round 1)
        ∷ row (exit 0) (finalizing 0)
        ∷ row (read 1 1) running
        ∷ row (finished 0) finalized_phase
        ∷ [])
        (row (exit 0) (round 1)) (closed ∷ []) }
    ensures twice { GoesOnlySo (exit_cell ∷ [])
        (finalizes_first
        ++ row (finished 0) finalized_phase
        ∷ [])
        (row (exit 0) closed) (round 1 ∷ finalizing 0 ∷ []) }
    ensures retried { GoesOnlySo (exit_cell ∷ [])
        (row (read 0 0) running
        ∷ row (made_failed 0) failed
        ∷ reads_first 0 0 4)
        (row (exit 0) (round 1)) (round 2 ∷ []) }
    ensures unregistered { GoesOnlySo (cell ∷ [])
        (reads_first 0 0 4)
        (row (exit 0) closed) (round 1 ∷ []) }
{}

/// A turn that skips a cell whose value is published, or waits where nothing bars it, and one that finalizes a cell whose value
/// is not published.
pub fn a_turn_skips_exactly_where_there_is_no_value()
    ensures skips { GoesOnlySo (exit_cell ∷ [])
        (fills 0 0 4 1
        ++ row (exit 0) (round 1)
        ∷ [])
        (row (exit 0) (finalizing 0)) (skipped 0 ∷ waiting ∷ []) }
    ensures runs { GoesOnlySo (exit_cell ∷ [])
        (row (read 0 0) running
        ∷ row (exit 1) (round 1)
        ∷ [])
        (row (exit 1) (skipped 0)) (finalizing 0 ∷ []) }
    ensures failed { GoesOnlySo (exit_cell ∷ [])
        (row (read 0 0) running
        ∷ row (made_failed 0) failed
        ∷ row (exit 1) (round 1)
        ∷ [])
        (row (exit 1) (skipped 0)) (finalizing 0 ∷ []) }
    ensures guarded { GoesOnlySo (exit_cell ∷ [])
        (writes_first 0 0 4
        ++ row (exit 1) (round 1)
        ∷ [])
        (row (exit 1) (skipped 0)) (finalizing 0 ∷ []) }
{}

/// A turn beside a reader, one that is skipped for being barred, one that parks as a reader, and another attempt that takes the
/// next cell.
pub fn a_turn_waits_exactly_where_a_write_does()
    ensures beside { GoesOnlySo (exit_cell ∷ [])
        (reads_first 0 0 4
        ++ row (exit 1) (round 1)
        ∷ [])
        (row (exit 1) waiting) (finalizing 0 ∷ skipped 0 ∷ []) }
    ensures reader { GoesOnlySo (parking_exit_cell ∷ [])
        (writes_first 0 0 4
        ++ row (release 0 1) done
        ∷ row (write 0 0) write_guard
        ∷ row (exit 1) (round 1)
        ∷ [])
        (row (exit 1) waiting_write) (waiting_read ∷ []) }
    ensures next { GoesOnlySo (exit_cell ∷ exit_cell ∷ [])
        (fills 0 0 4 1
        ++ reads_first 0 1 5
        ++ row (exit 1) (round 2)
        ∷ row (exit 1) waiting
        ∷ row (release 0 4) done
        ∷ [])
        (row (again 1) (finalizing 1)) (finalizing 0 ∷ []) }
{}

/// A look, which concerns no cell, and a turn that begins a finalizer, with a gift to a reader that is parked.
pub fn an_exit_that_looks_or_finalizes_gives_nothing()
    ensures looks { GoesOnlySo (parking_exit_cell ∷ [])
        (row (read 0 0) running
        ∷ row (read 1 0) waiting_read
        ∷ row (made_failed 0) failed
        ∷ [])
        (row (exit 2) (round 1)) (giving readers (round 1) ∷ []) }
    ensures finalizes { GoesOnlySo (parking_exit_cell ∷ [])
        (writes_first 0 0 4
        ++ row (read 1 0) waiting_read
        ∷ row (release 0 1) done
        ∷ row (exit 2) (round 1)
        ∷ [])
        (row (exit 2) (finalizing 0)) (giving readers (finalizing 0) ∷ []) }
{}

/// The phase of a finalizer before it ended, that of one that failed for one that did not, and the other way round.
pub fn a_finalizer_publishes_at_its_end()
    ensures early { GoesOnlySo (exit_cell ∷ [])
        finalizes_first
        (row (phase 1 0) registered_phase) (finalized_phase ∷ []) }
    ensures finished { GoesOnlySo (exit_cell ∷ [])
        finalizes_first
        (row (finished 0) finalized_phase) (finalizer_failed_phase ∷ registered_phase ∷ []) }
    ensures failed { GoesOnlySo (exit_cell ∷ [])
        finalizes_first
        (row (finish_failed 0) finalizer_failed_phase) (finalized_phase ∷ []) }
{}

/// A later reason where an earlier one holds, and a reason that does not hold.
pub fn the_first_reason_refuses()
    ensures section { GoesOnlySo (exit_cell ∷ [])
        []
        (row (finished 0) no_section) (no_outcome ∷ []) }
    ensures ends { GoesOnlySo (exit_cell ∷ [])
        (row (write 0 0) running
        ∷ [])
        (row (finished 0) no_outcome) (no_section ∷ finalized_phase ∷ []) }
    ensures makes { GoesOnlySo (exit_cell ∷ [])
        finalizes_first
        (row (made 0 4) no_outcome) (read_guard ∷ []) }
    ensures owner { GoesOnlySo (exit_cell ∷ [])
        (row (write 0 0) running
        ∷ row (exit 1) (round 1)
        ∷ [])
        (row (exit 0) exit_begun) (inside ∷ []) }
    ensures over { GoesOnlySo (leaking_cell ∷ [])
        (row (exit 0) closed
        ∷ row (write 0 0) running
        ∷ [])
        (row (exit 0) exit_begun) (inside ∷ []) }
    ensures waiting { GoesOnlySo (exit_cell ∷ [])
        (row (write 0 0) running
        ∷ row (read 1 0) waiting
        ∷ row (exit 2) (round 1)
        ∷ [])
        (row (exit 1) waits) (exit_begun ∷ []) }
    ensures begun { GoesOnlySo (exit_cell ∷ [])
        (row (write 0 0) running
        ∷ row (exit 0) inside
        ∷ [])
        (row (exit 1) (round 1)) (exit_begun ∷ []) }
    ensures closed { GoesOnlySo (exit_cell ∷ [])
        (row (exit 0) closed
        ∷ [])
        (row (exit 0) exit_begun) (closed ∷ []) }
{}

/// Turns in another order, left out, before they ended, twice, or by another end; and a turn where none was.
pub fn the_exits_are_the_turns_that_ended()
    ensures order { EndsOnlySo (exit_cell ∷ exit_cell ∷ [])
        (two_filled
        ++ row (exit 0) (round 2)
        ∷ row (exit 0) (finalizing 1)
        ∷ row (finished 0) finalized_phase
        ∷ row (exit 0) (finalizing 0)
        ∷ row (finished 0) finalized_phase
        ∷ row (exit 0) closed
        ∷ [])
        (finalized_with 4 ∷ finalized_with 5 ∷ []) (was_done 1 ∷ was_done 0 ∷ []) ((was_done 0 ∷ was_done 1 ∷ []) ∷ []) }
    ensures left_out { EndsOnlySo (exit_cell ∷ [])
        (row (read 0 0) running
        ∷ row (exit 1) (round 1)
        ∷ row (exit 1) (skipped 0)
        ∷ [])
        (untouched ∷ []) (was_skipped 0 ∷ []) ([] ∷ []) }
    ensures unended { EndsOnlySo (exit_cell ∷ [])
        finalizes_first
        (registered_with 4 ∷ []) [] ((was_done 0 ∷ []) ∷ []) }
    ensures done { EndsOnlySo (exit_cell ∷ [])
        (finalizes_first
        ++ row (finished 0) finalized_phase
        ∷ [])
        (finalized_with 4 ∷ []) (was_done 0 ∷ []) ((was_done 0 ∷ was_done 0 ∷ []) ∷ (was_skipped 0 ∷ []) ∷ []) }
    ensures failed { EndsOnlySo (exit_cell ∷ [])
        (finalizes_first
        ++ row (finish_failed 0) finalizer_failed_phase
        ∷ [])
        (finalizer_failed_with 4 ∷ []) (was_failed 0 ∷ []) ((was_done 0 ∷ []) ∷ []) }
    ensures none { EndsOnlySo (exit_cell ∷ [])
        (row (exit 0) closed
        ∷ [])
        (untouched ∷ []) [] ((was_skipped 0 ∷ []) ∷ []) }
{}
