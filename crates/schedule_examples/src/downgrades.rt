//! Write guards that are turned into read guards, and read guards that are cloned.

ghost use Rattle.std.specs.Prelude.{[], ◌∷◌, ◌++◌};
ghost use Rattle.schedule_examples.specs.Examples.{Goes, row, draining};
ghost use Rattle.schedule_examples.specs.Openings.{writes_first, reads_first};
ghost use Rattle.schedule_examples.specs.Cells.{cell, parking_cell, initialized_with};
ghost use Rattle.schedule_examples.specs.Words.{phase, read, write, again, made, look, put, release, downgrade, clone, readers, giving, empty_phase, initialized_phase, value, read_guard, write_guard, running, done, waiting_read, waiting_drain, waits, no_guard, not_writer};

/// A downgrade hands read locks to the parked readers, and its holder reads on. A read guard is cloned.
pub fn a_downgrade_gives_readers()
    ensures { Goes (parking_cell ∷ [])
        (writes_first 0 0 7
        ++ row (read 1 0) waiting_read
        ∷ row (downgrade 0 1) (giving readers read_guard)
        ∷ row (again 1) read_guard
        ∷ row (look 0 3) (value 7)
        ∷ row (clone 0 3) read_guard
        ∷ [])
        (initialized_with 7 ∷ []) }
{}

/// A downgrade need not give. The parked reader gets in by itself where it steps, since no reader bars a reader.
pub fn a_downgrade_need_not_give()
    ensures { Goes (parking_cell ∷ [])
        (writes_first 0 0 7
        ++ row (read 1 0) waiting_read
        ∷ row (downgrade 0 1) read_guard
        ∷ row (again 1) read_guard
        ∷ row (look 0 3) (value 7)
        ∷ row (clone 0 3) read_guard
        ∷ [])
        (initialized_with 7 ∷ []) }
{}

/// A downgrade publishes what was set, and ends the write guard. The new guard shows what is published.
pub fn a_downgrade_publishes()
    ensures { Goes (cell ∷ [])
        (writes_first 0 0 7
        ++ row (put 0 1 8) done
        ∷ row (phase 1 0) empty_phase
        ∷ row (downgrade 0 1) read_guard
        ∷ row (phase 1 0) initialized_phase
        ∷ row (look 0 1) no_guard
        ∷ row (look 0 4) (value 8)
        ∷ row (put 0 4 9) not_writer
        ∷ row (read 1 0) read_guard
        ∷ row (look 1 9) (value 8)
        ∷ [])
        (initialized_with 8 ∷ []) }
{}

/// A clone is a guard of its own: it reads on where the first is given back, and bars writes as long.
pub fn a_clone_outlives_its_guard()
    ensures { Goes (parking_cell ∷ [])
        (reads_first 0 0 5
        ++ row (clone 0 1) read_guard
        ∷ draining (write 1 0) waiting_drain
        ∷ row (clone 0 2) read_guard
        ∷ row (release 0 1) done
        ∷ row (look 0 1) no_guard
        ∷ row (look 0 2) (value 5)
        ∷ row (release 0 4) done
        ∷ row (release 0 2) done
        ∷ row (again 1) write_guard
        ∷ [])
        (initialized_with 5 ∷ []) }
{}

/// A downgrade of a read guard is refused, and a clone of a write guard; so are both of a guard that is not open, or that
/// is another party's. A party that waits may do neither.
pub fn downgrades_and_clones_are_refused()
    ensures { Goes (parking_cell ∷ [])
        (row (write 0 0) running
        ∷ row (downgrade 0 0) no_guard
        ∷ row (clone 0 0) no_guard
        ∷ row (made 0 7) write_guard
        ∷ row (clone 0 3) no_guard
        ∷ row (downgrade 1 3) no_guard
        ∷ row (clone 1 3) no_guard
        ∷ row (downgrade 0 3) read_guard
        ∷ row (downgrade 0 3) no_guard
        ∷ row (downgrade 0 7) not_writer
        ∷ row (downgrade 1 7) no_guard
        ∷ row (clone 1 7) no_guard
        ∷ draining (write 0 0) waiting_drain
        ∷ row (downgrade 0 7) waits
        ∷ row (clone 0 7) waits
        ∷ [])
        (initialized_with 7 ∷ []) }
{}
