//! Guards.

ghost use Rattle.std.specs.Prelude.{[], ◌∷◌, ◌++◌};
ghost use Rattle.schedule_examples.specs.Examples.{Goes, row};
ghost use Rattle.schedule_examples.specs.Openings.{writes_first, reads_first};
ghost use Rattle.schedule_examples.specs.Cells.{cell, initialized_with};
ghost use Rattle.schedule_examples.specs.Words.{phase, read, write, made, look, put, release, empty_phase, initialized_phase, value, read_guard, write_guard, running, done, waiting, no_guard};

/// The guard of another party is none, to whatever act.
pub fn a_guard_is_its_party_s_own()
    ensures { Goes (cell ∷ [])
        (reads_first 0 0 6
        ++ row (look 1 1) no_guard
        ∷ row (put 1 1 9) no_guard
        ∷ row (release 1 1) no_guard
        ∷ row (read 1 0) read_guard
        ∷ row (look 0 5) no_guard
        ∷ row (release 0 1) done
        ∷ row (look 1 5) (value 6)
        ∷ [])
        (initialized_with 6 ∷ []) }
{}

/// A guard that was released is none.
pub fn a_guard_is_released_once()
    ensures { Goes (cell ∷ [])
        (writes_first 0 0 6
        ++ row (release 0 1) done
        ∷ row (release 0 1) no_guard
        ∷ row (look 0 1) no_guard
        ∷ row (put 0 1 2) no_guard
        ∷ [])
        (initialized_with 6 ∷ []) }
{}

/// A write guard shows the value set last, and others see it once the guard is released.
pub fn the_value_set_last_is_seen()
    ensures { Goes (cell ∷ [])
        (writes_first 0 0 6
        ++ row (look 0 1) (value 6)
        ∷ row (put 0 1 7) done
        ∷ row (put 0 1 8) done
        ∷ row (look 0 1) (value 8)
        ∷ row (phase 0 0) empty_phase
        ∷ row (release 0 1) done
        ∷ row (phase 0 0) initialized_phase
        ∷ row (read 1 0) read_guard
        ∷ row (look 1 9) (value 8)
        ∷ [])
        (initialized_with 8 ∷ []) }
{}

/// What was set is not published while the guard is open. A read publishes at once what its generator
/// made.
pub fn a_set_is_published_at_the_release()
    ensures { Goes (cell ∷ [])
        (row (read 0 0) running
        ∷ row (phase 1 0) empty_phase
        ∷ row (made 0 3) read_guard
        ∷ row (phase 1 0) initialized_phase
        ∷ row (release 0 2) done
        ∷ row (write 0 0) write_guard
        ∷ row (put 0 5 4) done
        ∷ row (look 0 5) (value 4)
        ∷ row (phase 1 0) initialized_phase
        ∷ [])
        (initialized_with 3 ∷ []) }
{}

/// A party may hold two read guards, and releases each by its number. Its own read guard bars its
/// write.
pub fn two_guards_of_one_party()
    ensures { Goes (cell ∷ [])
        (reads_first 0 0 1
        ++ row (read 0 0) read_guard
        ∷ row (release 0 1) done
        ∷ row (look 0 1) no_guard
        ∷ row (look 0 2) (value 1)
        ∷ row (write 0 0) waiting
        ∷ [])
        (initialized_with 1 ∷ []) }
{}
