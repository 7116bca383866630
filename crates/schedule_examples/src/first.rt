//! First schedules.

ghost use Rattle.std.specs.Prelude.{[], ◌∷◌, ◌++◌};
ghost use Rattle.schedule_examples.specs.Examples.{Goes, row};
ghost use Rattle.schedule_examples.specs.Openings.{writes_first, reads_first};
ghost use Rattle.schedule_examples.specs.Cells.{cell, initialized_with};
ghost use Rattle.schedule_examples.specs.Words.{phase, read, write, made, look, put, release, empty_phase, initialized_phase, value, read_guard, write_guard, running, done, cyclic};

/// Without cells and steps there is nothing to answer.
pub fn nothing()
    ensures { Goes [] [] [] }
{}

/// A read runs the generator, a write sets another value, and a second read sees it.
pub fn reads_sets_and_reads_back()
    ensures { Goes (cell ∷ [])
        (reads_first 0 0 22
        ++ row (look 0 1) (value 22)
        ∷ row (release 0 1) done
        ∷ row (write 0 0) write_guard
        ∷ row (put 0 4 33) done
        ∷ row (release 0 4) done
        ∷ row (read 0 0) read_guard
        ∷ row (look 0 7) (value 33)
        ∷ [])
        (initialized_with 33 ∷ []) }
{}

/// The phase that a write reached is published when its guard is released, and not before.
pub fn a_write_publishes_its_phase_at_its_release()
    ensures { Goes (cell ∷ [])
        (writes_first 0 0 7
        ++ row (phase 1 0) empty_phase
        ∷ row (look 0 1) (value 7)
        ∷ row (release 0 1) done
        ∷ row (phase 1 0) initialized_phase
        ∷ [])
        (initialized_with 7 ∷ []) }
{}

/// A generator reads another cell, and asks in vain for its own. An outcome ends the section that was
/// opened last.
pub fn a_generator_reads_another_cell()
    ensures { Goes (cell ∷ cell ∷ [])
        (row (read 0 0) running
        ∷ row (read 0 1) running
        ∷ row (read 0 0) cyclic
        ∷ row (made 0 4) read_guard
        ∷ row (made 0 5) read_guard
        ∷ row (look 0 3) (value 4)
        ∷ row (look 0 4) (value 5)
        ∷ [])
        (initialized_with 5 ∷ initialized_with 4 ∷ []) }
{}
