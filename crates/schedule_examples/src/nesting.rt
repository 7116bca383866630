//! Generators within generators.

ghost use Rattle.std.specs.Prelude.{[], ◌∷◌, ◌++◌};
ghost use Rattle.schedule_examples.specs.Examples.{Goes, row};
ghost use Rattle.schedule_examples.specs.Openings.{reads_first};
ghost use Rattle.schedule_examples.specs.Cells.{cell, untouched, initialized_with};
ghost use Rattle.schedule_examples.specs.Words.{phase, read, write, made, made_failed, look, empty_phase, failed_phase, value, read_guard, write_guard, running, failed, cyclic, waiting};

/// Of three generators within each other the middle one fails, and is run again before the outer one
/// ends.
pub fn a_failure_in_the_middle_of_three()
    ensures { Goes (cell ∷ cell ∷ cell ∷ [])
        (row (read 0 0) running
        ∷ row (read 0 1) running
        ∷ reads_first 0 2 9
        ++ row (made_failed 0) failed
        ∷ row (phase 0 1) failed_phase
        ∷ reads_first 0 1 8
        ++ row (made 0 7) read_guard
        ∷ row (look 0 3) (value 9)
        ∷ row (look 0 7) (value 8)
        ∷ row (look 0 8) (value 7)
        ∷ [])
        (initialized_with 7 ∷ initialized_with 8 ∷ initialized_with 9 ∷ []) }
{}

/// A call for a cell whose generator its own party runs is cyclic, at any depth, and leaves the party
/// free. Asking for the phase is not, nor is a call once the generator ended.
pub fn cyclic_while_the_generator_runs()
    ensures { Goes (cell ∷ cell ∷ [])
        (row (write 0 0) running
        ∷ row (write 0 0) cyclic
        ∷ row (read 0 1) running
        ∷ row (write 0 0) cyclic
        ∷ row (read 0 1) cyclic
        ∷ row (phase 0 0) empty_phase
        ∷ row (made 0 1) read_guard
        ∷ row (read 0 1) read_guard
        ∷ row (read 0 0) cyclic
        ∷ row (made 0 2) write_guard
        ∷ row (read 0 0) waiting
        ∷ [])
        (untouched ∷ initialized_with 1 ∷ []) }
{}

/// A read whose cell runs its generator further out is cyclic, and the generators around it go on.
pub fn a_cyclic_read_leaves_the_generators()
    ensures { Goes (cell ∷ cell ∷ [])
        (row (read 0 0) running
        ∷ row (read 0 1) running
        ∷ row (read 0 0) cyclic
        ∷ row (made 0 4) read_guard
        ∷ row (made 0 5) read_guard
        ∷ row (look 0 3) (value 4)
        ∷ row (look 0 4) (value 5)
        ∷ [])
        (initialized_with 5 ∷ initialized_with 4 ∷ []) }
{}

/// An outcome ends a section of its own party, also where another party opened one later.
pub fn each_party_ends_its_own_section()
    ensures { Goes (cell ∷ cell ∷ [])
        (row (read 0 0) running
        ∷ row (read 1 1) running
        ∷ row (made 0 1) read_guard
        ∷ row (made 1 2) read_guard
        ∷ row (look 0 2) (value 1)
        ∷ row (look 1 3) (value 2)
        ∷ [])
        (initialized_with 1 ∷ initialized_with 2 ∷ []) }
{}
