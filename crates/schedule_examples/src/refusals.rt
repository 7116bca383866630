//! Steps that are refused.

ghost use Rattle.std.specs.Prelude.{[], ◌∷◌};
ghost use Rattle.schedule_examples.specs.Examples.{Goes, row};
ghost use Rattle.schedule_examples.specs.Cells.{cell, untouched, initialized_with};
ghost use Rattle.schedule_examples.specs.Words.{phase, read, write, again, made, made_failed, look, put, release, empty_phase, value, read_guard, write_guard, running, done, waiting, waits, not_waiting, no_guard, not_writer, no_section};

/// While a party waits, each of its acts but another attempt is refused for that reason, before any
/// other is asked. A refused step changes nothing, and once the call is through there is nothing to
/// go on with.
pub fn a_waiting_party_may_only_go_on()
    ensures { Goes (cell ∷ [])
        (row (read 0 0) running
        ∷ row (read 1 0) waiting
        ∷ row (made 1 4) waits
        ∷ row (made_failed 1) waits
        ∷ row (phase 1 0) waits
        ∷ row (look 1 9) waits
        ∷ row (put 1 9 1) waits
        ∷ row (release 1 9) waits
        ∷ row (read 1 0) waits
        ∷ row (again 1) waiting
        ∷ row (made 0 4) read_guard
        ∷ row (again 1) read_guard
        ∷ row (again 1) not_waiting
        ∷ row (look 1 11) (value 4)
        ∷ [])
        (initialized_with 4 ∷ []) }
{}

/// A party that does not wait cannot go on. Without a section of its own it has no outcome to tell,
/// and without a guard of its own nothing to look at, to set or to release. A read guard sets nothing.
pub fn what_a_party_lacks_is_refused()
    ensures { Goes (cell ∷ [])
        (row (again 0) not_waiting
        ∷ row (made 0 1) no_section
        ∷ row (made_failed 0) no_section
        ∷ row (look 0 0) no_guard
        ∷ row (put 0 0 1) no_guard
        ∷ row (release 0 0) no_guard
        ∷ row (read 0 0) running
        ∷ row (made 1 1) no_section
        ∷ row (made_failed 1) no_section
        ∷ row (made 0 2) read_guard
        ∷ row (made 0 3) no_section
        ∷ row (put 0 9 3) not_writer
        ∷ row (look 0 9) (value 2)
        ∷ [])
        (initialized_with 2 ∷ []) }
{}

/// A refused call of a party that waits does not take the place of the one that waits.
pub fn a_refused_step_leaves_the_call_that_waits()
    ensures { Goes (cell ∷ cell ∷ [])
        (row (write 0 0) running
        ∷ row (write 1 0) waiting
        ∷ row (read 1 1) waits
        ∷ row (made 0 6) write_guard
        ∷ row (release 0 3) done
        ∷ row (again 1) write_guard
        ∷ row (look 1 5) (value 6)
        ∷ row (phase 1 1) empty_phase
        ∷ [])
        (initialized_with 6 ∷ untouched ∷ []) }
{}

/// A party that waits within its generator cannot end it. It ends it once its call is through.
pub fn a_refused_outcome_ends_no_section()
    ensures { Goes (cell ∷ cell ∷ [])
        (row (write 1 1) running
        ∷ row (read 0 0) running
        ∷ row (read 0 1) waiting
        ∷ row (made 0 5) waits
        ∷ row (made_failed 0) waits
        ∷ row (made 1 4) write_guard
        ∷ row (release 1 5) done
        ∷ row (again 0) read_guard
        ∷ row (look 0 7) (value 4)
        ∷ row (made 0 6) read_guard
        ∷ row (look 0 9) (value 6)
        ∷ [])
        (initialized_with 6 ∷ initialized_with 4 ∷ []) }
{}
