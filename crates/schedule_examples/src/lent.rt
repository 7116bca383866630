//! Values that are lent for a step, to a party that finds the cell in nobody's use.

ghost use Rattle.std.specs.Prelude.{[], ◌∷◌, ◌++◌};
ghost use Rattle.schedule_examples.specs.Examples.{Goes, GoesOnlySo, row};
ghost use Rattle.schedule_examples.specs.Openings.{writes_first, reads_first, fills, gets_first, finalizes_first};
ghost use Rattle.schedule_examples.specs.Cells.{cell, parking_cell, once_cell, own_cell, exit_cell, lazy_cell, parking_lazy_cell, lazy_exit_cell, own_lazy_cell, primed_cell, untouched, untouched_with, initialized_with, left_failed};
ghost use Rattle.schedule_examples.specs.Words.{phase, try_get, get, read, write, again, made, look, release, get_mut, get_mut_failing, try_get_mut, giving, readers, writer, empty_phase, failed_phase, initialized_phase, value, read_guard, write_guard, running, done, empty_access, failed_access, failed, cyclic, borrowed, missed, waiting, waiting_write, waits, not_owner, no_such_call, in_use};

/// A get_mut of an empty cell runs the generator in its own step. What it makes is found, and what the party leaves stays
/// there. Where it fails nothing is left, and the next one runs it again. A try_get_mut runs nothing.
pub fn a_get_mut_of_an_empty_cell_runs()
    ensures { Goes (lazy_cell ∷ [])
        (row (try_get_mut 0 0 3) empty_access
        ∷ row (get_mut_failing 0 0 3) failed
        ∷ row (phase 0 0) failed_phase
        ∷ row (try_get_mut 0 0 3) failed_access
        ∷ row (get_mut 0 0 8 3) (value 8)
        ∷ row (try_get 0 0) (value 3)
        ∷ row (phase 0 0) initialized_phase
        ∷ row (read 0 0) no_such_call
        ∷ [])
        (initialized_with 3 ∷ []) }
{}

/// Without retry there is one run. After it nothing is lent, whatever the generator would make.
pub fn without_retry_nothing_is_lent_after_a_failure()
    ensures { Goes (once_cell ∷ [])
        (row (get_mut_failing 0 0 3) failed
        ∷ row (get_mut 0 0 8 3) failed_access
        ∷ row (try_get_mut 0 0 3) failed_access
        ∷ row (read 0 0) failed_access
        ∷ [])
        (left_failed ∷ []) }
{}

/// A cell is in use while a section of it runs, while a guard of it is open, and while a call waits at it, also where nothing
/// bars that call any more. The party's own use counts as that of others.
pub fn a_cell_in_use_is_not_lent()
    ensures { Goes (cell ∷ [])
        (row (write 0 0) running
        ∷ row (get_mut 0 0 1 2) in_use
        ∷ row (made 0 3) write_guard
        ∷ row (try_get_mut 0 0 2) in_use
        ∷ row (read 1 0) waiting
        ∷ row (get_mut 1 0 1 2) waits
        ∷ row (release 0 2) done
        ∷ row (get_mut 2 0 1 2) in_use
        ∷ row (again 1) read_guard
        ∷ row (try_get_mut 2 0 2) in_use
        ∷ row (release 1 8) done
        ∷ row (get_mut 2 0 1 2) (value 3)
        ∷ row (try_get_mut 2 0 6) (value 2)
        ∷ row (get_mut_failing 0 0 7) (value 6)
        ∷ [])
        (initialized_with 7 ∷ []) }
{}

/// A party lends a value of its own cell, and none of another's. That is asked before what the kind lends.
pub fn an_own_value_is_lent_to_its_party()
    ensures { Goes (own_lazy_cell 0 ∷ own_cell 1 ∷ lazy_exit_cell ∷ primed_cell 8 ∷ [])
        (row (get_mut 0 0 4 5) (value 4)
        ∷ row (get_mut 1 0 6 7) not_owner
        ∷ row (try_get_mut 0 1 7) not_owner
        ∷ row (get_mut 1 1 6 7) (value 6)
        ∷ row (get_mut 0 2 6 7) no_such_call
        ∷ row (try_get_mut 0 3 7) no_such_call
        ∷ [])
        (initialized_with 5 ∷ initialized_with 7 ∷ untouched ∷ untouched_with 8 ∷ []) }
{}

/// A run where none is due, one that opens a section, a value that is left in place of the one found, and a failure of a
/// generator that does not run.
pub fn a_get_mut_runs_exactly_where_a_run_is_due()
    ensures empty { GoesOnlySo (lazy_cell ∷ [])
        []
        (row (get_mut 0 0 8 3) (value 8)) (value 3 ∷ running ∷ empty_access ∷ failed ∷ done ∷ []) }
    ensures fails { GoesOnlySo (lazy_cell ∷ [])
        []
        (row (get_mut_failing 0 0 3) failed) (value 3 ∷ value 0 ∷ empty_access ∷ failed_access ∷ []) }
    ensures there { GoesOnlySo (lazy_cell ∷ [])
        (gets_first 0 0 4)
        (row (get_mut 1 0 8 3) (value 4)) (value 8 ∷ value 3 ∷ []) }
    ensures kept { GoesOnlySo (lazy_cell ∷ [])
        (gets_first 0 0 4)
        (row (get_mut_failing 1 0 3) (value 4)) (failed ∷ value 3 ∷ []) }
    ensures once { GoesOnlySo (once_cell ∷ [])
        (row (get_mut_failing 0 0 3) failed
        ∷ [])
        (row (get_mut 0 0 8 3) failed_access) (value 8 ∷ failed ∷ []) }
{}

/// A try_get_mut that runs the generator, and one that lends what is not there.
pub fn a_try_get_mut_runs_nothing()
    ensures empty { GoesOnlySo (cell ∷ [])
        []
        (row (try_get_mut 0 0 3) empty_access) (running ∷ value 0 ∷ value 3 ∷ failed ∷ in_use ∷ []) }
    ensures failed { GoesOnlySo (cell ∷ [])
        (row (get_mut_failing 0 0 3) failed
        ∷ [])
        (row (try_get_mut 0 0 5) failed_access) (empty_access ∷ value 3 ∷ value 5 ∷ []) }
{}

/// A value that is not left, one that a failed get_mut leaves, and a guard that shows what was there before.
pub fn what_is_left_is_there()
    ensures left { GoesOnlySo (lazy_cell ∷ [])
        (row (get_mut 0 0 8 3) (value 8)
        ∷ [])
        (row (get 1 0) (value 3)) (value 8 ∷ running ∷ []) }
    ensures failing { GoesOnlySo (lazy_cell ∷ [])
        (row (get_mut_failing 0 0 3) failed
        ∷ [])
        (row (try_get 1 0) failed_access) (value 3 ∷ empty_access ∷ []) }
    ensures phase { GoesOnlySo (lazy_cell ∷ [])
        (row (get_mut_failing 0 0 3) failed
        ∷ [])
        (row (phase 0 0) failed_phase) (empty_phase ∷ initialized_phase ∷ []) }
    ensures again { GoesOnlySo (cell ∷ [])
        (fills 0 0 4 1
        ++ row (try_get_mut 1 0 6) (value 4)
        ∷ row (read 0 0) read_guard
        ∷ [])
        (row (look 0 4) (value 6)) (value 4 ∷ []) }
{}

/// A value that is lent beside a guard, a section or a call that waits, and a get_mut that waits itself.
pub fn a_get_mut_is_refused_exactly_where_the_cell_is_in_use()
    ensures written { GoesOnlySo (cell ∷ [])
        (writes_first 0 0 3)
        (row (get_mut 1 0 1 2) in_use) (value 3 ∷ value 1 ∷ waiting ∷ borrowed ∷ missed ∷ []) }
    ensures read { GoesOnlySo (parking_cell ∷ [])
        (reads_first 0 0 3)
        (row (try_get_mut 1 0 2) in_use) (value 3 ∷ waiting_write ∷ []) }
    ensures runs { GoesOnlySo (parking_lazy_cell ∷ [])
        (row (get 0 0) running
        ∷ [])
        (row (get_mut 0 0 1 2) in_use) (cyclic ∷ value 1 ∷ empty_access ∷ []) }
    ensures waited_for { GoesOnlySo (cell ∷ [])
        (writes_first 0 0 3
        ++ row (read 1 0) waiting
        ∷ row (release 0 1) done
        ∷ [])
        (row (get_mut 0 0 1 2) in_use) (value 3 ∷ []) }
    ensures shared { GoesOnlySo (parking_cell ∷ [])
        (writes_first 0 0 3
        ++ row (write 1 0) waiting_write
        ∷ row (release 0 1) (giving (writer 1) done)
        ∷ [])
        (row (try_get_mut 0 0 2) in_use) (value 3 ∷ []) }
    ensures free { GoesOnlySo (cell ∷ [])
        (fills 0 0 3 1)
        (row (get_mut 1 0 1 2) (value 3)) (in_use ∷ giving readers (value 3) ∷ []) }
{}

/// A value that a kind lends though it does not, a later reason to refuse, and one before it.
pub fn a_kind_lends_its_value_or_not()
    ensures finalized { GoesOnlySo (lazy_exit_cell ∷ [])
        []
        (row (get_mut 0 0 1 2) no_such_call) (value 1 ∷ running ∷ empty_access ∷ []) }
    ensures locked { GoesOnlySo (exit_cell ∷ [])
        finalizes_first
        (row (try_get_mut 0 0 2) no_such_call) (in_use ∷ value 4 ∷ []) }
    ensures own { GoesOnlySo (own_lazy_cell 0 ∷ [])
        (row (get 0 0) running
        ∷ [])
        (row (get_mut 1 0 1 2) not_owner) (in_use ∷ value 1 ∷ []) }
{}
