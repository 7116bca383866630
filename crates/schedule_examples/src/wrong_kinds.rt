//! The one line of a call or a finalizer that goes by the kind of its cell, beside lines that no choice makes legal there.

ghost use Rattle.std.specs.Prelude.{[], ◌∷◌, ◌++◌};
ghost use Rattle.schedule_examples.specs.Examples.{GoesOnlySo, row, draining};
ghost use Rattle.schedule_examples.specs.Openings.{writes_first, reads_first, finalizes_first, gets_first, fails_to_get, closes};
ghost use Rattle.schedule_examples.specs.Cells.{cell, parking_cell, exit_cell, lazy_cell, parking_lazy_cell, once_lazy_cell, lazy_exit_cell, parking_lazy_exit_cell, dropped_cell, primed_cell, parking_once_primed_cell, primed_dropped_cell};
ghost use Rattle.schedule_examples.specs.Words.{try_get, get, init, read, write, fast_read, fast_write, try_read, try_write, fast_try_read, fast_try_write, primed_read, primed_write, primed_read_non_initializing, primed_write_non_initializing, again, made, made_failed, look, exit, finished, finish_failed, finished_with, finish_failed_with, readers, writer, giving, empty_phase, initialized_phase, failed_phase, declined_phase, finalized_phase, finalizer_failed_phase, value, read_guard, err_guard, write_guard, running, done, empty_access, failed_access, declined_access, finalized_access, failed, cyclic, borrowed, missed, waiting, waiting_read, waiting_write, waiting_drain, finalizing, skipped, round, closed, waits, no_such_call, no_outcome};

/// A get that is denied where a run is due, one that runs again without retry, and one that answers as an init does.
pub fn a_get_runs_exactly_where_a_run_is_due()
    ensures empty { GoesOnlySo (lazy_cell ∷ [])
        []
        (row (get 0 0) running) (empty_access ∷ value 0 ∷ read_guard ∷ []) }
    ensures retried { GoesOnlySo (lazy_cell ∷ [])
        (fails_to_get 0 0)
        (row (get 0 0) running) (failed_access ∷ []) }
    ensures once { GoesOnlySo (once_lazy_cell ∷ [])
        (fails_to_get 0 0)
        (row (get 0 0) failed_access) (running ∷ failed ∷ failed_phase ∷ []) }
    ensures made { GoesOnlySo (lazy_cell ∷ [])
        (row (get 0 0) running
        ∷ [])
        (row (made 0 2) (value 2)) (initialized_phase ∷ read_guard ∷ done ∷ value 3 ∷ []) }
    ensures there { GoesOnlySo (lazy_cell ∷ [])
        (gets_first 0 0 2)
        (row (get 1 0) (value 2)) (running ∷ value 3 ∷ read_guard ∷ []) }
{}

/// A share that is handed on beside another that was given.
pub fn a_get_hands_nothing_on_beside_a_share()
    ensures { GoesOnlySo (parking_lazy_exit_cell ∷ [])
        (row (get 0 0) running
        ∷ row (get 1 0) waiting_read
        ∷ row (get 2 0) waiting_read
        ∷ row (made 0 5) (giving readers (value 5))
        ∷ row (exit 3) (round 1)
        ∷ row (exit 3) waiting_write
        ∷ [])
        (row (again 1) (value 5)) (giving (writer 3) (value 5) ∷ waiting_read ∷ running ∷ []) }
{}

/// A try_get that runs, and one that waits for a run.
pub fn a_try_get_runs_nothing()
    ensures empty { GoesOnlySo (lazy_cell ∷ [])
        []
        (row (try_get 0 0) empty_access) (running ∷ value 0 ∷ []) }
    ensures running { GoesOnlySo (parking_lazy_cell ∷ [])
        (row (get 0 0) running
        ∷ [])
        (row (try_get 1 0) empty_access) (waiting_read ∷ missed ∷ []) }
    ensures own { GoesOnlySo (lazy_cell ∷ [])
        (row (get 0 0) running
        ∷ [])
        (row (try_get 0 0) empty_access) (cyclic ∷ []) }
{}

/// An init of a cell without guards that tests access, one of a cell with guards that does not, one that leaves a guard open,
/// and one that parks as the other kind does.
pub fn an_init_tests_access_where_there_are_guards()
    ensures plain { GoesOnlySo (lazy_exit_cell ∷ [])
        (closes 0)
        (row (init 0 0) declined_phase) (declined_access ∷ running ∷ empty_phase ∷ []) }
    ensures locked { GoesOnlySo (exit_cell ∷ [])
        (closes 0)
        (row (init 0 0) declined_access) (declined_phase ∷ running ∷ []) }
    ensures opens { GoesOnlySo (cell ∷ [])
        (row (init 0 0) running
        ∷ [])
        (row (made 0 4) initialized_phase) (write_guard ∷ read_guard ∷ value 4 ∷ done ∷ []) }
    ensures plain_parks { GoesOnlySo (parking_lazy_cell ∷ [])
        (row (init 0 0) running
        ∷ [])
        (row (init 1 0) waiting_read) (waiting_write ∷ waiting_drain ∷ []) }
    ensures locked_parks { GoesOnlySo (parking_cell ∷ [])
        (row (init 0 0) running
        ∷ [])
        (row (init 1 0) waiting_write) (waiting_read ∷ waiting_drain ∷ []) }
{}

/// A fast call that waits, on every place; one that misses where nothing bars it; and one that misses before it is cyclic.
pub fn a_fast_call_does_not_wait()
    ensures spins { GoesOnlySo (cell ∷ [])
        (writes_first 0 0 7)
        (row (fast_read 1 0) missed) (waiting ∷ borrowed ∷ read_guard ∷ []) }
    ensures parks { GoesOnlySo (parking_cell ∷ [])
        (writes_first 0 0 7)
        (row (fast_try_write 1 0) missed) (waiting_write ∷ waiting_drain ∷ []) }
    ensures reads { GoesOnlySo (cell ∷ [])
        (reads_first 0 0 7)
        (row (fast_read 1 0) read_guard) (missed ∷ []) }
    ensures drains { GoesOnlySo (parking_cell ∷ [])
        (reads_first 0 0 7)
        (row (fast_write 1 0) missed) (waiting_drain ∷ write_guard ∷ []) }
    ensures cyclic { GoesOnlySo (cell ∷ [])
        (row (write 0 0) running
        ∷ [])
        (row (fast_read 0 0) cyclic) (missed ∷ []) }
    ensures not_cyclic { GoesOnlySo (cell ∷ [])
        (row (write 0 0) running
        ∷ [])
        (row (fast_try_read 0 0) missed) (cyclic ∷ []) }
    ensures slow { GoesOnlySo (cell ∷ [])
        (writes_first 0 0 7)
        (row (read 1 0) waiting) (missed ∷ []) }
{}

/// A try call that runs the generator.
pub fn a_try_call_runs_nothing()
    ensures read { GoesOnlySo (cell ∷ [])
        []
        (row (try_read 0 0) empty_access) (running ∷ read_guard ∷ []) }
    ensures write { GoesOnlySo (cell ∷ [])
        []
        (row (try_write 0 0) empty_access) (running ∷ write_guard ∷ []) }
    ensures shows { GoesOnlySo (primed_cell 8 ∷ [])
        []
        (row (try_read 0 0) empty_access) (err_guard ∷ read_guard ∷ []) }
{}

/// A primed call that is denied, one that runs where it should not, or does not where it should; and a guard to write where
/// the value is not accessible.
pub fn a_primed_call_falls_back_exactly_where_the_value_is_not_there()
    ensures reads { GoesOnlySo (primed_cell 8 ∷ [])
        []
        (row (primed_read_non_initializing 0 0) err_guard) (empty_access ∷ read_guard ∷ running ∷ []) }
    ensures writes { GoesOnlySo (primed_cell 8 ∷ [])
        []
        (row (primed_write_non_initializing 0 0) err_guard) (empty_access ∷ write_guard ∷ running ∷ []) }
    ensures runs { GoesOnlySo (primed_cell 8 ∷ [])
        []
        (row (primed_read 0 0) running) (err_guard ∷ read_guard ∷ []) }
    ensures there { GoesOnlySo (primed_cell 8 ∷ [])
        (reads_first 0 0 4)
        (row (primed_read 1 0) read_guard) (err_guard ∷ []) }
    ensures finalized { GoesOnlySo (primed_dropped_cell 8 ∷ [])
        (finalizes_first
        ++ row (finished_with 0 0) finalized_phase
        ∷ [])
        (row (primed_write 0 0) err_guard) (write_guard ∷ finalized_access ∷ running ∷ []) }
    ensures denied { GoesOnlySo (primed_dropped_cell 8 ∷ [])
        (finalizes_first
        ++ row (finished_with 0 0) finalized_phase
        ∷ [])
        (row (read 0 0) finalized_access) (err_guard ∷ read_guard ∷ []) }
    ensures declined { GoesOnlySo (primed_dropped_cell 8 ∷ [])
        (closes 0)
        (row (primed_write 0 0) err_guard) (declined_access ∷ running ∷ write_guard ∷ []) }
{}

/// The prime value after a run, another one, none, and that of the run after the finalizer.
pub fn a_guard_shows_the_value_of_then()
    ensures prime { GoesOnlySo (primed_cell 8 ∷ [])
        (row (primed_read_non_initializing 0 0) err_guard
        ∷ [])
        (row (look 0 0) (value 8)) (value 0 ∷ done ∷ []) }
    ensures made { GoesOnlySo (primed_cell 8 ∷ [])
        (reads_first 0 0 4)
        (row (look 0 1) (value 4)) (value 8 ∷ []) }
    ensures left { GoesOnlySo (primed_dropped_cell 8 ∷ [])
        (finalizes_first
        ++ row (finished_with 0 3) finalized_phase
        ∷ row (primed_read 0 0) err_guard
        ∷ [])
        (row (look 0 6) (value 3)) (value 8 ∷ value 4 ∷ value 0 ∷ []) }
{}

/// A guard of a prime value that was asked to write gives to readers alone, and one that was asked to read gives to nobody.
pub fn a_guard_of_a_prime_value_gives_no_writer()
    ensures written { GoesOnlySo (parking_once_primed_cell 8 ∷ [])
        (row (write 0 0) running
        ∷ row (primed_write 1 0) waiting_write
        ∷ row (write 2 0) waiting_write
        ∷ row (made_failed 0) (giving (writer 1) failed)
        ∷ [])
        (row (again 1) err_guard) (giving (writer 2) err_guard ∷ giving readers err_guard ∷ []) }
    ensures read { GoesOnlySo (parking_once_primed_cell 8 ∷ [])
        (row (write 0 0) running
        ∷ row (primed_read 1 0) waiting_read
        ∷ row (write 2 0) waiting_write
        ∷ row (made_failed 0) (giving readers failed)
        ∷ [])
        (row (again 1) err_guard) (giving (writer 2) err_guard ∷ []) }
{}

/// A value that is left by a finalizer of a kind that leaves none, one that is not left where the kind leaves one, and a drop
/// that fails.
pub fn a_finalizer_ends_as_its_kind_does()
    ensures soft { GoesOnlySo (exit_cell ∷ [])
        finalizes_first
        (row (finished_with 0 4) no_outcome) (finalized_phase ∷ done ∷ []) }
    ensures drops { GoesOnlySo (dropped_cell ∷ [])
        finalizes_first
        (row (finish_failed 0) no_outcome) (finalizer_failed_phase ∷ finalized_phase ∷ []) }
    ensures leaves { GoesOnlySo (primed_dropped_cell 8 ∷ [])
        finalizes_first
        (row (finished 0) no_outcome) (finalized_phase ∷ []) }
    ensures fails { GoesOnlySo (primed_dropped_cell 8 ∷ [])
        finalizes_first
        (row (finish_failed_with 0 2) finalizer_failed_phase) (no_outcome ∷ finalized_phase ∷ []) }
    ensures after { GoesOnlySo (dropped_cell ∷ [])
        (finalizes_first
        ++ row (finished 0) finalized_phase
        ∷ [])
        (row (read 0 0) finalized_access) (read_guard ∷ running ∷ []) }
    ensures soft_after { GoesOnlySo (exit_cell ∷ [])
        (finalizes_first
        ++ row (finished 0) finalized_phase
        ∷ [])
        (row (read 0 0) read_guard) (finalized_access ∷ []) }
{}

/// A registration for each run, the oldest turn first, and a cell that is dropped from the round.
pub fn an_exit_takes_what_was_got()
    ensures once { GoesOnlySo (parking_lazy_exit_cell ∷ [])
        (fails_to_get 0 0
        ++ gets_first 0 0 42)
        (row (exit 0) (round 1)) (round 2 ∷ closed ∷ []) }
    ensures latest { GoesOnlySo (lazy_exit_cell ∷ lazy_exit_cell ∷ [])
        (gets_first 0 0 1
        ++ gets_first 0 1 2
        ++ row (exit 0) (round 2)
        ∷ [])
        (row (exit 0) (finalizing 1)) (finalizing 0 ∷ skipped 1 ∷ []) }
    ensures late { GoesOnlySo (lazy_exit_cell ∷ lazy_exit_cell ∷ [])
        (gets_first 0 0 1
        ++ row (exit 0) (round 1)
        ∷ row (exit 0) (finalizing 0)
        ∷ gets_first 0 1 2
        ++ row (finished 0) finalized_phase
        ∷ [])
        (row (exit 0) (round 1)) (closed ∷ round 2 ∷ finalizing 1 ∷ []) }
    ensures lazy { GoesOnlySo (lazy_cell ∷ [])
        (gets_first 0 0 1)
        (row (exit 0) closed) (round 1 ∷ []) }
{}

/// A call that its kind lacks, with the answer of one that it has.
pub fn a_kind_lacks_other_calls()
    ensures plain { GoesOnlySo (lazy_cell ∷ [])
        []
        (row (read 0 0) no_such_call) (running ∷ empty_access ∷ []) }
    ensures locked { GoesOnlySo (cell ∷ [])
        (reads_first 0 0 4)
        (row (get 0 0) no_such_call) (value 4 ∷ []) }
    ensures unprimed { GoesOnlySo (dropped_cell ∷ [])
        []
        (row (primed_read_non_initializing 0 0) no_such_call) (err_guard ∷ empty_access ∷ []) }
    ensures waits { GoesOnlySo (cell ∷ [])
        (row (write 0 0) running
        ∷ row (read 1 0) waiting
        ∷ [])
        (row (get 1 0) waits) (no_such_call ∷ []) }
{}
