//! Cells that are registered for the exit before their generators first run, or are declined.

ghost use Rattle.std.specs.Prelude.{[], ◌∷◌, ◌++◌, ◌≡◌, true, false};
ghost use Rattle.phase_bits.specs.Number.{phase_of};
ghost use Rattle.schedule_rules.specs.declared.line.Answer.TheVariants.{Access};
ghost use Rattle.schedule_rules.specs.Gifts.{downgrades};
ghost use Rattle.schedule_examples.specs.Examples.{Goes, GoesWith, history_of, row};
ghost use Rattle.schedule_examples.specs.Openings.{writes_first, reads_first, fails_first};
ghost use Rattle.schedule_examples.specs.Cells.{cell, exit_cell, parking_exit_cell, once_exit_cell, leaking_cell, initialized_with, registered_with, leaked_with, left_declined, left_registered_failed, was_skipped};
ghost use Rattle.schedule_examples.specs.Words.{phase, read, write, made, made_failed, release, exit, registered_phase, registered_failed_phase, leaked_phase, leaked_failed_phase, declined_phase, read_guard, write_guard, running, done, registered_failed_access, declined_access, failed, skipped, round, closed, no_section, exit_begun};

/// A look that finds no cell closes registration. A cell that asks to be registered then is declined: no generator runs, the
/// phase says so, and nothing is left open.
pub fn a_closed_registry_declines_a_cell()
    ensures { Goes (exit_cell ∷ [])
        (row (exit 0) closed
        ∷ row (read 0 0) declined_access
        ∷ row (exit 0) exit_begun
        ∷ [])
        (left_declined ∷ []) }
{}

/// With retry each later read and write is declined again, and changes nothing more. Registration is not tried anew.
pub fn a_declined_cell_stays_declined()
    ensures { Goes (exit_cell ∷ [])
        (row (exit 0) closed
        ∷ row (write 1 0) declined_access
        ∷ row (phase 0 0) declined_phase
        ∷ row (write 0 0) declined_access
        ∷ row (read 1 0) declined_access
        ∷ row (phase 1 0) declined_phase
        ∷ row (made 1 5) no_section
        ∷ [])
        (left_declined ∷ []) }
{}

/// Without retry a later call asks for no run. It finds the phase of a declined cell all the same.
pub fn without_retry_a_declined_cell_asks_no_more()
    ensures { Goes (once_exit_cell ∷ [])
        (row (exit 0) closed
        ∷ row (read 0 0) declined_access
        ∷ row (read 0 0) declined_access
        ∷ row (write 1 0) declined_access
        ∷ [])
        (left_declined ∷ []) }
{}

/// A call is declined where calls park as where they spin, and wakes nobody: no call was ever barred at such a cell.
pub fn a_parking_cell_is_declined_at_once()
    ensures { Goes (parking_exit_cell ∷ parking_exit_cell ∷ [])
        (row (exit 2) closed
        ∷ row (read 0 0) declined_access
        ∷ row (write 1 1) declined_access
        ∷ row (write 0 0) declined_access
        ∷ [])
        (left_declined ∷ left_declined ∷ []) }
{}

/// A cell that puts up with not being registered runs its generator all the same, and the exit never comes to it.
pub fn a_cell_that_puts_up_with_it_runs_unregistered()
    ensures { Goes (leaking_cell ∷ [])
        (row (exit 0) closed
        ∷ reads_first 0 0 9
        ++ row (phase 0 0) leaked_phase
        ∷ [])
        (leaked_with 9 ∷ []) }
{}

/// The same through a run that fails: that registration was refused stays in the phase.
pub fn an_unregistered_run_fails_and_is_asked_again()
    ensures { Goes (leaking_cell ∷ [])
        (row (exit 0) closed
        ∷ row (write 0 0) running
        ∷ row (made_failed 0) failed
        ∷ row (phase 0 0) leaked_failed_phase
        ∷ writes_first 0 0 9
        ++ row (release 0 5) done
        ∷ row (phase 0 0) leaked_phase
        ∷ [])
        (leaked_with 9 ∷ []) }
{}

/// While the registry is open such a cell is registered as any other.
pub fn a_cell_that_puts_up_with_it_is_registered_where_it_can_be()
    ensures { Goes (leaking_cell ∷ [])
        (reads_first 0 0 9
        ++ row (phase 0 0) registered_phase
        ∷ row (exit 1) (round 1)
        ∷ [])
        (registered_with 9 ∷ []) }
{}

/// A run that failed leaves the cell registered, and the next run does not register it again.
pub fn a_cell_is_registered_once_over_its_runs()
    ensures { Goes (exit_cell ∷ [])
        (fails_first 0 0
        ++ row (phase 0 0) registered_failed_phase
        ∷ fails_first 0 0
        ++ row (phase 0 0) registered_failed_phase
        ∷ reads_first 0 0 42
        ++ row (phase 0 0) registered_phase
        ∷ row (exit 0) (round 1)
        ∷ [])
        (registered_with 42 ∷ []) }
{}

/// A cell that was registered before the registry closed is not declined after it, also where its first run failed.
pub fn a_registered_cell_runs_again_after_the_registry_closed()
    ensures { GoesWith (exit_cell ∷ [])
        (fails_first 0 0
        ++ row (exit 1) (round 1)
        ∷ row (exit 1) (skipped 0)
        ∷ row (exit 1) closed
        ∷ reads_first 0 0 4
        ++ row (phase 0 0) registered_phase
        ∷ [])
        (registered_with 4 ∷ []) (was_skipped 0 ∷ []) }
{}

/// Whether a cell is registered is settled when its first run begins. The registry closes before these runs end, and their
/// cells are registered all the same.
pub fn a_run_keeps_the_registration_that_it_began_with()
    ensures { GoesWith (exit_cell ∷ leaking_cell ∷ leaking_cell ∷ [])
        (row (write 0 0) running
        ∷ row (read 1 1) running
        ∷ row (read 3 2) running
        ∷ row (exit 2) (round 3)
        ∷ row (exit 2) (skipped 2)
        ∷ row (exit 2) (skipped 1)
        ∷ row (exit 2) (skipped 0)
        ∷ row (exit 2) closed
        ∷ row (made 0 4) write_guard
        ∷ row (made 1 5) read_guard
        ∷ row (made_failed 3) failed
        ∷ row (release 0 8) done
        ∷ [])
        (registered_with 4 ∷ registered_with 5 ∷ left_registered_failed ∷ []) (was_skipped 2 ∷ was_skipped 1 ∷ was_skipped 0 ∷ []) }
{}

/// Without retry a run that failed is the only one, and its cell is skipped.
pub fn without_retry_a_registered_cell_runs_once()
    ensures { GoesWith (once_exit_cell ∷ [])
        (fails_first 0 0
        ++ row (read 0 0) registered_failed_access
        ∷ row (write 0 0) registered_failed_access
        ∷ row (exit 0) (round 1)
        ∷ row (exit 0) (skipped 0)
        ∷ row (exit 0) closed
        ∷ [])
        (left_registered_failed ∷ []) (was_skipped 0 ∷ []) }
{}

/// A cell that no exit finalizes is not registered: a look finds nothing, and the closed registry declines nothing there.
pub fn other_cells_are_not_registered()
    ensures { Goes (cell ∷ cell ∷ [])
        (reads_first 0 0 4
        ++ row (exit 0) closed
        ∷ reads_first 0 1 5)
        (initialized_with 4 ∷ initialized_with 5 ∷ []) }
{}

/// A read that is declined counts as a downgrade of its section, a write that is declined does not, and neither does a read
/// that finds a run failed.
pub fn a_declined_read_downgrades()
    ensures read { downgrades (exit_cell ∷ []) (history_of (row (exit 0) closed ∷ [])) (read 0 0) (Access (phase_of 36)) ≡ true }
    ensures write { downgrades (exit_cell ∷ []) (history_of (row (exit 0) closed ∷ [])) (write 0 0) (Access (phase_of 36)) ≡ false }
    ensures again { downgrades (exit_cell ∷ []) (history_of (row (exit 0) closed ∷ row (read 1 0) declined_access ∷ [])) (read 0 0) (Access (phase_of 36)) ≡ true }
    ensures failed { downgrades (once_exit_cell ∷ []) (history_of (row (read 0 0) running ∷ row (made_failed 0) failed ∷ [])) (read 0 0) (Access (phase_of 14)) ≡ false }
{}
