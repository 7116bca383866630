//! The texts of first schedules, and of their transcripts.

ghost use Rattle.std.specs.Prelude.{[], ◌∷◌, ◌≡◌, ◌++◌, codes};
ghost use Rattle.schedule_text.specs.ScheduleText.{schedule_text};
ghost use Rattle.schedule_text.specs.TranscriptText.{transcript_text};
ghost use Rattle.schedule_examples.specs.Examples.{Goes, GoesWith};
ghost use Rattle.schedule_examples.specs.Cells.{own_cell, own_lazy_cell, lazy_cell, parking_primed_dropped_cell, cell, once_cell, exit_cell, parking_exit_cell, leaking_cell, parking_once_leaking_cell};
ghost use Rattle.schedule_examples.specs.FirstSteps.{empty_schedule, empty_account, first_rows, first_finals, first_schedule, first_account, once_rows, once_finals, once_schedule, once_account};
ghost use Rattle.schedule_examples.specs.ExitSteps.{skipping_rows, skipping_finals, skipping_turns, skipping_schedule, skipping_account, finalizing_rows, finalizing_finals, finalizing_turns, finalizing_schedule, finalizing_account, closing_rows, closing_finals, closing_turns, closing_schedule, closing_account};
ghost use Rattle.schedule_examples.specs.KindSteps.{primed_rows, primed_finals, primed_turns, primed_schedule, primed_account, own_rows, own_finals, own_schedule, own_account, lent_rows, lent_finals, lent_schedule, lent_account, worded_schedule};

/// The texts of a schedule without parties, cells and steps.
pub fn the_empty_schedule_is_spelled()
    ensures schedule { schedule_text empty_schedule
        ≡ codes "schedule 1\nparties 0\nsteps\nend\n" }
    ensures transcript { transcript_text empty_account
        ≡ codes "transcript 1\nend\n" }
{}

/// The texts of a read, a write that sets another value, and a read of that.
pub fn the_first_schedule_is_spelled()
    ensures goes { Goes (cell ∷ []) first_rows first_finals }
    ensures schedule { schedule_text first_schedule
        ≡ codes "schedule 1\nparties 1\ncell LockedLazy spin\nsteps\n"
        ++ codes "0 read 0\n0 made 22\n0 look 1\n0 release 1\n"
        ++ codes "0 write 0\n0 set 4 33\n0 release 4\n0 read 0\n0 look 7\nend\n" }
    ensures transcript { transcript_text first_account
        ≡ codes "transcript 1\n0 running\n1 read-guard\n2 value 22\n3 done\n"
        ++ codes "4 write-guard\n5 done\n6 done\n7 read-guard\n8 value 33\n"
        ++ codes "cell 0 Phase (Initialized) 33\nend\n" }
{}

/// The texts of a run that fails in a cell without retry, and of a read and a write after it.
pub fn the_schedule_of_one_run_is_spelled()
    ensures goes { Goes (once_cell ∷ []) once_rows once_finals }
    ensures schedule { schedule_text once_schedule
        ≡ codes "schedule 1\nparties 1\ncell LockedLazy spin once\nsteps\n"
        ++ codes "0 read 0\n0 made_failed\n0 read 0\n0 write 0\n0 phase 0\nend\n" }
    ensures transcript { transcript_text once_account
        ≡ codes "transcript 1\n0 running\n1 failed\n"
        ++ codes "2 access Phase (Initialization panicked | Initialization skiped)\n"
        ++ codes "3 access Phase (Initialization panicked | Initialization skiped)\n"
        ++ codes "4 phase Phase (Initialization panicked | Initialization skiped)\n"
        ++ codes "cell 0 Phase (Initialization panicked | Initialization skiped) none\nend\n" }
{}

/// The texts of a turn that comes before the value of its cell is published.
pub fn the_schedule_of_a_skipped_turn_is_spelled()
    ensures goes { GoesWith (parking_exit_cell ∷ []) skipping_rows skipping_finals skipping_turns }
    ensures schedule { schedule_text skipping_schedule
        ≡ codes "schedule 1\nparties 2\ncell LockedLazyFinalize park\nsteps\n"
        ++ codes "0 read 0\n1 exit\n1 exit\n0 made 4\n0 release 3\n"
        ++ codes "1 exit\n1 phase 0\n1 exit\nend\n" }
    ensures transcript { transcript_text skipping_account
        ≡ codes "transcript 1\n0 running\n1 round 1\n2 skipped 0\n3 read-guard\n4 done\n5 closed\n"
        ++ codes "6 phase Phase (Initialized | Registered)\n7 refused 10 ExitBegun\n"
        ++ codes "cell 0 Phase (Initialized | Registered) 4\nexit 0 skipped\nend\n" }
{}

/// The texts of a turn whose finalizer fails, and of one whose finalizer succeeds.
pub fn the_schedule_of_two_turns_is_spelled()
    ensures goes { GoesWith (exit_cell ∷ parking_once_leaking_cell ∷ []) finalizing_rows finalizing_finals finalizing_turns }
    ensures schedule { schedule_text finalizing_schedule
        ≡ codes "schedule 1\nparties 2\ncell LockedLazyFinalize spin\n"
        ++ codes "cell LockedLazyFinalize park once leak\nsteps\n"
        ++ codes "0 write 0\n0 exit\n0 finished\n0 made 1\n0 release 3\n0 read 1\n0 made 2\n0 release 6\n"
        ++ codes "1 exit\n1 exit\n1 finish_failed\n1 exit\n1 finished\n1 exit\nend\n" }
    ensures transcript { transcript_text finalizing_account
        ≡ codes "transcript 1\n0 running\n1 refused 11 Inside\n2 refused 8 NoOutcome\n3 write-guard\n4 done\n"
        ++ codes "5 running\n6 read-guard\n7 done\n8 round 2\n9 finalizing 1\n"
        ++ codes "10 phase Phase (Initialized | Registered | Finalization panicked)\n11 finalizing 0\n"
        ++ codes "12 phase Phase (Initialized | Registered | Finalized)\n13 closed\n"
        ++ codes "cell 0 Phase (Initialized | Registered | Finalized) 1\n"
        ++ codes "cell 1 Phase (Initialized | Registered | Finalization panicked) 2\n"
        ++ codes "exit 1 failed\nexit 0 done\nend\n" }
{}

/// The texts of an exit without cells, and of two cells that ask to be registered after it.
pub fn the_schedule_of_an_exit_without_cells_is_spelled()
    ensures goes { GoesWith (exit_cell ∷ leaking_cell ∷ []) closing_rows closing_finals closing_turns }
    ensures schedule { schedule_text closing_schedule
        ≡ codes "schedule 1\nparties 1\ncell LockedLazyFinalize spin\ncell LockedLazyFinalize spin leak\nsteps\n"
        ++ codes "0 exit\n0 read 0\n0 read 1\n0 made 9\n0 exit\nend\n" }
    ensures transcript { transcript_text closing_account
        ≡ codes "transcript 1\n0 closed\n1 access Phase (Initialization skiped | Registration refused)\n"
        ++ codes "2 running\n3 read-guard\n4 refused 10 ExitBegun\n"
        ++ codes "cell 0 Phase (Initialization skiped | Registration refused) none\n"
        ++ codes "cell 1 Phase (Initialized | Registration refused) 9\nend\n" }
{}

/// The texts of a cell with a value from the start, from that to what its finalizer leaves.
pub fn the_schedule_of_a_primed_cell_is_spelled()
    ensures goes { GoesWith (parking_primed_dropped_cell 42 ∷ []) primed_rows primed_finals primed_turns }
    ensures schedule { schedule_text primed_schedule
        ≡ codes "schedule 1\nparties 1\ncell PrimedLockedLazyDroped park prime 42\nsteps\n"
        ++ codes "0 primed_read_non_initializing 0\n0 look 0\n0 release 0\n0 read 0\n0 made 22\n0 release 4\n"
        ++ codes "0 exit\n0 exit\n0 finished 0\n0 primed_write 0\n0 look 9\n0 read 0\nend\n" }
    ensures transcript { transcript_text primed_account
        ≡ codes "transcript 1\n0 err-guard\n1 value 42\n2 done\n3 running\n4 read-guard\n5 done\n"
        ++ codes "6 round 1\n7 finalizing 0\n8 phase Phase (Initialized | Registered | Finalized)\n"
        ++ codes "9 err-guard\n10 value 0\n11 access Phase (Initialized | Registered | Finalized)\n"
        ++ codes "cell 0 Phase (Initialized | Registered | Finalized) 0\nexit 0 done\nend\n" }
{}

/// The texts of two cells that are one party's own.
pub fn the_schedule_of_own_cells_is_spelled()
    ensures goes { Goes (own_cell 0 ∷ own_lazy_cell 0 ∷ []) own_rows own_finals }
    ensures schedule { schedule_text own_schedule
        ≡ codes "schedule 1\nparties 2\ncell LockedLazy own 0\ncell Lazy own 0\nsteps\n"
        ++ codes "0 write 0\n0 made 3\n0 read 0\n0 fast_read 0\n1 read 0\n0 get 1\n0 get 1\n0 made 6\nend\n" }
    ensures transcript { transcript_text own_account
        ≡ codes "transcript 1\n0 running\n1 write-guard\n2 borrowed\n3 none\n4 refused 3 NotOwner\n"
        ++ codes "5 running\n6 cyclic\n7 value 6\n"
        ++ codes "cell 0 Phase (not initialized) none\ncell 1 Phase (Initialized) 6\nend\n" }
{}

/// The texts of a cell whose value is lent once nobody uses it, and of one that is lent empty.
pub fn the_schedule_of_lent_values_is_spelled()
    ensures goes { Goes (cell ∷ lazy_cell ∷ []) lent_rows lent_finals }
    ensures schedule { schedule_text lent_schedule
        ≡ codes "schedule 1\nparties 3\ncell LockedLazy spin\ncell Lazy spin\nsteps\n"
        ++ codes "0 write 0\n0 made 3\n1 read 0\n2 get_mut 0 1 2\n0 release 1\n1 again\n1 release 5\n"
        ++ codes "2 get_mut 0 1 2\n2 try_get_mut 0 6\n"
        ++ codes "0 try_get_mut 1 3\n0 get_mut 1 fail 3\n0 get_mut 1 8 3\n0 try_get 1\nend\n" }
    ensures transcript { transcript_text lent_account
        ≡ codes "transcript 1\n0 running\n1 write-guard\n2 waiting spin\n3 refused 9 InUse\n4 done\n"
        ++ codes "5 read-guard\n6 done\n7 value 3\n8 value 2\n"
        ++ codes "9 access Phase (not initialized)\n10 failed\n11 value 8\n12 value 3\n"
        ++ codes "cell 0 Phase (Initialized) 6\ncell 1 Phase (Initialized) 3\nend\n" }
{}

/// The words of each kind, place and option, of each call, of each end of a finalizer, and of values that are lent.
pub fn the_words_of_a_schedule_are_spelled()
    ensures { schedule_text worded_schedule
        ≡ codes "schedule 1\nparties 3\ncell Lazy spin\ncell LazyFinalize park once\ncell LockedLazy own 2\n"
        ++ codes "cell LockedLazyFinalize spin leak\ncell LockedLazyDroped park once leak\n"
        ++ codes "cell PrimedLockedLazy spin prime 7\ncell PrimedLockedLazyDroped park once leak prime 10\nsteps\n"
        ++ codes "0 phase 0\n0 try_get 0\n1 get 1\n0 init 2\n0 read 3\n0 write 3\n0 fast_read 4\n0 fast_write 4\n"
        ++ codes "0 try_read 5\n0 try_write 5\n0 fast_try_read 6\n0 fast_try_write 6\n0 primed_read 5\n0 primed_write 5\n"
        ++ codes "0 primed_read_non_initializing 6\n0 primed_write_non_initializing 6\n"
        ++ codes "2 finished\n2 finished 0\n2 finish_failed\n2 finish_failed 10\n"
        ++ codes "0 get_mut 0 11 12\n1 get_mut 0 fail 13\n2 try_get_mut 2 14\nend\n" }
{}
