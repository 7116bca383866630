//! Cells whose calls park, and are handed the lock.

ghost use Rattle.std.specs.Prelude.{[], ◌∷◌, ◌++◌, ◌-◌, ◌^◌, ◌≡◌, true, false};
ghost use Rattle.phase_locker.specs.declared.tickets.LockNature.TheVariants as nature;
ghost use Rattle.schedule_rules.specs.Holds.{is_barred_by_readers};
ghost use Rattle.schedule_rules.specs.Waits.{parked_readers, parked_writers, waits as waits_of};
ghost use Rattle.schedule_examples.specs.Examples.{Goes, row, draining, early, history_of};
ghost use Rattle.schedule_examples.specs.Openings.{writes_first, reads_first};
ghost use Rattle.schedule_examples.specs.Cells.{parking_cell, initialized_with};
ghost use Rattle.schedule_examples.specs.Words.{read, write, again, made, made_failed, look, put, release, readers, writer, giving, value, read_guard, write_guard, running, done, failed, waiting_read, waiting_write, waiting_drain};

/// What a writer gives back goes to the reader that parks behind another writer, and what that gives back to the writer.
pub fn a_write_hands_over_to_a_reader_and_then_to_a_writer()
    ensures { Goes (parking_cell ∷ [])
        (writes_first 0 0 7
        ++ row (write 1 0) waiting_write
        ∷ row (read 2 0) waiting_read
        ∷ row (release 0 1) (giving readers done)
        ∷ row (again 2) read_guard
        ∷ row (release 2 5) (giving (writer 1) done)
        ∷ row (again 1) write_guard
        ∷ [])
        (initialized_with 7 ∷ []) }
{}

/// Both parked readers are handed a read lock. Only the last of them hands over to the writer.
pub fn the_last_of_two_readers_hands_over()
    ensures { Goes (parking_cell ∷ [])
        (writes_first 0 0 1
        ++ row (read 1 0) waiting_read
        ∷ row (read 2 0) waiting_read
        ∷ row (write 3 0) waiting_write
        ∷ row (release 0 1) (giving readers done)
        ∷ row (again 1) read_guard
        ∷ row (again 2) read_guard
        ∷ row (release 1 6) done
        ∷ row (release 2 7) (giving (writer 3) done)
        ∷ row (again 3) write_guard
        ∷ [])
        (initialized_with 1 ∷ []) }
{}

/// A write that readers alone bar drains. A reader still gets in beside a reader, and none where the last is gone: then
/// the drain becomes the lock.
pub fn a_drain_lets_readers_in_while_one_is_left()
    ensures { Goes (parking_cell ∷ [])
        (reads_first 0 0 5
        ++ draining (write 1 0) waiting_drain
        ∷ row (read 2 0) read_guard
        ∷ row (release 0 1) done
        ∷ row (release 2 3) done
        ∷ row (read 2 0) waiting_read
        ∷ row (again 1) write_guard
        ∷ row (release 1 7) (giving readers done)
        ∷ row (again 2) read_guard
        ∷ [])
        (initialized_with 5 ∷ []) }
{}

/// A drainer that steps while a reader is left may park, and is then handed the lock.
pub fn a_drainer_parks_and_is_handed_the_lock()
    ensures { Goes (parking_cell ∷ [])
        (reads_first 0 0 5
        ++ draining (write 1 0) waiting_drain
        ∷ row (again 1) waiting_write
        ∷ row (release 0 1) (giving (writer 1) done)
        ∷ row (again 1) write_guard
        ∷ [])
        (initialized_with 5 ∷ []) }
{}

/// A run that failed hands on to those that asked to read. They are woken to read, and want to run: the first drains the
/// shares of the others, and runs once these have given them up.
pub fn a_failed_run_hands_on()
    ensures { Goes (parking_cell ∷ [])
        (row (read 0 0) running
        ∷ row (read 1 0) waiting_read
        ∷ row (read 2 0) waiting_read
        ∷ row (read 3 0) waiting_read
        ∷ row (made_failed 0) (giving readers failed)
        ∷ draining (again 1) waiting_drain
        ∷ row (again 2) waiting_read
        ∷ row (again 3) waiting_read
        ∷ row (again 1) running
        ∷ row (made 1 8) (giving readers read_guard)
        ∷ row (again 2) read_guard
        ∷ [])
        (initialized_with 8 ∷ []) }
{}

/// A share that does not fit what its call wants by now is taken away, and is handed on before the rule is judged: the
/// writer has the lock then, so the reader parks.
pub fn a_share_that_does_not_fit_is_handed_on()
    ensures { Goes (parking_cell ∷ [])
        (row (write 0 0) running
        ∷ row (read 1 0) waiting_read
        ∷ row (write 2 0) waiting_write
        ∷ row (made_failed 0) (giving readers failed)
        ∷ early (row (again 1) (giving (writer 2) waiting_read))
        ∷ row (write 3 0) waiting_write
        ∷ row (again 2) running
        ∷ row (made 2 4) write_guard
        ∷ row (release 2 7) (giving readers done)
        ∷ row (again 1) read_guard
        ∷ [])
        (initialized_with 4 ∷ []) }
{}

/// A reader that was given a share keeps it beside a drain, which bars the readers that have none.
pub fn a_share_is_kept_beside_a_drain()
    ensures { Goes (parking_cell ∷ [])
        (writes_first 0 0 7
        ++ row (read 1 0) waiting_read
        ∷ row (release 0 1) (giving readers done)
        ∷ draining (write 2 0) waiting_drain
        ∷ row (again 1) read_guard
        ∷ row (read 3 0) read_guard
        ∷ row (release 1 5) done
        ∷ row (release 3 6) done
        ∷ row (read 3 0) waiting_read
        ∷ row (again 2) write_guard
        ∷ [])
        (initialized_with 7 ∷ []) }
{}

/// What a step gives back and hands over is of one cell. A drain bars its own cell alone.
pub fn cells_are_handed_over_apart()
    ensures { Goes (parking_cell ∷ parking_cell ∷ [])
        (row (write 0 0) running
        ∷ row (write 1 1) running
        ∷ row (made 0 4) write_guard
        ∷ row (made 1 5) write_guard
        ∷ row (read 2 0) waiting_read
        ∷ row (read 3 1) waiting_read
        ∷ row (write 4 1) waiting_write
        ∷ row (release 0 2) (giving readers done)
        ∷ row (again 3) waiting_read
        ∷ row (again 2) read_guard
        ∷ draining (write 0 0) waiting_drain
        ∷ row (release 1 3) (giving (writer 4) done)
        ∷ row (again 4) write_guard
        ∷ row (release 4 12) (giving readers done)
        ∷ row (again 3) read_guard
        ∷ row (release 2 9) done
        ∷ row (read 5 1) read_guard
        ∷ row (again 0) write_guard
        ∷ [])
        (initialized_with 4 ∷ initialized_with 5 ∷ []) }
{}

/// Only a call that wants to write, and that readers alone bar, may drain in place of parking.
pub fn readers_alone_are_drained()
    ensures readers { is_barred_by_readers nature.Write (record { readers = 1; written = false; drained = false }) ≡ true }
    ensures nobody { is_barred_by_readers nature.Write (record { readers = 0; written = false; drained = false }) ≡ false }
    ensures writer { is_barred_by_readers nature.Write (record { readers = 0; written = true; drained = false }) ≡ false }
    ensures drainer { is_barred_by_readers nature.Write (record { readers = 1; written = false; drained = true }) ≡ false }
    ensures reader { is_barred_by_readers nature.Read (record { readers = 2 ^ 20 - 1; written = false; drained = false }) ≡ false }
{}

/// A parked call that steps before it is given anything parks again, as the last of its list.
pub fn a_parked_call_that_steps_goes_to_the_end_of_its_list()
    ensures goes { Goes (parking_cell ∷ [])
        (writes_first 0 0 1
        ++ row (write 1 0) waiting_write
        ∷ row (write 2 0) waiting_write
        ∷ row (again 1) waiting_write
        ∷ row (put 0 1 3) done
        ∷ row (release 0 1) (giving (writer 2) done)
        ∷ row (again 2) write_guard
        ∷ row (look 2 7) (value 3)
        ∷ row (release 2 7) (giving (writer 1) done)
        ∷ row (again 1) write_guard
        ∷ [])
        (initialized_with 3 ∷ []) }
    ensures parked { parked_writers 0 (waits_of (parking_cell ∷ []) (history_of
        (writes_first 0 0 1
        ++ row (write 1 0) waiting_write
        ∷ row (write 2 0) waiting_write
        ∷ []))) ≡ 1 ∷ 2 ∷ [] }
    ensures parked_again { parked_writers 0 (waits_of (parking_cell ∷ []) (history_of
        (writes_first 0 0 1
        ++ row (write 1 0) waiting_write
        ∷ row (write 2 0) waiting_write
        ∷ row (again 1) waiting_write
        ∷ []))) ≡ 2 ∷ 1 ∷ [] }
    ensures reading { parked_readers 0 (waits_of (parking_cell ∷ []) (history_of
        (row (write 0 0) running
        ∷ row (read 1 0) waiting_read
        ∷ row (write 2 0) waiting_write
        ∷ row (read 3 0) waiting_read
        ∷ row (again 1) waiting_read
        ∷ []))) ≡ 3 ∷ 1 ∷ [] }
{}
