//! The one line that goes, beside lines that no choice makes legal there.

ghost use Rattle.std.specs.Prelude.{[], ◌∷◌, ◌++◌};
ghost use Rattle.schedule_examples.specs.Examples.{GoesOnlySo, row, draining};
ghost use Rattle.schedule_examples.specs.Openings.{writes_first, reads_first, fills};
ghost use Rattle.schedule_examples.specs.Cells.{cell, parking_cell};
ghost use Rattle.schedule_examples.specs.Words.{read, write, again, made, made_failed, release, downgrade, clone, readers, writer, giving, read_guard, write_guard, running, done, failed, borrowed, waiting_read, waiting_write, waiting_drain, waits, not_waiting};

/// A share for a party that does not park.
pub fn nothing_is_given_to_a_party_that_is_not_parked()
    ensures writer { GoesOnlySo (parking_cell ∷ [])
        (writes_first 0 0 7)
        (row (release 0 1) done) (giving (writer 1) done ∷ []) }
    ensures readers { GoesOnlySo (parking_cell ∷ [])
        (writes_first 0 0 7
        ++ row (write 1 0) waiting_write
        ∷ [])
        (row (release 0 1) done) (giving readers done ∷ []) }
    ensures reader { GoesOnlySo (parking_cell ∷ [])
        (writes_first 0 0 7
        ++ row (read 1 0) waiting_read
        ∷ [])
        (row (release 0 1) done) (giving (writer 1) done ∷ []) }
    ensures drainer { GoesOnlySo (parking_cell ∷ [])
        (reads_first 0 0 7
        ++ draining (write 1 0) waiting_drain
        ∷ [])
        (row (release 0 1) done) (giving (writer 1) done ∷ []) }
{}

/// A share for a party that is parked on another cell.
pub fn nothing_is_given_on_another_cell()
    ensures { GoesOnlySo (parking_cell ∷ parking_cell ∷ [])
        (writes_first 0 0 7
        ++ row (write 1 1) running
        ∷ row (write 2 1) waiting_write
        ∷ [])
        (row (release 0 1) done) (giving (writer 2) done ∷ []) }
{}

/// A share while a guard of the cell is left.
pub fn nothing_is_given_beside_a_hold()
    ensures { GoesOnlySo (parking_cell ∷ [])
        (reads_first 0 0 7
        ++ row (read 1 0) read_guard
        ∷ row (write 2 0) waiting_write
        ∷ [])
        (row (release 0 1) done) (giving (writer 2) done ∷ []) }
{}

/// A share while another that was given is not taken up, or while a call drains.
pub fn nothing_is_given_beside_a_share_or_a_drain()
    ensures first { GoesOnlySo (parking_cell ∷ [])
        (row (write 0 0) running
        ∷ row (read 1 0) waiting_read
        ∷ row (read 2 0) waiting_read
        ∷ row (write 3 0) waiting_write
        ∷ row (made_failed 0) (giving readers failed)
        ∷ [])
        (row (again 1) waiting_read) (giving (writer 3) waiting_read ∷ []) }
    ensures share { GoesOnlySo (parking_cell ∷ [])
        (writes_first 0 0 7
        ++ row (read 1 0) waiting_read
        ∷ row (read 2 0) waiting_read
        ∷ row (write 3 0) waiting_write
        ∷ row (release 0 1) (giving readers done)
        ∷ row (again 1) read_guard
        ∷ [])
        (row (release 1 6) done) (giving (writer 3) done ∷ []) }
    ensures drain { GoesOnlySo (parking_cell ∷ [])
        (reads_first 0 0 7
        ++ draining (write 1 0) waiting_drain
        ∷ row (write 2 0) waiting_write
        ∷ [])
        (row (release 0 1) done) (giving (writer 2) done ∷ []) }
{}

/// A share on a cell whose calls spin.
pub fn nothing_is_given_where_calls_spin()
    ensures { GoesOnlySo (cell ∷ [])
        (writes_first 0 0 7)
        (row (release 0 1) done) (giving readers done ∷ []) }
{}

/// A gift of a step that is refused, though readers are parked and nothing else stands on the cell.
pub fn a_refused_step_gives_nothing()
    ensures not_waiting { GoesOnlySo (parking_cell ∷ [])
        (writes_first 0 0 7
        ++ row (read 1 0) waiting_read
        ∷ row (release 0 1) done
        ∷ [])
        (row (again 0) not_waiting) (giving readers not_waiting ∷ []) }
    ensures waits { GoesOnlySo (parking_cell ∷ [])
        (writes_first 0 0 7
        ++ row (read 1 0) waiting_read
        ∷ row (write 2 0) waiting_write
        ∷ row (release 0 1) done
        ∷ [])
        (row (read 2 0) waits) (giving readers waits ∷ []) }
{}

/// A gift to the party that steps, also where it was parked before, whether it then waits or gets in.
pub fn nothing_is_given_to_the_party_that_steps()
    ensures { GoesOnlySo (parking_cell ∷ [])
        (writes_first 0 0 7
        ++ row (write 1 0) waiting_write
        ∷ row (release 0 1) done
        ∷ [])
        (row (again 1) write_guard) (giving (writer 1) waiting_write ∷ giving (writer 1) write_guard ∷ []) }
{}

/// A reader that waits where a reader alone stands on the cell.
pub fn a_reader_does_not_wait_beside_a_reader()
    ensures { GoesOnlySo (parking_cell ∷ [])
        (reads_first 0 0 7)
        (row (read 1 0) read_guard) (waiting_read ∷ []) }
{}

/// A share that fits what its call wants is taken up: the call does not wait, and hands nothing on.
pub fn a_share_is_taken_up()
    ensures alone { GoesOnlySo (parking_cell ∷ [])
        (writes_first 0 0 7
        ++ row (read 1 0) waiting_read
        ∷ row (release 0 1) (giving readers done)
        ∷ [])
        (row (again 1) read_guard) (waiting_read ∷ []) }
    ensures reader { GoesOnlySo (parking_cell ∷ [])
        (writes_first 0 0 7
        ++ row (read 1 0) waiting_read
        ∷ row (write 2 0) waiting_write
        ∷ row (release 0 1) (giving readers done)
        ∷ [])
        (row (again 1) read_guard) (giving (writer 2) read_guard ∷ giving (writer 2) waiting_read ∷ []) }
    ensures writer { GoesOnlySo (parking_cell ∷ [])
        (writes_first 0 0 7
        ++ row (write 1 0) waiting_write
        ∷ row (read 2 0) waiting_read
        ∷ row (release 0 1) (giving (writer 1) done)
        ∷ [])
        (row (again 1) write_guard) (giving readers waiting_write ∷ []) }
{}

/// A drain that no reader is left beside becomes the lock: the call does not wait, and hands nothing on.
pub fn a_drain_is_taken_up()
    ensures { GoesOnlySo (parking_cell ∷ [])
        (reads_first 0 0 7
        ++ draining (write 1 0) waiting_drain
        ∷ row (release 0 1) done
        ∷ row (read 2 0) waiting_read
        ∷ [])
        (row (again 1) write_guard) (waiting_drain ∷ giving readers waiting_drain ∷ []) }
{}

/// A share that does not fit is handed on to calls that are parked, and to no other.
pub fn a_share_is_handed_on_to_parked_calls_alone()
    ensures { GoesOnlySo (parking_cell ∷ [])
        (row (write 0 0) running
        ∷ row (read 1 0) waiting_read
        ∷ row (made_failed 0) (giving readers failed)
        ∷ [])
        (row (again 1) running) (giving (writer 2) waiting_read ∷ giving readers running ∷ []) }
{}

/// A downgrade, and a value made for a read, give to no writer: a reader stands on the cell then.
pub fn a_downgrade_gives_no_writer()
    ensures guard { GoesOnlySo (parking_cell ∷ [])
        (writes_first 0 0 7
        ++ row (write 1 0) waiting_write
        ∷ [])
        (row (downgrade 0 1) read_guard) (giving (writer 1) read_guard ∷ []) }
    ensures run { GoesOnlySo (parking_cell ∷ [])
        (row (read 0 0) running
        ∷ row (write 1 0) waiting_write
        ∷ [])
        (row (made 0 7) read_guard) (giving (writer 1) read_guard ∷ []) }
{}

/// A clone that is barred where readers alone stand on the cell, and one that waits.
pub fn a_clone_gets_in_beside_its_guard()
    ensures { GoesOnlySo (parking_cell ∷ [])
        (reads_first 0 0 7)
        (row (clone 0 1) read_guard) (borrowed ∷ waiting_read ∷ []) }
{}

/// A reader that gets in beside a write guard.
pub fn no_reader_gets_in_beside_a_writer()
    ensures { GoesOnlySo (parking_cell ∷ [])
        (fills 0 0 7 1
        ++ row (write 0 0) write_guard
        ∷ [])
        (row (read 1 0) waiting_read) (read_guard ∷ []) }
{}

/// A writer that gets in where readers have shares that they have not taken up.
pub fn no_writer_gets_in_beside_shares()
    ensures { GoesOnlySo (parking_cell ∷ [])
        (writes_first 0 0 7
        ++ row (read 1 0) waiting_read
        ∷ row (release 0 1) (giving readers done)
        ∷ [])
        (row (write 2 0) waiting_write) (write_guard ∷ []) }
{}

/// A write that drains where a writer bars it, and not readers alone.
pub fn no_drain_beside_a_writer()
    ensures { GoesOnlySo (parking_cell ∷ [])
        (writes_first 0 0 7)
        (row (write 1 0) waiting_write) (waiting_drain ∷ []) }
{}
