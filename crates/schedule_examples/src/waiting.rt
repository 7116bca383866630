//! Calls that wait.

ghost use Rattle.std.specs.Prelude.{[], ◌∷◌, ◌++◌, ◌-◌, ◌^◌, ◌≡◌, true, false};
ghost use Rattle.phase_locker.specs.declared.tickets.LockNature.TheVariants as nature;
ghost use Rattle.schedule_rules.specs.Holds.{is_barred};
ghost use Rattle.schedule_examples.specs.Examples.{Goes, row};
ghost use Rattle.schedule_examples.specs.Openings.{writes_first, reads_first};
ghost use Rattle.schedule_examples.specs.Cells.{cell, untouched, initialized_with};
ghost use Rattle.schedule_examples.specs.Words.{phase, read, write, again, made, made_failed, look, put, release, readers, empty_phase, value, read_guard, write_guard, running, done, waiting, waits, no_section};

/// A write waits while another is held, however often it tries, and sees then what was set.
pub fn a_write_waits_for_a_write()
    ensures { Goes (cell ∷ [])
        (writes_first 0 0 1
        ++ row (write 1 0) waiting
        ∷ row (again 1) waiting
        ∷ row (put 0 1 2) done
        ∷ row (again 1) waiting
        ∷ row (release 0 1) done
        ∷ row (again 1) write_guard
        ∷ row (look 1 7) (value 2)
        ∷ row (read 0 0) waiting
        ∷ row (release 1 7) done
        ∷ row (again 0) read_guard
        ∷ row (look 0 11) (value 2)
        ∷ [])
        (initialized_with 2 ∷ []) }
{}

/// Readers stand beside each other, and a write waits until the last of them is gone.
pub fn a_write_waits_for_every_reader()
    ensures { Goes (cell ∷ [])
        (reads_first 0 0 5
        ++ row (read 1 0) read_guard
        ∷ row (write 2 0) waiting
        ∷ row (again 2) waiting
        ∷ row (release 0 1) done
        ∷ row (again 2) waiting
        ∷ row (look 1 2) (value 5)
        ∷ row (release 1 2) done
        ∷ row (again 2) write_guard
        ∷ row (look 2 9) (value 5)
        ∷ row (release 2 9) done
        ∷ [])
        (initialized_with 5 ∷ []) }
{}

/// A write that waits holds nothing, so a reader that comes later gets in before it.
pub fn a_waiting_write_bars_no_read()
    ensures { Goes (cell ∷ [])
        (reads_first 0 0 5
        ++ row (write 1 0) waiting
        ∷ row (read 2 0) read_guard
        ∷ row (release 0 1) done
        ∷ row (again 1) waiting
        ∷ row (release 2 3) done
        ∷ row (again 1) write_guard
        ∷ [])
        (initialized_with 5 ∷ []) }
{}

/// A read that waited to run wants a mere read lock once the cell is initialized, which another
/// reader does not bar.
pub fn a_waiting_read_is_judged_at_the_phase_of_then()
    ensures { Goes (cell ∷ [])
        (row (write 0 0) running
        ∷ row (read 1 0) waiting
        ∷ row (made 0 5) write_guard
        ∷ row (again 1) waiting
        ∷ row (release 0 2) done
        ∷ row (read 2 0) read_guard
        ∷ row (again 1) read_guard
        ∷ row (look 1 6) (value 5)
        ∷ [])
        (initialized_with 5 ∷ []) }
{}

/// A party waits for a guard of its own, which it cannot release then.
pub fn a_party_waits_for_its_own_guard()
    ensures { Goes (cell ∷ [])
        (writes_first 0 0 1
        ++ row (made 0 2) no_section
        ∷ row (made_failed 0) no_section
        ∷ row (phase 0 0) empty_phase
        ∷ row (read 0 0) waiting
        ∷ row (release 0 1) waits
        ∷ row (again 0) waiting
        ∷ [])
        (untouched ∷ []) }
{}

/// Two generators that read each other's cell wait, and are not cyclic, since each runs for another
/// party.
pub fn two_parties_wait_for_each_other()
    ensures { Goes (cell ∷ cell ∷ [])
        (row (read 0 0) running
        ∷ row (read 1 1) running
        ∷ row (read 0 1) waiting
        ∷ row (read 1 0) waiting
        ∷ row (again 0) waiting
        ∷ row (again 1) waiting
        ∷ row (made 0 1) waits
        ∷ [])
        (untouched ∷ untouched ∷ []) }
{}

/// A read is barred by 2^20 - 1 readers and not by one fewer, and a write by a single one. A drain bars each write, and a
/// read only where no reader is left. Beside a write hold both are barred.
pub fn readers_bar_writes_and_too_many_bar_reads()
    ensures most { is_barred nature.Read (record { readers = 2 ^ 20 - 1; written = false; drained = false }) ≡ true }
    ensures fewer { is_barred nature.Read (record { readers = 2 ^ 20 - 2; written = false; drained = false }) ≡ false }
    ensures one { is_barred nature.Write (record { readers = 1; written = false; drained = false }) ≡ true }
    ensures free { is_barred nature.Write (record { readers = 0; written = false; drained = false }) ≡ false }
    ensures drained { is_barred nature.Write (record { readers = 0; written = false; drained = true }) ≡ true }
    ensures drained_read { is_barred nature.Read (record { readers = 0; written = false; drained = true }) ≡ true }
    ensures draining_read { is_barred nature.Read (record { readers = 1; written = false; drained = true }) ≡ false }
    ensures written { is_barred nature.Write (record { readers = 0; written = true; drained = false }) ≡ true }
    ensures written_read { is_barred nature.Read (record { readers = 0; written = true; drained = false }) ≡ true }
{}
