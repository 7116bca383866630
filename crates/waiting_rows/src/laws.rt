//! Laws of rows that show who waits. Each is the contract of a function that does nothing.

ghost use Rattle.std.specs.Prelude.{ℕ, List, ◌≡◌, ◌<◌, ◌+◌, length};
ghost use Rattle.phase_locker.specs.Rows.{Rows, IsSound, shares, claims};
ghost use Rattle.schedule_rules.specs.History.{count};
ghost use Rattle.schedule_rules.specs.Transcripts.{most_parties};
ghost use Rattle.schedule_rules.specs.Waits.{Wait, shares_read, shares_write, drains_on};
ghost use Rattle.waiting_rows.specs.Shown.{Shows, IsSingle};

/// Rows that show who waits are sound, as lockers need it.
pub fn shown_rows_are_sound()
    ensures { (ws : List Wait) (s : Rows) → IsSingle ws → Shows ws s → length s.writers ≡ length s.readers → length s.rows < most_parties → IsSound s }
{}

/// As many rows have a share of a cell as calls that wait there, and so it is with claims, which are write shares and
/// drains.
pub fn counts_are_of_calls()
    ensures shares { (c : ℕ) (ws : List Wait) (s : Rows) → IsSingle ws → Shows ws s → shares s c ≡ count (shares_read c) ws }
    ensures claims { (c : ℕ) (ws : List Wait) (s : Rows) → IsSingle ws → Shows ws s → claims s c ≡ count (shares_write c) ws + count (drains_on c) ws }
{}
