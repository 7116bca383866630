//! Laws of the definitions, for every history. Each is the contract of a function that does nothing. Those of registration
//! and of the exit stand in `exit_laws`.

ghost use Rattle.std.specs.Prelude.{
  ℕ,
  Bool,
  List,
  ◌∷◌,
  ◌≡◌,
  ◌≢◌,
  ◌≤◌,
  ◌<◌,
  ◌+◌,
  ◌&&◌,
  ◌++◌,
  All,
  length,
  is_none,
  is_some,
  true,
  false,
  if◌then◌else◌,
};
ghost use Rattle.std.specs.declared.option.Option.TheVariants.{Some};
ghost use Rattle.phase_bits.specs.declared.phase.Phase.{Phase};
ghost use Rattle.phase_bits.specs.Records.{bars_read, bars_write};
ghost use Rattle.phase_locker.specs.declared.ways.Given.{Given};
ghost use Rattle.phase_locker.specs.declared.ways.Given.TheVariants as given;
ghost use Rattle.schedule_rules.specs.declared.plan.CellPlan.{CellPlan};
ghost use Rattle.schedule_rules.specs.declared.step.Step.{Step};
ghost use Rattle.schedule_rules.specs.declared.line.Line.{Line};
ghost use Rattle.schedule_rules.specs.declared.line.Refusal.{Refusal};
ghost use Rattle.schedule_rules.specs.declared.line.Answer.TheVariants as answer;
ghost use Rattle.lazy_cells.specs.declared.call.Call.{Call};
ghost use Rattle.phase_locker.specs.declared.tickets.LockNature.TheVariants as nature;
ghost use Rattle.schedule_rules.specs.declared.step.Want.TheVariants.{Calls};
ghost use Rattle.schedule_rules.specs.Refusals.{refusal};
ghost use Rattle.schedule_rules.specs.History.{Event};
ghost use Rattle.schedule_rules.specs.Kinds.{cell_at, is_owned};
ghost use Rattle.schedule_rules.specs.Sections.{Section, innermost, runs, sections};
ghost use Rattle.schedule_rules.specs.Changes.{effect};
ghost use Rattle.schedule_rules.specs.Guards.{Guard, numbered, reader, guards};
ghost use Rattle.schedule_rules.specs.Gifts.{turns_to_read};
ghost use Rattle.schedule_rules.specs.Waits.{Attempt, attempt, Wait, wait_of, waits, cell_concerned};
ghost use Rattle.schedule_rules.specs.Calls.{initializes, is_fast, seeks};
ghost use Rattle.schedule_rules.specs.declared.step.Act.TheVariants as act;
ghost use Rattle.schedule_rules.specs.Holds.{
  read_guards,
  write_holds,
  readers_with,
  writers_with,
  holding,
  holding_with,
  is_barred,
};
ghost use Rattle.schedule_rules.specs.Core.{core, core_with};
ghost use Rattle.schedule_rules.specs.Due.{keeps_own, due_attempt};
ghost use Rattle.schedule_rules.specs.Legal.{IsLegal, IsLegalLine, IsExclusive};
ghost use Rattle.schedule_rules.specs.Replay.{replay, phase_at, inside};
ghost use Rattle.phase_bits.specs.Flags.{has, initialized};
ghost use Rattle.schedule_rules.specs.Causes.{
  is_waiting,
  is_borrowed,
  is_missed,
  is_failed,
  is_running,
  is_access,
  is_cyclic,
  is_finalizing,
  is_skipped,
  is_round,
  is_closing,
  is_failure,
  is_refused_in_use,
  is_step_in_use,
  lends_at,
  runs_to_lend,
  is_barred_step,
  is_missing_step,
  is_running_step,
  is_access_step,
  is_turn_step,
  is_cyclic_step,
  is_round_step,
  is_closing_step,
  is_borrowing_step,
};
ghost use Rattle.schedule_rules.specs.Laws.{
  ChangesNothing,
  IsWithoutEffect,
  KeepsValues,
  IsTurnedAway,
  IsFailedRun,
  GivesBack,
  read_at,
  NoneParks,
  successes,
  is_initializing,
  IsAsAt,
  IsUnused,
  ChangesCellAlone,
  Leaves,
};
ghost use Rattle.exit_registry.specs.Exits.{closed};
ghost use Rattle.schedule_rules.specs.Transcripts.{Schedule, Account, IsLegalTranscript};
ghost use Rattle.lazy_cells.specs.Kinds.{is_plain};
ghost use Rattle.schedule_rules.specs.declared.line.Refusal.TheVariants as refused;
ghost use Rattle.schedule_rules.specs.Kinds.{is_of_other};
ghost use Rattle.schedule_rules.specs.History.{count};
ghost use Rattle.schedule_rules.specs.Laws.{ShowsValue};
ghost use Rattle.std.specs.Prelude.{◌==◌};

/// A refused step leaves all sections, guards and waiting calls with their shares and drains, every published phase and
/// value, and all of the exit, as they were. Where its line is legal, it gives nothing.
pub fn refused_steps_change_nothing()
    ensures changes { (cells : List CellPlan) (h : List Event) (s : Step) (r : Refusal) (g : Given) →
        ChangesNothing cells h (record { step = s; line = record { answer = answer.Refused r; given = g } }) }
    ensures gives { (cells : List CellPlan) (h : List Event) (s : Step) (r : Refusal) (g : Given) →
        IsLegalLine cells h s (record { answer = answer.Refused r; given = g }) → g ≡ given.Nobody }
{}

/// A step is barred where it is not refused, is not cyclic, its call or turn keeps no share and no drain, and the lock that
/// it wants is barred: by what stands on the cell without a share or a drain of its own, and with what its line gave at the
/// first moment. Exactly then a fast call misses, any other call borrows at a cell of its party's own, and waits at another
/// cell. So a step that is neither refused nor barred is answered in that step. A clone never waits: where a read is barred,
/// it borrows.
pub fn steps_wait_exactly_where_barred()
    ensures waits { (cells : List CellPlan) (h : List Event) (s : Step) (l : Line) →
        (legal : IsLegalLine cells h s l) → is_waiting l.answer ≡ is_barred_step cells h s l.given legal.moment }
    ensures misses { (cells : List CellPlan) (h : List Event) (s : Step) (l : Line) →
        (legal : IsLegalLine cells h s l) → is_missed l.answer ≡ is_missing_step cells h s l.given legal.moment }
    ensures borrows { (cells : List CellPlan) (h : List Event) (s : Step) (l : Line) →
        (legal : IsLegalLine cells h s l) → is_borrowed l.answer ≡ is_borrowing_step cells h s l.given legal.moment }
{}

/// A step begins a run exactly where it is not refused, is not cyclic, its call keeps its share or its drain or is not
/// barred, and the call asks for a run at the published phase of the cell, whose generator runs there: a cell of a kind
/// that is registered is registered, or puts up with not being it.
pub fn steps_run_exactly_where_asked()
    ensures { (cells : List CellPlan) (h : List Event) (s : Step) (l : Line) →
        (legal : IsLegalLine cells h s l) → is_running l.answer ≡ is_running_step cells h s l.given legal.moment }
{}

/// Each of these answers comes exactly by its cause, at a step that is not refused. Cyclic: the call asks for a run of the
/// generator that its own party runs. Access: the call is neither cyclic nor barred, runs nothing, is one that is told where
/// the value may not be accessed, and the value may not be, at the phase that the call leaves; or the value of the cell is to
/// be lent, and may not be accessed, and no run is asked, as a `try_get_mut` never asks for one. Finalizing and Skipped, with the
/// number of the cell: the turn of this cell is not barred, and its value is there, or is not.
pub fn answers_come_exactly_by_their_causes()
    ensures cyclic { (cells : List CellPlan) (h : List Event) (s : Step) (l : Line) →
        IsLegalLine cells h s l → is_cyclic l.answer ≡ is_cyclic_step cells h s }
    ensures access { (cells : List CellPlan) (h : List Event) (s : Step) (l : Line) →
        (legal : IsLegalLine cells h s l) → is_access l.answer ≡ is_access_step cells h s l.given legal.moment }
    ensures finalizing { (cells : List CellPlan) (h : List Event) (s : Step) (l : Line) →
        (legal : IsLegalLine cells h s l) → (c : ℕ) → is_finalizing c l.answer ≡ is_turn_step cells c true h s l.given legal.moment }
    ensures skipped { (cells : List CellPlan) (h : List Event) (s : Step) (l : Line) →
        (legal : IsLegalLine cells h s l) → (c : ℕ) → is_skipped c l.answer ≡ is_turn_step cells c false h s l.given legal.moment }
{}

/// A look answers with the number of the cells registered since the last look, and that there is none exactly where there
/// is none. A step looks where it is an Exit that is not refused, and no cell is left of the round.
pub fn looks_tell_what_is_registered()
    ensures round { (cells : List CellPlan) (h : List Event) (s : Step) (l : Line) →
        IsLegalLine cells h s l → (n : ℕ) → is_round n l.answer ≡ is_round_step cells n h s }
    ensures closed { (cells : List CellPlan) (h : List Event) (s : Step) (l : Line) →
        IsLegalLine cells h s l → is_closing l.answer ≡ is_closing_step cells h s }
{}

/// A call that does not initialize begins no run of a generator, whatever the phase is: a call for the phase, `try_get`, the
/// four try calls and the two primed calls that do not initialize.
pub fn only_initializing_calls_run()
    ensures { (cells : List CellPlan) (h : List Event) (s : Step) (l : Line) (c : ℕ) (k : Call) → IsLegalLine cells h s l →
        attempt cells h s ≡ Some (record { cell = c; want = Calls k }) → is_initializing k ≡ false → l.answer ≢ answer.Running }
{}

/// A call that is turned back, because it is cyclic, or is barred and does not wait, leaves all sections and guards, and
/// every published phase and value, as they were.
pub fn turned_back_calls_change_nothing()
    ensures cyclic { (cells : List CellPlan) (h : List Event) (s : Step) (g : Given) →
        IsLegalLine cells h s (record { answer = answer.Cyclic; given = g }) →
        IsWithoutEffect cells h (record { step = s; line = record { answer = answer.Cyclic; given = g } }) }
    ensures borrowed { (cells : List CellPlan) (h : List Event) (s : Step) (g : Given) →
        IsLegalLine cells h s (record { answer = answer.Borrowed; given = g }) →
        IsWithoutEffect cells h (record { step = s; line = record { answer = answer.Borrowed; given = g } }) }
    ensures missed { (cells : List CellPlan) (h : List Event) (s : Step) (g : Given) →
        IsLegalLine cells h s (record { answer = answer.Missed; given = g }) →
        IsWithoutEffect cells h (record { step = s; line = record { answer = answer.Missed; given = g } }) }
{}

/// A step answers Failed exactly where it ends a generator by a failure and is not refused: the generator of its party's
/// innermost section, or that of a `get_mut` on a cell that asks for a run, whose outcome is none. It leaves the published
/// value of the generator's cell as it was, publishes the phase of a failed run there, and changes nothing published elsewhere.
pub fn failed_runs_keep_the_value()
    ensures answers { (cells : List CellPlan) (h : List Event) (s : Step) (l : Line) → IsLegalLine cells h s l →
        is_failed l.answer ≡ (is_none (refusal cells h s) && is_failure cells h s.act) }
    ensures changes { (cells : List CellPlan) (h : List Event) (s : Step) (g : Given) (c : ℕ) →
        IsLegalLine cells h s (record { answer = answer.Failed; given = g }) → cell_concerned cells h s ≡ Some c →
        IsFailedRun cells h (record { step = s; line = record { answer = answer.Failed; given = g } }) c }
{}

/// A schedule of cells that do not park has at most one legal transcript: the same lines, the same finals, and the same
/// turns of the exit. Where a cell parks its calls, a step may hand over to one call or to another, or to none.
pub fn one_transcript_is_legal()
    ensures lines { (x : Schedule) (t u : Account) → NoneParks x.cells →
        IsLegalTranscript x t → IsLegalTranscript x u → t.lines ≡ u.lines }
    ensures finals { (x : Schedule) (t u : Account) → NoneParks x.cells →
        IsLegalTranscript x t → IsLegalTranscript x u → t.finals ≡ u.finals }
    ensures exits { (x : Schedule) (t u : Account) → NoneParks x.cells →
        IsLegalTranscript x t → IsLegalTranscript x u → t.exits ≡ u.exits }
{}

/// At each moment of a legal history the holds of every cell exclude each other: at most one write hold or write share,
/// beside it no read guard, no read share and no drain, and readers within their limit.
pub fn holds_exclude_each_other()
    ensures { (cells : List CellPlan) (h : List Event) (c : ℕ) → IsLegal cells h → IsExclusive cells h c }
{}

/// The record of a cell's holders bars the locks that the rules bar, and no other: wherever the holds of the cell
/// exclude each other, and also while the share or the drain of a call is taken away and handed on. A call that keeps
/// its share or its drain is not barred at all.
pub fn records_bar_what_rules_bar()
    ensures reads { (cells : List CellPlan) (h : List Event) (c : ℕ) → IsExclusive cells h c →
        is_barred nature.Read (holding cells c h) ≡ bars_read (core cells c h) }
    ensures writes { (cells : List CellPlan) (h : List Event) (c : ℕ) →
        is_barred nature.Write (holding cells c h) ≡ bars_write (core cells c h) }
    ensures reads_with { (cells : List CellPlan) (h : List Event) (c : ℕ) (ws : List Wait) →
        (0 < writers_with c h ws → readers_with c h ws ≡ 0) →
        is_barred nature.Read (holding_with c h ws) ≡ bars_read (core_with cells c h ws) }
    ensures writes_with { (cells : List CellPlan) (h : List Event) (c : ℕ) (ws : List Wait) →
        is_barred nature.Write (holding_with c h ws) ≡ bars_write (core_with cells c h ws) }
    ensures kept { (cells : List CellPlan) (h : List Event) (p : ℕ) (a : Attempt) (ws : List Wait) (chosen : Bool) →
        keeps_own cells h p a ≡ true → is_waiting (due_attempt cells h p a ws chosen) ≡ false }
{}

/// The published phase of a cell changes only where a section of the cell is given back, and never while a guard to read
/// the cell is open. A value that is lent, and a generator that was to make it and failed, is a section at once.
pub fn phases_change_where_sections_end()
    ensures { (cells : List CellPlan) (h : List Event) (e : Event) (c : ℕ) → IsLegal cells (e ∷ h) →
        phase_at cells c (e ∷ h) ≢ phase_at cells c h → GivesBack cells h e c × (read_guards c h ≡ 0) }
{}

/// A downgrade of a guard, and the value that the generator of a read made, open a guard to read, with the number of their
/// step. From there until that guard is released, whatever else happens, no section of its cell runs and no guard writes it.
pub fn downgrades_keep_sections_out()
    ensures opens { (cells : List CellPlan) (h : List Event) (s : Step) (g : Given) (c : ℕ) →
        turns_to_read s.act ≡ true → cell_concerned cells h s ≡ Some c →
        numbered (length h) (guards (read_at s g ∷ h)) ≡ Some (reader (length h) s.party c) }
    ensures keeps_out { (cells : List CellPlan) (h later : List Event) (s : Step) (g : Given) (c : ℕ) →
        IsLegal cells (later ++ read_at s g ∷ h) → turns_to_read s.act ≡ true → cell_concerned cells h s ≡ Some c →
        is_some (numbered (length h) (guards (later ++ read_at s g ∷ h))) ≡ true →
        write_holds c (later ++ read_at s g ∷ h) ≡ 0 }
{}

/// A value that is shown is there. What an open guard shows has a value: its own section's, where it writes, and else the
/// published one. A line that shows a value shows the one that is there: a call the published value of its cell, which may
/// be accessed, a look what the holder of its guard sees, and a run that ends the value that it made. Where a value is lent,
/// that is the published one, which may be accessed, or the one that was made to be lent.
pub fn values_shown_are_there()
    ensures guards { (cells : List CellPlan) (h : List Event) (g : ℕ) (x : Guard) → IsLegal cells h → numbered g (guards h) ≡ Some x →
        is_some (if x.writes then inside cells h x else replay cells x.cell h).value ≡ true }
    ensures lines { (cells : List CellPlan) (h : List Event) (s : Step) (l : Line) (v : ℕ) → IsLegal cells h →
        IsLegalLine cells h s l → l.answer ≡ answer.Value v → ShowsValue cells h s v }
{}

/// Once the phase of a plain cell has INITIALIZED, a value is published there, and it stays whatever steps come, also those
/// of a finalizer, until its value is lent. So each later call for the value shows the same.
pub fn plain_values_stay()
    ensures there { (cells : List CellPlan) (h : List Event) (c : ℕ) → is_plain (cell_at cells c).kind ≡ true →
        has (phase_at cells c h) initialized ≡ true → is_some (replay cells c h).value ≡ true }
    ensures stays { (cells : List CellPlan) (h later : List Event) (c : ℕ) → IsLegal cells (later ++ h) →
        All (λ e. lends_at c e.step.act ≡ false) later → is_plain (cell_at cells c).kind ≡ true → has (phase_at cells c h) initialized ≡ true →
        (replay cells c (later ++ h)).value ≡ (replay cells c h).value }
{}

/// INITIALIZED is never cleared.
pub fn initialized_stays()
    ensures { (cells : List CellPlan) (h : List Event) (e : Event) (c : ℕ) → IsLegal cells (e ∷ h) →
        has (phase_at cells c h) initialized ≡ true → has (phase_at cells c (e ∷ h)) initialized ≡ true }
{}

/// Without retry a run begins only on the empty phase, and while it goes on the phase stays empty. So it is with a run that
/// ends in its own step, to lend the value. So a cell without retry whose phase is not empty never runs its generator.
pub fn without_retry_one_run()
    ensures begins { (cells : List CellPlan) (h : List Event) (s : Step) (l : Line) (c : ℕ) → IsLegalLine cells h s l →
        l.answer ≡ answer.Running → cell_concerned cells h s ≡ Some c → (cell_at cells c).retry ≡ false →
        phase_at cells c h ≡ 0 }
    ensures runs { (cells : List CellPlan) (h : List Event) (p c : ℕ) → IsLegal cells h → runs p c h ≡ true →
        (cell_at cells c).retry ≡ false → phase_at cells c h ≡ 0 }
    ensures lends { (cells : List CellPlan) (h : List Event) (s : Step) (c : ℕ) → lends_at c s.act ≡ true →
        runs_to_lend cells h s.act ≡ true → (cell_at cells c).retry ≡ false → phase_at cells c h ≡ 0 }
{}

/// A step that answers Access leaves all sections and guards, and every published value, as they were. Where its line is
/// legal, it leaves every cell but its own, and shows the phase that is then published there. That is the phase as it was, at
/// which the value may not be accessed, and where its call is one for runs and that phase lacks INITIALIZED, that of a cell
/// without retry, whose only run has failed or was declined; or the value was to be lent, and no run was asked; or the call
/// itself was declined, since its cell is not registered, and leaves the phase that says so.
pub fn access_changes_no_value()
    ensures changes { (cells : List CellPlan) (h : List Event) (s : Step) (p : Phase) (g : Given) →
        KeepsValues cells h (record { step = s; line = record { answer = answer.Access p; given = g } }) }
    ensures denies { (cells : List CellPlan) (h : List Event) (s : Step) (l : Line) (c : ℕ) (p : Phase) →
        IsLegalLine cells h s l → l.answer ≡ answer.Access p → cell_concerned cells h s ≡ Some c →
        IsTurnedAway cells h (record { step = s; line = l }) c p }
{}

/// A generator of a cell succeeds at most once: in a section, or in the step that lends its value.
pub fn generators_succeed_once()
    ensures { (cells : List CellPlan) (h : List Event) (c : ℕ) → IsLegal cells h → successes cells c h ≤ 1 }
{}

/// What is published of a cell stays while a section of it is open: it is what was published there before the step that
/// opened the section. So the holder of a write guard sees what happened in its section, on what is published.
pub fn write_guards_stand_on_what_is_published()
    ensures sections { (cells : List CellPlan) (h : List Event) (p : ℕ) (s : Section) → IsLegal cells h →
        innermost p (sections h) ≡ Some s → IsAsAt cells h s.cell s.start }
    ensures guards { (cells : List CellPlan) (h : List Event) (g : ℕ) (x : Guard) → IsLegal cells h →
        numbered g (guards h) ≡ Some x → x.writes ≡ true → IsAsAt cells h x.cell x.start }
    ensures shows { (cells : List CellPlan) (h : List Event) (g : ℕ) (x : Guard) → IsLegal cells h →
        numbered g (guards h) ≡ Some x → x.writes ≡ true →
        inside cells h x ≡ effect (cell_at cells x.cell) x.changes (replay cells x.cell h) }
{}

/// A call that waits asks for no run of a generator that its own party is running. So an Again is never turned back as
/// cyclic.
pub fn waiting_calls_are_not_cyclic()
    ensures waits { (cells : List CellPlan) (h : List Event) (p : ℕ) (w : Wait) → IsLegal cells h →
        wait_of p (waits cells h) ≡ Some w → (initializes (cell_at cells w.cell).kind w.want && runs p w.cell h) ≡ false }
    ensures again { (cells : List CellPlan) (h : List Event) (s : Step) (l : Line) → IsLegal cells h →
        IsLegalLine cells h s l → s.act ≡ act.Again → l.answer ≢ answer.Cyclic }
{}

/// What waits is a call for a lock or a turn, at a cell of no party's own: a call for the phase or for the value as it is
/// never waits, and neither does a fast call.
pub fn what_waits_asks_for_a_lock()
    ensures asks { (cells : List CellPlan) (h : List Event) (p : ℕ) (w : Wait) → IsLegal cells h →
        wait_of p (waits cells h) ≡ Some w → is_some (seeks (cell_at cells w.cell).kind w.want) ≡ true }
    ensures slow { (cells : List CellPlan) (h : List Event) (p : ℕ) (w : Wait) → IsLegal cells h →
        wait_of p (waits cells h) ≡ Some w → is_fast w.want ≡ false }
    ensures shared { (cells : List CellPlan) (h : List Event) (p : ℕ) (w : Wait) → IsLegal cells h →
        wait_of p (waits cells h) ≡ Some w → is_owned (cell_at cells w.cell).place ≡ false }
{}

/// At a cell that belongs to a party nothing ever waits. A call on it by another party that does not wait elsewhere is refused
/// as not the owner's, and changes nothing, and so is an act that is to lend its value.
pub fn owned_cells_never_wait()
    ensures waits { (cells : List CellPlan) (h : List Event) (c : ℕ) → IsLegal cells h → is_owned (cell_at cells c).place ≡ true →
        count (λ w. w.cell == c) (waits cells h) ≡ 0 }
    ensures refuses { (cells : List CellPlan) (h : List Event) (s : Step) (l : Line) (c : ℕ) (k : Call) → IsLegalLine cells h s l →
        s.act ≡ act.Call c k → is_of_other (cell_at cells c).place s.party ≡ true → is_none (wait_of s.party (waits cells h)) ≡ true →
        (l.answer ≡ answer.Refused refused.NotOwner) × ChangesNothing cells h (record { step = s; line = l }) }
    ensures lends { (cells : List CellPlan) (h : List Event) (s : Step) (l : Line) (c : ℕ) → IsLegalLine cells h s l →
        lends_at c s.act ≡ true → is_of_other (cell_at cells c).place s.party ≡ true → is_none (wait_of s.party (waits cells h)) ≡ true →
        (l.answer ≡ answer.Refused refused.NotOwner) × ChangesNothing cells h (record { step = s; line = l }) }
{}

/// A step that is to lend the value of a cell, and is not refused, finds no open guard, no section and no waiting call at the
/// cell. It leaves what is open and who waits, gives nothing, and changes what is published of its cell alone. Where it shows a
/// value, that which its party leaves is published afterwards, and may be accessed. A step is refused as InUse exactly where
/// its party does not wait, and it is to lend the value of a cell that is the party's own or nobody's, of a kind that lends it,
/// and in use.
pub fn lent_cells_are_not_in_use()
    ensures finds { (cells : List CellPlan) (h : List Event) (s : Step) (c : ℕ) →
        lends_at c s.act ≡ true → is_none (refusal cells h s) ≡ true → IsUnused cells h c }
    ensures changes { (cells : List CellPlan) (h : List Event) (s : Step) (l : Line) (c : ℕ) → IsLegalLine cells h s l →
        lends_at c s.act ≡ true → is_none (refusal cells h s) ≡ true → ChangesCellAlone cells h (record { step = s; line = l }) c }
    ensures leaves { (cells : List CellPlan) (h : List Event) (s : Step) (l : Line) (c v : ℕ) → IsLegalLine cells h s l →
        lends_at c s.act ≡ true → l.answer ≡ answer.Value v → Leaves cells (record { step = s; line = l } ∷ h) c s.act }
    ensures refuses { (cells : List CellPlan) (h : List Event) (s : Step) (l : Line) → IsLegalLine cells h s l →
        is_refused_in_use l.answer ≡ is_step_in_use cells h s }
{}
