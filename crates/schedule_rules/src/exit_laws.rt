//! Laws of registration, of finalizers and of the exit, for every history. Each is the contract of a function that does
//! nothing.

ghost use Rattle.std.specs.Prelude.{
  ℕ,
  Bool,
  List,
  ◌∷◌,
  ◌≡◌,
  ◌≢◌,
  ◌≤◌,
  ◌<◌,
  ◌+◌,
  ◌&&◌,
  ◌||◌,
  ◌⊎◌,
  length,
  true,
  false,
  if◌then◌else◌,
};
ghost use Rattle.std.specs.declared.option.Option.TheVariants.{Some};
ghost use Rattle.phase_bits.specs.declared.phase.Phase.{Phase};
ghost use Rattle.schedule_rules.specs.declared.plan.CellPlan.{CellPlan};
ghost use Rattle.schedule_rules.specs.declared.step.Step.{Step};
ghost use Rattle.schedule_rules.specs.declared.line.Line.{Line};
ghost use Rattle.schedule_rules.specs.declared.line.Answer.TheVariants as answer;
ghost use Rattle.lazy_cells.specs.Kinds.{is_finalizable};
ghost use Rattle.schedule_rules.specs.declared.step.Want.TheVariants.{Turns};
ghost use Rattle.schedule_rules.specs.History.{Event, accepts, is_closed};
ghost use Rattle.schedule_rules.specs.Kinds.{cell_at};
ghost use Rattle.schedule_rules.specs.Sections.{Section, innermost, is_turn, runs, sections};
ghost use Rattle.schedule_rules.specs.Guards.{guards};
ghost use Rattle.schedule_rules.specs.Waits.{attempt, waits, cell_concerned};
ghost use Rattle.schedule_rules.specs.Legal.{IsLegal, IsLegalLine};
ghost use Rattle.schedule_rules.specs.Replay.{phase_at};
ghost use Rattle.phase_bits.specs.Flags.{has, initialized};
ghost use Rattle.schedule_rules.specs.Laws.{
  IsWithoutEffect,
  tries_to_register,
  registrations,
  TellsRegistration,
  TurnsWhere,
  IsEndedTurn,
  Finishes,
  tells_declined,
  turns_of,
  turns_at_hand,
};
ghost use Rattle.exit_registry.specs.Registry.{is_known};
ghost use Rattle.exit_registry.specs.Exits.{closed};
ghost use Rattle.phase_seq.specs.Phases.{final_outcome};
ghost use Rattle.schedule_rules.specs.Exits.{registry, ended_turns, NoneBusy};
ghost use Rattle.schedule_rules.specs.Transcripts.{Schedule, Account, IsLegalTranscript};

/// Registration for the exit is tried exactly where a step is not refused, its attempt is neither cyclic nor barred, and it
/// asks for a run of a cell that is to be registered, on the empty phase (`tries_to_register`). Then the run begins, or the
/// call is declined, and tells the phase that says so, or gets a guard to read a primed value. It is tried at most once at
/// a cell, which was not registered before. A cell is registered exactly by the step that tries it, where cells may still
/// be registered.
pub fn registration_is_tried_once()
    ensures answers { (cells : List CellPlan) (h : List Event) (s : Step) (l : Line) (c : ℕ) →
        (legal : IsLegalLine cells h s l) → tries_to_register cells c h s l.given legal.moment ≡ true →
        (l.answer ≡ answer.Running) ⊎ (tells_declined l.answer ≡ true) }
    ensures unknown { (cells : List CellPlan) (h : List Event) (s : Step) (l : Line) (c : ℕ) → IsLegal cells h →
        (legal : IsLegalLine cells h s l) → tries_to_register cells c h s l.given legal.moment ≡ true →
        is_known (registry cells h) c ≡ false }
    ensures once { (cells : List CellPlan) (h : List Event) (c : ℕ) → (legal : IsLegal cells h) →
        registrations cells c h legal ≤ 1 }
    ensures registers { (cells : List CellPlan) (h : List Event) (e : Event) (c : ℕ) → (legal : IsLegal cells (e ∷ h)) →
        is_known (registry cells (e ∷ h)) c ≡
        (is_known (registry cells h) c || (tries_to_register cells c h e.step e.line.given legal.0.moment && accepts h)) }
{}

/// Of a cell of a kind that is registered, a phase that is not empty has REGISTERED where the cell is registered, and
/// REGISTRATION_REFUSED where it is not, and never both.
pub fn phases_tell_registration()
    ensures { (cells : List CellPlan) (h : List Event) (c : ℕ) → IsLegal cells h →
        is_finalizable (cell_at cells c).kind ≡ true → phase_at cells c h ≢ 0 →
        TellsRegistration (is_known (registry cells h) c) (phase_at cells c h) }
{}

/// A turn that runs a finalizer is that of a cell whose value is there. A turn that is skipped is that of a cell whose
/// value is not there, and leaves all sections and guards, and every published phase and value, as they were.
pub fn turns_finalize_what_is_there()
    ensures finalizes { (cells : List CellPlan) (h : List Event) (s : Step) (l : Line) (c : ℕ) → IsLegalLine cells h s l →
        l.answer ≡ answer.Finalizing c → TurnsWhere cells h s c true }
    ensures skips { (cells : List CellPlan) (h : List Event) (s : Step) (l : Line) (c : ℕ) → IsLegalLine cells h s l →
        l.answer ≡ answer.Skipped c →
        TurnsWhere cells h s c false × IsWithoutEffect cells h (record { step = s; line = l }) }
{}

/// A finalizer that ends adds FINALIZED or FINALIZATION_PANICKED to the phase of its cell, which has INITIALIZED, and
/// leaves every other cell as it was. It leaves the value of a soft kind; of `LockedLazyDroped` none is left, and of
/// `PrimedLockedLazyDroped` the one that the finalizer gives back. Nothing else adds one of the two to a phase.
pub fn finalizers_mark_initialized_cells()
    ensures ends { (cells : List CellPlan) (h : List Event) (s : Step) (l : Line) (c : ℕ) (p : Phase) (fine : Bool) →
        IsLegal cells h → IsLegalLine cells h s l → l.answer ≡ answer.Phase p → Finishes s fine →
        cell_concerned cells h s ≡ Some c → IsEndedTurn cells h (record { step = s; line = l }) c fine }
    ensures marks { (cells : List CellPlan) (h : List Event) (e : Event) (c : ℕ) (fine : Bool) → IsLegal cells (e ∷ h) →
        has (phase_at cells c h) (final_outcome fine) ≡ false → has (phase_at cells c (e ∷ h)) (final_outcome fine) ≡ true →
        IsEndedTurn cells h e c fine }
{}

/// A phase that has INITIALIZED changes only where a finalizer of its cell ends, which adds a flag. So no flag of it is
/// ever cleared.
pub fn initialized_phases_change_by_finalizers()
    ensures { (cells : List CellPlan) (h : List Event) (e : Event) (c : ℕ) → IsLegal cells (e ∷ h) →
        has (phase_at cells c h) initialized ≡ true → phase_at cells c (e ∷ h) ≢ phase_at cells c h →
        IsEndedTurn cells h e c true ⊎ IsEndedTurn cells h e c false }
{}

/// The registry is open as long as no look found that there is no cell. Once one did, no cell has a turn to come and none
/// can be registered, and the registry stays as it is.
pub fn closed_registries_stay()
    ensures open { (cells : List CellPlan) (h : List Event) → IsLegal cells h →
        (registry cells h).is_open ≡ accepts h }
    ensures closed { (cells : List CellPlan) (h : List Event) → IsLegal cells h → is_closed h ≡ true →
        registry cells h ≡ closed (registry cells h) }
    ensures stays { (cells : List CellPlan) (h : List Event) (e : Event) → IsLegal cells h → is_closed h ≡ true →
        registry cells (e ∷ h) ≡ registry cells h }
{}

/// Each cell that was registered has one turn: it is to come, waits for the cell, goes on or has ended. No other cell has
/// one. So the exit turns each registered cell at most once, and forgets none.
pub fn registered_cells_have_one_turn()
    ensures { (cells : List CellPlan) (h : List Event) (c : ℕ) → IsLegal cells h →
        turns_of cells c h ≡ (if is_known (registry cells h) c then 1 else 0) }
{}

/// No turn of a legal transcript is Busy: each is done, skipped or failed, and has a text.
pub fn no_turn_is_busy()
    ensures { (x : Schedule) (t : Account) → IsLegalTranscript x t → NoneBusy t.exits }
{}

/// The turns to come, those that wait, those that go on and those that ended are together at most as many as the cells.
/// So fewer turns ended than there are cells, where a finalizer runs and where a step takes a turn or goes on with one.
pub fn turns_have_room()
    ensures all { (cells : List CellPlan) (h : List Event) → IsLegal cells h →
        turns_at_hand cells h + length (ended_turns h) ≤ length cells }
    ensures runs { (cells : List CellPlan) (h : List Event) (p : ℕ) (s : Section) → IsLegal cells h →
        innermost p (sections h) ≡ Some s → is_turn s.want ≡ true → length (ended_turns h) < length cells }
    ensures taken { (cells : List CellPlan) (h : List Event) (s : Step) (c : ℕ) → IsLegal cells h →
        attempt cells h s ≡ Some (record { cell = c; want = Turns }) → length (ended_turns h) < length cells }
{}
