//! What a schedule and a transcript are: the plan, the steps and the lines as types, and in `specs/` which transcript
//! of a schedule is legal. Nothing here runs but `form_of`, which tells what a call answers with. It stands on
//! `lazy_cells` for the kinds of cells and their calls, on `exit_registry` for the rounds of the exit, on `phase_seq` for
//! the phases that runs and finalizers reach, on `phase_locker` for how a call waits and what a step gives, and on
//! `phase_bits` for phases.
#![tactic(auto)]

mod exit_laws;
mod form;
mod laws;
mod line;
mod plan;
mod step;
mod transcript;

pub use exit_laws::{
    closed_registries_stay, finalizers_mark_initialized_cells,
    initialized_phases_change_by_finalizers, no_turn_is_busy, phases_tell_registration,
    registered_cells_have_one_turn, registration_is_tried_once, turns_finalize_what_is_there,
    turns_have_room,
};
pub use exit_registry::{Turn, Turned};
pub use form::{Form, form_of};
pub use laws::{
    access_changes_no_value, answers_come_exactly_by_their_causes, downgrades_keep_sections_out,
    failed_runs_keep_the_value, generators_succeed_once, holds_exclude_each_other,
    initialized_stays, lent_cells_are_not_in_use, looks_tell_what_is_registered,
    one_transcript_is_legal, only_initializing_calls_run, owned_cells_never_wait,
    phases_change_where_sections_end, plain_values_stay, records_bar_what_rules_bar,
    refused_steps_change_nothing, steps_run_exactly_where_asked, steps_wait_exactly_where_barred,
    turned_back_calls_change_nothing, values_shown_are_there, waiting_calls_are_not_cyclic,
    what_waits_asks_for_a_lock, without_retry_one_run, write_guards_stand_on_what_is_published,
};
pub use lazy_cells::{Call, Kind};
pub use line::{Answer, Line, Refusal};
pub use phase_locker::{Given, How};
pub use plan::{CellPlan, Place, Plan};
pub use step::{Act, Step, Want};
pub use transcript::{Final, Transcript};
