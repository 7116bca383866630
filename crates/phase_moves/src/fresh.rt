//! The rows before the first step.

ghost use Rattle.std.specs.Prelude.{◌≡◌, ◌<◌, ◌^◌, true, IfOk, length, replicate};
ghost use Rattle.schedule_rules.specs.Changes.{opening_content};
ghost use Rattle.schedule_rules.specs.Transcripts.{most_parties};
ghost use Rattle.phase_moves.specs.Fresh.{TakesPlaces, AreFresh, AreFreshCells, IsFreshCell, idle_party};
ghost use Rattle.phase_moves.specs.Stands.{kind_at};

use crate::rows::{CellRow, Draft, Exit, OpenRun, PartyRow, Rows, Target};
use exit_registry::ExitRegistry;
use lazy_cells::primed;
use phase_bits::Phase;
use phase_locker::{LockerKind, Parks, PhaseLocker};
use phase_seq::LazySequentializer;
use schedule_rules::{CellPlan, Place, Plan};
use std::alloc::{AllocError, Global};

/// Where the calls of a cell wait.
fn kind_of(place: Place) -> LockerKind
    ensures { result ≡ kind_at place }
{
    match place {
        Place::Park => LockerKind::Park,
        Place::Spin => LockerKind::Spin,
        Place::Own(_) => LockerKind::Own,
    }
}

/// The value that a cell has before its first section: the prime value of a primed kind.
fn opening_value(plan: CellPlan) -> Option<u64>
    ensures { result ≡ (opening_content plan).value }
{
    if primed(plan.kind) {
        Some(plan.prime)
    } else {
        None
    }
}

/// The row of a cell before its first section, with a locker for its place.
fn fresh_cell<L: PhaseLocker>(plan: CellPlan) -> CellRow<L>
    requires { L.takes (kind_at plan.place) ≡ true }
    ensures { IsFreshCell L.held L.place plan result }
{
    let run: Option<OpenRun> = None;
    CellRow {
        plan,
        value: opening_value(plan),
        draft: Draft {
            phase: Phase::empty(),
            value: None,
        },
        run,
        waiting: 0,
        seq: LazySequentializer::new(L::new(kind_of(plan.place), Phase::empty())),
    }
}

/// A row for each cell of a plan.
fn fresh_cells<L: PhaseLocker>(
    alloc: Global,
    plans: &[CellPlan],
) -> Result<Vec<CellRow<L>>, AllocError>
    requires { TakesPlaces L.takes plans.now }
    ensures { IfOk result (λ rows. AreFreshCells L.held L.place plans.now rows.items) }
{
    let mut rows = Vec::with_capacity(alloc, plans.len())?;
    for plan in plans {
        rows.push_reserved(fresh_cell(*plan));
    }
    Ok(rows)
}

/// A row for each party.
fn fresh_parties(alloc: Global, count: u32) -> Result<Vec<PartyRow>, AllocError>
    ensures { IfOk result (λ rows. rows.items ≡ replicate count idle_party) }
{
    let waiting: Option<Target> = None;
    let idle = PartyRow {
        waiting,
        innermost: None,
    };
    vec![in alloc; idle; count as usize]
}

impl<L: PhaseLocker> Rows<L> {
    /// The rows of a plan, with room for so many steps, and for a turn of each cell. No later move takes memory.
    ///
    /// # Errors
    ///
    /// Where memory is short.
    pub fn new(alloc: Global, plan: &Plan, count: u32) -> Result<Rows<L>, AllocError>
        requires parties { plan.now.parties < most_parties }
        requires cells { length plan.now.cells.items < 2 ^ 32 }
        requires places { TakesPlaces L.takes plan.now.cells.items }
        ensures { IfOk result (AreFresh L.held L.place plan.now count) }
    {
        let parties = fresh_parties(alloc, plan.parties)?;
        let parks = Parks::new(alloc, plan.cells.len() as u32, plan.parties)?;
        let registry = ExitRegistry::new(alloc, plan.cells.len() as u32)?;
        let turns = Vec::with_capacity(alloc, plan.cells.len())?;
        let mut guards = Vec::with_capacity(alloc, count as usize)?;
        let cells = match fresh_cells(alloc, &plan.cells) {
            Ok(cells) => cells,
            Err(error) => {
                guards.destroy_empty();
                return Err(error);
            }
        };
        let exit = Exit {
            registry,
            owner: None,
            turns,
        };
        Ok(Rows {
            cells,
            guards,
            parties,
            parks,
            exit,
        })
    }
}
