//! The lines of a schedule at the front of a text.

ghost use Rattle.std.specs.Prelude.{◌≡◌, ◌++◌, List, IfOk, IsTrue, ◌↔◌, codes};
ghost use Rattle.std.specs.List.{flat_map, AllByRecursion};
ghost use Rattle.schedule_text.specs.ScheduleText.{CellFits, StepFits};
ghost use Rattle.schedule_text.specs.ReadFields.{Gives};
ghost use Rattle.schedule_text.specs.ReadSteps.{parties_at, cell_text, kind_at, place_at, option_at, prime_at, options_at, cell_at, step_text, step_at};

use super::act::act;
use super::field::{after_word, last_u32, number_u32, number_u64};
use schedule_rules::{CellPlan, Kind, Place, Step};
use std::alloc::{AllocError, Global};
use step_list::StepList;

/// No line of a cell has fewer bytes. So room for all cells is taken at once, and no list of them is copied to a larger one;
/// of room that is not used no page is touched.
const SHORTEST_CELL: usize = b"cell Lazy park\n".len();

/// No line of a step has fewer bytes.
const SHORTEST_STEP: usize = b"0 exit\n".len();

/// No line of a step has fewer bytes for each of its values.
const SHORTEST_VALUE: usize = 8;

/// The lines before the cells, which say how many parties there are.
#[tactic(auto, unfolding(crate::specs::ReadSteps::parties_at))]
pub(super) fn parties(text: &[u8]) -> Option<(u32, &[u8])>
    ensures { Gives (λ found. (found.0, found.1.now)) result (parties_at text.now) }
{
    last_u32(after_word(text, b"schedule 1\nparties ")?)
}

/// The kind of a cell, and the space behind it: a row for each kind, tried in order.
fn kind(text: &[u8]) -> Option<(Kind, &[u8])>
    ensures { Gives (λ found. (found.0, found.1.now)) result (kind_at text.now) }
{
    if let Some(rest) = after_word(text, b"Lazy ") {
        return Some((Kind::Lazy, rest));
    }
    if let Some(rest) = after_word(text, b"LazyFinalize ") {
        return Some((Kind::LazyFinalize, rest));
    }
    if let Some(rest) = after_word(text, b"LockedLazy ") {
        return Some((Kind::LockedLazy, rest));
    }
    if let Some(rest) = after_word(text, b"LockedLazyFinalize ") {
        return Some((Kind::LockedLazyFinalize, rest));
    }
    if let Some(rest) = after_word(text, b"LockedLazyDroped ") {
        return Some((Kind::LockedLazyDroped, rest));
    }
    if let Some(rest) = after_word(text, b"PrimedLockedLazy ") {
        return Some((Kind::PrimedLockedLazy, rest));
    }
    if let Some(rest) = after_word(text, b"PrimedLockedLazyDroped ") {
        return Some((Kind::PrimedLockedLazyDroped, rest));
    }
    None
}

/// The place of a cell: `park`, `spin`, or else `own p`.
#[tactic(auto, unfolding(crate::specs::ReadSteps::place_at, crate::specs::ReadSteps::own_at))]
fn place(text: &[u8]) -> Option<(Place, &[u8])>
    ensures { Gives (λ found. (found.0, found.1.now)) result (place_at text.now) }
{
    if let Some(rest) = after_word(text, b"park") {
        return Some((Place::Park, rest));
    }
    if let Some(rest) = after_word(text, b"spin") {
        return Some((Place::Spin, rest));
    }
    let (party, rest) = number_u32(after_word(text, b"own ")?)?;
    Some((Place::Own(party), rest))
}

/// Whether this option stands at the front, and the bytes after it.
#[tactic(auto, unfolding(crate::specs::ReadSteps::option_at))]
fn option<'a>(text: &'a [u8], word: &[u8]) -> (bool, &'a [u8])
    ensures { (result.0, result.1.now) ≡ option_at word.now text.now }
{
    match after_word(text, word) {
        Some(rest) => (true, rest),
        None => (false, text),
    }
}

/// The value that a cell holds from the start, which is 0 where none is told.
#[tactic(auto, unfolding(crate::specs::ReadSteps::prime_at, crate::specs::ReadSteps::prime_value_at))]
fn prime(text: &[u8]) -> Option<(u64, &[u8])>
    ensures { Gives (λ found. (found.0, found.1.now)) result (prime_at text.now) }
{
    match after_word(text, b" prime ") {
        Some(rest) => {
            let (value, rest) = number_u64(rest)?;
            if value == 0 {
                return None;
            }
            Some((value, rest))
        }
        None => Some((0, text)),
    }
}

/// The options of a cell, up to the end of its line: whether it runs its generator once, whether it puts up with a leak,
/// and the value that it holds from the start.
#[tactic(auto, unfolding(crate::specs::ReadSteps::options_at))]
fn options(text: &[u8]) -> Option<(((bool, bool), u64), &[u8])>
    ensures { Gives (λ found. (found.0, found.1.now)) result (options_at text.now) }
{
    let (once, rest) = option(text, b" once");
    let (leak, rest) = option(rest, b" leak");
    let (prime, rest) = prime(rest)?;
    Some((((once, leak), prime), after_word(rest, b"\n")?))
}

/// The line of a cell.
#[tactic(auto, unfolding(crate::specs::ReadSteps::cell_at))]
fn cell(text: &[u8]) -> Option<(CellPlan, &[u8])>
    ensures { Gives (λ found. (found.0, found.1.now)) result (cell_at text.now) }
{
    let (kind, rest) = kind(after_word(text, b"cell ")?)?;
    let (place, rest) = place(rest)?;
    let (((once, leak), prime), rest) = options(rest)?;
    let cell = CellPlan {
        kind,
        retry: !once,
        leak,
        place,
        prime,
    };
    Some((cell, rest))
}

/// The line of a step.
#[tactic(auto, unfolding(crate::specs::ReadSteps::step_at))]
fn step(text: &[u8]) -> Option<(Step, &[u8])>
    ensures { Gives (λ found. (found.0, found.1.now)) result (step_at text.now) }
{
    let (party, rest) = number_u32(text)?;
    let (act, rest) = act(after_word(rest, b" ")?)?;
    Some((Step { party, act }, rest))
}

/// The lines of cells, up to one that is none. It stands apart from its caller, so that what the loop goes by stays in
/// registers.
#[inline(never)]
pub(super) fn cells(alloc: Global, text: &[u8]) -> Result<(Vec<CellPlan>, &[u8]), AllocError>
    ensures taken { IfOk result (λ found. text.now ≡ flat_map cell_text found.0.items ++ found.1.now) }
    ensures fit { IfOk result (λ found. AllByRecursion CellFits found.0.items) }
    ensures ended { IfOk result (λ found. cell_at found.1.now ≡ None) }
{
    let mut cells = Vec::with_capacity(alloc, text.len() / SHORTEST_CELL + 1)?;
    let mut rest = text;
    while let Some((next, after)) = cell(rest) {
        cells.push(next)?;
        rest = after;
    }
    Ok((cells, rest))
}

/// The lines of steps, up to one that is none. It stands apart as that of cells does.
#[inline(never)]
pub(super) fn steps(alloc: Global, text: &[u8]) -> Result<(StepList, &[u8]), AllocError>
    ensures taken { IfOk result (λ found. text.now ≡ flat_map step_text found.0 ++ found.1.now) }
    ensures fit { IfOk result (λ found. AllByRecursion StepFits found.0) }
    ensures ended { IfOk result (λ found. step_at found.1.now ≡ None) }
{
    let count = text.len() / SHORTEST_STEP + 1;
    let values = text.len() / SHORTEST_VALUE + 1;
    let mut steps = StepList::with_capacity(alloc, count, values)?;
    let mut rest = text;
    while let Some((next, after)) = step(rest) {
        steps.push(next)?;
        rest = after;
    }
    Ok((steps, rest))
}

/// Whether the text is the last line and nothing more.
pub(super) fn is_end(text: &[u8]) -> bool
    ensures { IsTrue result ↔ (text.now ≡ codes "end\n") }
{
    text == b"end\n".as_slice()
}
