//! Acts at the front of a text, each up to the end of its line.

ghost use Rattle.std.specs.Prelude.{◌≡◌};
ghost use Rattle.schedule_text.specs.ReadFields.{Gives};
ghost use Rattle.schedule_text.specs.ReadSteps.{call_at, plain_calls, try_calls, fast_calls, phase_calls, first_word, called_at, called_or_release_at, release_at, made_at, look_at, set_at, downgrade_at, clone_at, again_at, left_at, finished_at, called_or_finished_at, outcome_at, get_mut_at, try_get_mut_at, called_or_get_mut_at, called_or_try_get_mut_at, exit_at, act_at};

use super::field::{after_word, first_byte, last_u32, last_u64, number_u32, number_u64};
use schedule_rules::{Act, Call};

/// The cell of a call.
#[tactic(auto, unfolding(crate::specs::ReadSteps::call_at))]
fn cell_of(call: Call, text: &[u8]) -> Option<(Act, &[u8])>
    ensures { Gives (λ found. (found.0, found.1.now)) result (call_at call text.now) }
{
    let (cell, rest) = last_u32(text)?;
    Some((Act::Call { cell, call }, rest))
}

/// The call whose word stands at the front, and the bytes after it: a row for each call, tried in order. Of those whose first
/// letter no other call has.
#[inline(always)]
fn plain_call(text: &[u8]) -> Option<(Call, &[u8])>
    ensures { Gives (λ found. (found.0, found.1.now)) result (first_word plain_calls text.now) }
{
    if let Some(rest) = after_word(text, b"read ") {
        return Some((Call::Read, rest));
    }
    if let Some(rest) = after_word(text, b"write ") {
        return Some((Call::Write, rest));
    }
    if let Some(rest) = after_word(text, b"get ") {
        return Some((Call::Get, rest));
    }
    if let Some(rest) = after_word(text, b"init ") {
        return Some((Call::Init, rest));
    }
    None
}

/// The same of those that begin with a `t`.
fn try_call(text: &[u8]) -> Option<(Call, &[u8])>
    ensures { Gives (λ found. (found.0, found.1.now)) result (first_word try_calls text.now) }
{
    if let Some(rest) = after_word(text, b"try_read ") {
        return Some((Call::TryRead, rest));
    }
    if let Some(rest) = after_word(text, b"try_write ") {
        return Some((Call::TryWrite, rest));
    }
    if let Some(rest) = after_word(text, b"try_get ") {
        return Some((Call::TryGet, rest));
    }
    None
}

/// The same of those that begin with an `f`.
fn fast_call(text: &[u8]) -> Option<(Call, &[u8])>
    ensures { Gives (λ found. (found.0, found.1.now)) result (first_word fast_calls text.now) }
{
    if let Some(rest) = after_word(text, b"fast_read ") {
        return Some((Call::FastRead, rest));
    }
    if let Some(rest) = after_word(text, b"fast_write ") {
        return Some((Call::FastWrite, rest));
    }
    if let Some(rest) = after_word(text, b"fast_try_read ") {
        return Some((Call::FastTryRead, rest));
    }
    if let Some(rest) = after_word(text, b"fast_try_write ") {
        return Some((Call::FastTryWrite, rest));
    }
    None
}

/// The same of those that begin with a `p`.
fn phase_call(text: &[u8]) -> Option<(Call, &[u8])>
    ensures { Gives (λ found. (found.0, found.1.now)) result (first_word phase_calls text.now) }
{
    if let Some(rest) = after_word(text, b"phase ") {
        return Some((Call::Phase, rest));
    }
    if let Some(rest) = after_word(text, b"primed_read ") {
        return Some((Call::PrimedRead, rest));
    }
    if let Some(rest) = after_word(text, b"primed_write ") {
        return Some((Call::PrimedWrite, rest));
    }
    if let Some(rest) = after_word(text, b"primed_read_non_initializing ") {
        return Some((Call::PrimedReadNonInitializing, rest));
    }
    if let Some(rest) = after_word(text, b"primed_write_non_initializing ") {
        return Some((Call::PrimedWriteNonInitializing, rest));
    }
    None
}

/// A call whose first letter no other call has, and its cell.
#[tactic(auto, unfolding(crate::specs::ReadSteps::called_at))]
fn called(text: &[u8]) -> Option<(Act, &[u8])>
    ensures { Gives (λ found. (found.0, found.1.now)) result (called_at plain_calls text.now) }
{
    let (call, rest) = plain_call(text)?;
    cell_of(call, rest)
}

/// A call that begins with a `p`, and its cell.
#[tactic(auto, unfolding(crate::specs::ReadSteps::called_at))]
fn phase_or_primed(text: &[u8]) -> Option<(Act, &[u8])>
    ensures { Gives (λ found. (found.0, found.1.now)) result (called_at phase_calls text.now) }
{
    let (call, rest) = phase_call(text)?;
    cell_of(call, rest)
}

/// A call, or else `release g`, which begins with the letter of a call.
#[tactic(auto, unfolding(crate::specs::ReadSteps::called_or_release_at))]
fn called_or_release(text: &[u8]) -> Option<(Act, &[u8])>
    ensures { Gives (λ found. (found.0, found.1.now)) result (called_or_release_at text.now) }
{
    match plain_call(text) {
        Some((call, rest)) => cell_of(call, rest),
        None => release(text),
    }
}

/// `release g`.
#[tactic(auto, unfolding(crate::specs::ReadSteps::release_at))]
fn release(text: &[u8]) -> Option<(Act, &[u8])>
    ensures { Gives (λ found. (found.0, found.1.now)) result (release_at text.now) }
{
    let (guard, rest) = last_u32(after_word(text, b"release ")?)?;
    Some((Act::Release { guard }, rest))
}

/// `downgrade g`.
#[tactic(auto, unfolding(crate::specs::ReadSteps::downgrade_at))]
fn downgrade(text: &[u8]) -> Option<(Act, &[u8])>
    ensures { Gives (λ found. (found.0, found.1.now)) result (downgrade_at text.now) }
{
    let (guard, rest) = last_u32(after_word(text, b"downgrade ")?)?;
    Some((Act::Downgrade { guard }, rest))
}

/// `clone g`.
#[tactic(auto, unfolding(crate::specs::ReadSteps::clone_at))]
fn clone(text: &[u8]) -> Option<(Act, &[u8])>
    ensures { Gives (λ found. (found.0, found.1.now)) result (clone_at text.now) }
{
    let (guard, rest) = last_u32(after_word(text, b"clone ")?)?;
    Some((Act::Clone { guard }, rest))
}

/// `again`.
#[tactic(auto, unfolding(crate::specs::ReadSteps::again_at))]
fn again(text: &[u8]) -> Option<(Act, &[u8])>
    ensures { Gives (λ found. (found.0, found.1.now)) result (again_at text.now) }
{
    Some((Act::Again, after_word(text, b"again\n")?))
}

/// `made v`, or else `made_failed`.
#[tactic(auto, unfolding(crate::specs::ReadSteps::made_at, crate::specs::ReadSteps::value_at, crate::specs::ReadSteps::made_failed_at))]
fn made(text: &[u8]) -> Option<(Act, &[u8])>
    ensures { Gives (λ found. (found.0, found.1.now)) result (made_at text.now) }
{
    match after_word(text, b"made ") {
        Some(rest) => {
            let (value, rest) = last_u64(rest)?;
            Some((Act::Made { value }, rest))
        }
        None => Some((Act::MadeFailed, after_word(text, b"made_failed\n")?)),
    }
}

/// What a finalizer left, up to the end of its line: a value, or nothing.
#[tactic(auto, unfolding(crate::specs::ReadSteps::left_at, crate::specs::ReadSteps::left_value_at, crate::specs::ReadSteps::left_none_at))]
fn left(text: &[u8]) -> Option<(Option<u64>, &[u8])>
    ensures { Gives (λ found. (found.0, found.1.now)) result (left_at text.now) }
{
    match after_word(text, b" ") {
        Some(rest) => {
            let (value, rest) = last_u64(rest)?;
            Some((Some(value), rest))
        }
        None => Some((None, after_word(text, b"\n")?)),
    }
}

/// `finished`, or else `finish_failed`, and what the finalizer left.
#[tactic(auto, unfolding(crate::specs::ReadSteps::finished_at, crate::specs::ReadSteps::fine_at, crate::specs::ReadSteps::finish_failed_at))]
fn finished(text: &[u8]) -> Option<(Act, &[u8])>
    ensures { Gives (λ found. (found.0, found.1.now)) result (finished_at text.now) }
{
    match after_word(text, b"finished") {
        Some(rest) => {
            let (left, rest) = left(rest)?;
            Some((Act::Finished { left }, rest))
        }
        None => {
            let (left, rest) = left(after_word(text, b"finish_failed")?)?;
            Some((Act::FinishFailed { left }, rest))
        }
    }
}

/// A call, or else the outcome of a finalizer, which begins with the letter of a call.
#[tactic(auto, unfolding(crate::specs::ReadSteps::called_or_finished_at))]
fn called_or_finished(text: &[u8]) -> Option<(Act, &[u8])>
    ensures { Gives (λ found. (found.0, found.1.now)) result (called_or_finished_at text.now) }
{
    match fast_call(text) {
        Some((call, rest)) => cell_of(call, rest),
        None => finished(text),
    }
}

/// The outcome of a generator that runs where a value is to be lent: `v`, or else `fail`.
#[tactic(auto, unfolding(crate::specs::ReadSteps::outcome_at))]
fn outcome(text: &[u8]) -> Option<(Option<u64>, &[u8])>
    ensures { Gives (λ found. (found.0, found.1.now)) result (outcome_at text.now) }
{
    match number_u64(text) {
        Some((value, rest)) => Some((Some(value), rest)),
        None => Some((None, after_word(text, b"fail")?)),
    }
}

/// `get_mut c v v'`, where `v` may be `fail`.
#[tactic(auto, unfolding(crate::specs::ReadSteps::get_mut_at))]
fn get_mut(text: &[u8]) -> Option<(Act, &[u8])>
    ensures { Gives (λ found. (found.0, found.1.now)) result (get_mut_at text.now) }
{
    let (cell, rest) = number_u32(after_word(text, b"get_mut ")?)?;
    let (made, rest) = outcome(after_word(rest, b" ")?)?;
    let (left, rest) = last_u64(after_word(rest, b" ")?)?;
    Some((Act::GetMut { cell, made, left }, rest))
}

/// `try_get_mut c v`.
#[tactic(auto, unfolding(crate::specs::ReadSteps::try_get_mut_at))]
fn try_get_mut(text: &[u8]) -> Option<(Act, &[u8])>
    ensures { Gives (λ found. (found.0, found.1.now)) result (try_get_mut_at text.now) }
{
    let (cell, rest) = number_u32(after_word(text, b"try_get_mut ")?)?;
    let (left, rest) = last_u64(after_word(rest, b" ")?)?;
    Some((Act::TryGetMut { cell, left }, rest))
}

/// A call, or else `get_mut`, which begins with the letter of a call.
#[tactic(auto, unfolding(crate::specs::ReadSteps::called_or_get_mut_at))]
fn called_or_get_mut(text: &[u8]) -> Option<(Act, &[u8])>
    ensures { Gives (λ found. (found.0, found.1.now)) result (called_or_get_mut_at text.now) }
{
    match plain_call(text) {
        Some((call, rest)) => cell_of(call, rest),
        None => get_mut(text),
    }
}

/// A call that begins with a `t`, or else `try_get_mut`.
#[tactic(auto, unfolding(crate::specs::ReadSteps::called_or_try_get_mut_at))]
fn tried_or_try_get_mut(text: &[u8]) -> Option<(Act, &[u8])>
    ensures { Gives (λ found. (found.0, found.1.now)) result (called_or_try_get_mut_at text.now) }
{
    match try_call(text) {
        Some((call, rest)) => cell_of(call, rest),
        None => try_get_mut(text),
    }
}

/// `exit`.
#[tactic(auto, unfolding(crate::specs::ReadSteps::exit_at))]
fn exit(text: &[u8]) -> Option<(Act, &[u8])>
    ensures { Gives (λ found. (found.0, found.1.now)) result (exit_at text.now) }
{
    Some((Act::Exit, after_word(text, b"exit\n")?))
}

/// `look g`.
#[tactic(auto, unfolding(crate::specs::ReadSteps::look_at))]
fn look(text: &[u8]) -> Option<(Act, &[u8])>
    ensures { Gives (λ found. (found.0, found.1.now)) result (look_at text.now) }
{
    let (guard, rest) = last_u32(after_word(text, b"look ")?)?;
    Some((Act::Look { guard }, rest))
}

/// `set g v`.
#[tactic(auto, unfolding(crate::specs::ReadSteps::set_at))]
fn set(text: &[u8]) -> Option<(Act, &[u8])>
    ensures { Gives (λ found. (found.0, found.1.now)) result (set_at text.now) }
{
    let (guard, rest) = number_u32(after_word(text, b"set ")?)?;
    let (value, rest) = last_u64(after_word(rest, b" ")?)?;
    Some((Act::Set { guard, value }, rest))
}

/// An act, up to the end of its line. Its first letter tells which acts it may be.
#[tactic(auto, unfolding(crate::specs::ReadSteps::act_at))]
pub(super) fn act(text: &[u8]) -> Option<(Act, &[u8])>
    ensures { Gives (λ found. (found.0, found.1.now)) result (act_at text.now) }
{
    let (first, _) = first_byte(text)?;
    match first {
        b'r' => called_or_release(text),
        b'a' => again(text),
        b'm' => made(text),
        b'l' => look(text),
        b's' => set(text),
        b'd' => downgrade(text),
        b'c' => clone(text),
        b'e' => exit(text),
        b'f' => called_or_finished(text),
        b'g' => called_or_get_mut(text),
        b't' => tried_or_try_get_mut(text),
        b'p' => phase_or_primed(text),
        _ => called(text),
    }
}
