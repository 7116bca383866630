//! Words and numbers at the front of a text.

ghost use Rattle.std.specs.Prelude.{◌≡◌, ◌+◌, ◌-◌, ◌*◌, ◌≤◌, ◌<◌, ◌^◌, [], ◌∷◌, MatchOption};
ghost use Rattle.std.specs.Option.{SomeIff};
ghost use Rattle.schedule_text.specs.ReadFields.{Gives, bytes_after, digits_from, number_at, name_at};
ghost use Rattle.schedule_text.specs.ReadSteps.{last_number_at, last_name_at};

/// The bytes after a word that stands at the front.
#[inline(always)]
pub(super) fn after_word<'a>(text: &'a [u8], word: &[u8]) -> Option<&'a [u8]>
    ensures { Gives (λ rest. rest.now) result (bytes_after word.now text.now) }
{
    text.strip_prefix(word)
}

/// The byte at the front, and those after it.
pub(super) fn first_byte(text: &[u8]) -> Option<(u8, &[u8])>
    ensures { MatchOption result (text.now ≡ []) (λ found. text.now ≡ found.0 ∷ found.1.now) }
{
    let (first, rest) = text.split_first()?;
    Some((*first, rest))
}

/// The number with one digit more, if it is below 2^64.
fn with_digit(number: u64, digit: u8) -> Option<u64>
    requires low { 48 ≤ digit }
    requires high { digit ≤ 57 }
    ensures { SomeIff result (number * 10 + (digit - 48) < 2 ^ 64) (number * 10 + (digit - 48)) }
{
    number.checked_mul(10)?.checked_add(u64::from(digit - b'0'))
}

/// Goes on with the digits at the front, after those of `number`.
fn digits(mut number: u64, text: &[u8]) -> Option<(u64, &[u8])>
    ensures { Gives (λ found. (found.0, found.1.now)) result (digits_from number text.now) }
{
    let mut rest = text;
    while let Some((digit, after)) = first_byte(rest) {
        if !digit.is_ascii_digit() {
            break;
        }
        number = with_digit(number, digit)?;
        rest = after;
    }
    Some((number, rest))
}

/// A number below 2^64 at the front, with no zero before it.
#[tactic(auto, unfolding(crate::specs::ReadFields::number_at))]
pub(super) fn number_u64(text: &[u8]) -> Option<(u64, &[u8])>
    ensures { Gives (λ found. (found.0, found.1.now)) result (number_at text.now) }
{
    let (first, rest) = first_byte(text)?;
    match first {
        b'0' => Some((0, rest)),
        b'1'..=b'9' => digits(u64::from(first - b'0'), rest),
        _ => None,
    }
}

/// A number below 2^32 at the front, with no zero before it.
#[tactic(auto, unfolding(crate::specs::ReadFields::name_at))]
pub(super) fn number_u32(text: &[u8]) -> Option<(u32, &[u8])>
    ensures { Gives (λ found. (found.0, found.1.now)) result (name_at text.now) }
{
    let (number, rest) = number_u64(text)?;
    if number > u64::from(u32::MAX) {
        return None;
    }
    Some((number as u32, rest))
}

/// A number below 2^64 that ends a line.
#[tactic(auto, unfolding(crate::specs::ReadSteps::last_number_at))]
pub(super) fn last_u64(text: &[u8]) -> Option<(u64, &[u8])>
    ensures { Gives (λ found. (found.0, found.1.now)) result (last_number_at text.now) }
{
    let (number, rest) = number_u64(text)?;
    Some((number, after_word(rest, b"\n")?))
}

/// A number below 2^32 that ends a line.
#[tactic(auto, unfolding(crate::specs::ReadSteps::last_name_at))]
pub(super) fn last_u32(text: &[u8]) -> Option<(u32, &[u8])>
    ensures { Gives (λ found. (found.0, found.1.now)) result (last_name_at text.now) }
{
    let (number, rest) = number_u32(text)?;
    Some((number, after_word(rest, b"\n")?))
}
