//! Numbers in decimal, in rows from which they are copied whole.

ghost use Rattle.std.specs.Prelude.{◌≡◌, ◌≤◌, ◌+◌, ◌<◌, [], ◌∷◌, ◌++◌, take, IsTrue, ◌↔◌};
ghost use Rattle.std.specs.Fmt.{decimal};

use itoa::write_digits;
use std::marker::Model;

/// The most digits that a number has.
pub(crate) const MOST_DIGITS: usize = 20;

/// So many bytes are copied of a row, where a number has at most `MOST_DIGITS` and the byte that ends it: eight at a time.
pub(crate) const NUMERAL_BYTES: usize = 24;

/// The digits of a number end at `MOST_DIGITS` of a row. So from their first one on, the row has `NUMERAL_BYTES` bytes.
pub(crate) const ROW_BYTES: usize = MOST_DIGITS + NUMERAL_BYTES;

/// A number and its row of digits, with spaces behind them. The number that follows mostly differs in the last digit alone.
///
/// A contract sees it as the number.
#[derive(Drop)]
pub(crate) struct Numeral {
    number: u64,
    row: [u8; ROW_BYTES],
    /// Where the digits begin.
    start: usize,
}

impl Model for Numeral {
    ghost use Rattle.std.specs.Prelude.{ℕ};
    ghost use Rattle.schedule_text.specs.Numerals.{IsRow};

    ghost Value = { ℕ };

    ghost view = { λ n. n.number };

    ghost invariant = { λ n. IsRow 32 n.start n.row n.number };
}

impl Numeral {
    /// This number.
    pub(crate) fn of(number: u64) -> Numeral
        ensures { result ≡ number }
    {
        let mut row = [b' '; ROW_BYTES];
        let start = write_digits(number, &mut row, MOST_DIGITS);
        Numeral { number, row, start }
    }

    /// Goes on to this number.
    #[inline(always)]
    pub(crate) fn turn_to(&mut self, number: u64)
        ensures { self.new ≡ number }
    {
        let last = self.row[MOST_DIGITS - 1];
        if last < b'9' {
            if self.is_before(number) {
                self.row[MOST_DIGITS - 1] = last + 1;
                self.number = number;
                return;
            }
        }
        self.write(number);
    }

    /// Writes all digits of this number.
    fn write(&mut self, number: u64)
        ensures { self.new ≡ number }
    {
        let start = write_digits(number, &mut self.row, MOST_DIGITS);
        self.start = start;
        self.number = number;
    }

    /// Whether the number is the one that follows.
    fn is_before(&self, number: u64) -> bool
        ensures { IsTrue result ↔ (number ≡ self.now + 1) }
    {
        match number.checked_sub(1) {
            Some(before) => before == self.number,
            None => false,
        }
    }

    /// The digits and a space, at the front of these bytes, and how many these are.
    #[inline(always)]
    pub(crate) fn text(&self) -> ([u8; NUMERAL_BYTES], usize)
        ensures count { result.1 ≤ 21 }
        ensures text { take result.1 result.0 ≡ decimal self.now ++ 32 ∷ [] }
    {
        let mut text = [b' '; NUMERAL_BYTES];
        text.copy_from_slice(&self.row[self.start..self.start + NUMERAL_BYTES]);
        (text, MOST_DIGITS + 1 - self.start)
    }
}
