//! The page on which a transcript is written.

ghost use Rattle.std.specs.Prelude.{◌≡◌, ◌≤◌, ◌<◌, ◌-◌, [], ◌∷◌, ◌++◌, length, take, not, IfOk};
ghost use Rattle.std.specs.Fmt.{decimal};
ghost use Rattle.schedule_text.specs.Pages.{GrowsBy, HasRoom, has_line_room};

use crate::print::numeral::{MOST_DIGITS, NUMERAL_BYTES, Numeral, ROW_BYTES};
use itoa::write_digits;
use std::alloc::{AllocError, Global};
use std::marker::Model;

/// How many bytes a page holds.
const PAGE_BYTES: usize = 65_536;

/// More bytes than any line of a transcript has.
const LINE_ROOM: usize = 256;

/// A block of bytes on which the lines of a transcript are put, one after another. Whoever writes the transcript hands the
/// bytes on and clears the page where it is full. All its memory is taken when it is made. This project's own.
///
/// A contract sees a page as the bytes on it.
#[derive(Drop)]
pub struct Page {
    /// All bytes of the block. Those past `len` mean nothing.
    block: Vec<u8>,
    /// How many are on the page.
    len: usize,
    /// The number of the step that was put last.
    numeral: Numeral,
}

impl Model for Page {
    ghost use Rattle.std.specs.Prelude.{ℕ, List, ◌≡◌, ◌≤◌, length, take};
    ghost use Rattle.schedule_text.specs.Pages.{page_bytes};

    ghost Value = { List ℕ };

    ghost view = { λ p. take p.len p.block.items };

    ghost invariant = { λ p. (length p.block.items ≡ page_bytes) × (p.len ≤ page_bytes) };
}

impl Page {
    /// A page with no bytes on it.
    pub fn new(alloc: Global) -> Result<Page, AllocError>
        ensures { IfOk result (λ page. page ≡ []) }
    {
        let block = vec![in alloc; 0u8; PAGE_BYTES]?;
        Ok(Page {
            block,
            len: 0,
            numeral: Numeral::of(0),
        })
    }

    /// The bytes on the page.
    pub fn as_bytes(&self) -> &[u8]
        ensures { result.now ≡ self.now }
    {
        &self.block[..self.len]
    }

    /// Whether a line might not fit any more.
    pub fn is_full(&self) -> bool
        ensures { result ≡ not (has_line_room self.now) }
    {
        self.len > PAGE_BYTES - LINE_ROOM
    }

    /// Takes all bytes off the page.
    pub fn clear(&mut self)
        ensures { self.new ≡ [] }
    {
        self.len = 0;
    }

    /// Puts these bytes.
    #[inline(always)]
    pub(crate) fn put(&mut self, text: &[u8])
        requires { HasRoom (length text.now) self.old }
        ensures { self.new ≡ self.old ++ text.now }
    {
        let end = self.len + text.len();
        self.block[self.len..end].copy_from_slice(text);
        self.len = end;
    }

    /// Puts a word. Its length is known where it is put, and nothing else lends it, so that a few moves write it.
    #[inline(always)]
    pub(crate) fn put_word<const N: usize>(&mut self, word: [u8; N])
        requires { HasRoom N self.old }
        ensures { self.new ≡ self.old ++ word.entry }
    {
        self.put(&word);
    }

    /// Puts so many bytes of the front of these, which are copied whole. A copy of a fixed size takes the least time.
    #[inline(always)]
    pub(crate) fn put_front(&mut self, text: &[u8], count: usize)
        requires count { count ≤ length text.now }
        requires room { HasRoom (length text.now) self.old }
        ensures { self.new ≡ self.old ++ take count text.now }
    {
        self.put(text);
        self.take_off(text.len() - count);
    }

    /// Takes so many of the last bytes off the page.
    #[inline(always)]
    pub(crate) fn take_off(&mut self, count: usize)
        requires { count ≤ length self.old }
        ensures { self.new ≡ take (length self.old - count) self.old }
    {
        self.len -= count;
    }

    /// Puts a number in decimal, and a byte that ends it.
    #[inline(always)]
    pub(crate) fn put_decimal(&mut self, number: u64, end: u8)
        requires { HasRoom 24 self.old }
        ensures text { self.new ≡ self.old ++ (decimal number ++ end ∷ []) }
        ensures room { GrowsBy 21 self.old self.new }
    {
        let mut row = [end; ROW_BYTES];
        let start = write_digits(number, &mut row, MOST_DIGITS);
        self.put_front(&row[start..start + NUMERAL_BYTES], MOST_DIGITS + 1 - start);
    }

    /// Puts the number of a step, and a space. It is kept, since the number of the next step is mostly made of it.
    #[inline(always)]
    pub(crate) fn put_counted(&mut self, number: u64)
        requires { HasRoom 24 self.old }
        ensures text { self.new ≡ self.old ++ (decimal number ++ 32 ∷ []) }
        ensures room { GrowsBy 21 self.old self.new }
    {
        self.numeral.turn_to(number);
        let (text, count) = self.numeral.text();
        self.put_front(&text, count);
    }
}
