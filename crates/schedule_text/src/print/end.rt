//! The lines about a whole transcript: the first and the last, what cells are left with, the turns of the exit.

ghost use Rattle.std.specs.Prelude.{◌≡◌, ◌≢◌, [], ◌∷◌, ◌++◌, true, codes};
ghost use Rattle.std.specs.Fmt.{decimal};
ghost use Rattle.exit_registry.specs.declared.turns.Turn.TheVariants as turn;
ghost use Rattle.phase_bits.specs.Number.{number};
ghost use Rattle.phase_bits.specs.Text.{phase_text};
ghost use Rattle.schedule_text.specs.Lines.{line_text};
ghost use Rattle.schedule_text.specs.Pages.{HasRoom, has_line_room};
ghost use Rattle.schedule_text.specs.TranscriptText.{exit_words, final_words, title_words, end_words, value_word};

use crate::print::page::Page;
use schedule_rules::{Final, Turn, Turned};

impl Page {
    /// Puts the first line.
    pub fn put_title(&mut self)
        requires { has_line_room self.old ≡ true }
        ensures { self.new ≡ self.old ++ line_text title_words }
    {
        self.put_word(*b"transcript 1\n");
    }

    /// Puts the last line.
    pub fn put_end(&mut self)
        requires { has_line_room self.old ≡ true }
        ensures { self.new ≡ self.old ++ line_text end_words }
    {
        self.put_word(*b"end\n");
    }

    /// Puts the line of the cell with this number, by what it is left with.
    pub fn put_final(&mut self, cell: u64, left: &Final)
        requires { has_line_room self.old ≡ true }
        ensures { self.new ≡ self.old ++ line_text (final_words cell left.now) }
    {
        self.put_word(*b"cell ");
        self.put_decimal(cell, b' ');
        self.put_phase(left.phase);
        self.put_value(left.value);
    }

    /// Puts the value that a cell is left with, behind its phase, and ends the line.
    fn put_value(&mut self, value: Option<u64>)
        requires { HasRoom 25 self.old }
        ensures { self.new ≡ self.old ++ 32 ∷ line_text (value_word value ∷ []) }
    {
        match value {
            None => self.put_word(*b" none\n"),
            Some(value) => {
                self.put_word(*b" ");
                self.put_decimal(value, b'\n');
            }
        }
    }

    /// Puts the line of a turn of the exit that ended.
    pub fn put_exit(&mut self, turned: &Turned)
        requires room { has_line_room self.old ≡ true }
        requires ended { turned.now.turn ≢ turn.Busy }
        ensures { self.new ≡ self.old ++ line_text (exit_words turned.now) }
    {
        self.put_word(*b"exit ");
        self.put_decimal(u64::from(turned.cell), b' ');
        match turned.turn {
            Turn::Done => self.put_word(*b"done\n"),
            Turn::Skipped => self.put_word(*b"skipped\n"),
            Turn::Failed => self.put_word(*b"failed\n"),
            Turn::Busy => {}
        }
    }
}
