//! The lines of steps.

ghost use Rattle.std.specs.Prelude.{◌≡◌, ◌++◌, true};
ghost use Rattle.schedule_text.specs.Lines.{line_text};
ghost use Rattle.schedule_text.specs.Pages.{HasRoom, has_line_room};
ghost use Rattle.schedule_text.specs.TranscriptText.{answer_words, given_words, step_words};

use crate::print::page::Page;
use schedule_rules::{Given, Line};

impl Page {
    /// Puts the line of the step with this number.
    pub fn put_step(&mut self, number: u64, line: &Line)
        requires { has_line_room self.old ≡ true }
        ensures { self.new ≡ self.old ++ line_text (step_words number line.now) }
    {
        self.put_counted(number);
        self.put_line(line);
    }

    /// Puts an answer and what was given, behind the number of the step, and ends the line.
    ///
    /// Few steps give something. So an answer ends its line, and a gift takes the line feed off again.
    fn put_line(&mut self, line: &Line)
        requires { HasRoom 220 self.old }
        ensures { self.new ≡ self.old ++ line_text (answer_words line.now.answer ++ given_words line.now.given) }
    {
        self.put_answer(line.answer);
        match line.given {
            Given::Nobody => {}
            Given::Readers => {
                self.take_off(1);
                self.put_word(*b" gives readers\n");
            }
            Given::Writer(party) => {
                self.take_off(1);
                self.put_word(*b" gives writer ");
                self.put_decimal(u64::from(party), b'\n');
            }
        }
    }
}
