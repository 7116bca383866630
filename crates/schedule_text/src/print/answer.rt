//! The answers of steps.

ghost use Rattle.std.specs.Prelude.{◌≡◌, ◌≤◌, [], ◌∷◌, ◌++◌, codes};
ghost use Rattle.std.specs.Fmt.{decimal};
ghost use Rattle.phase_bits.specs.Number.{number};
ghost use Rattle.phase_bits.specs.Text.{phase_text};
ghost use Rattle.schedule_text.specs.Lines.{line_text};
ghost use Rattle.schedule_text.specs.Pages.{GrowsBy, HasRoom};
ghost use Rattle.schedule_text.specs.TranscriptText.{answer_words, way_name, refusal_words};

use crate::print::page::Page;
use phase_bits::Phase;
use schedule_rules::{Answer, How, Refusal};

impl Page {
    /// Puts an answer behind the number of its step, and ends the line.
    pub(crate) fn put_answer(&mut self, answer: Answer)
        requires { HasRoom 176 self.old }
        ensures text { self.new ≡ self.old ++ line_text (answer_words answer) }
        ensures room { GrowsBy 176 self.old self.new }
    {
        match answer {
            Answer::Phase(phase) => self.put_phase_answer(phase),
            Answer::Value(value) => self.put_numbered(*b"value ", value),
            Answer::ReadGuard => self.put_word(*b"read-guard\n"),
            Answer::ErrGuard => self.put_word(*b"err-guard\n"),
            Answer::WriteGuard => self.put_word(*b"write-guard\n"),
            Answer::Running => self.put_word(*b"running\n"),
            Answer::Finalizing(cell) => self.put_numbered(*b"finalizing ", u64::from(cell)),
            Answer::Skipped(cell) => self.put_numbered(*b"skipped ", u64::from(cell)),
            Answer::Round(cells) => self.put_numbered(*b"round ", u64::from(cells)),
            Answer::Closed => self.put_word(*b"closed\n"),
            Answer::Done => self.put_word(*b"done\n"),
            Answer::Access(phase) => self.put_access(phase),
            Answer::Failed => self.put_word(*b"failed\n"),
            Answer::Cyclic => self.put_word(*b"cyclic\n"),
            Answer::Borrowed => self.put_word(*b"borrowed\n"),
            Answer::Missed => self.put_word(*b"none\n"),
            Answer::Waiting(way) => self.put_waiting(way),
            Answer::Refused(reason) => self.put_refusal(reason),
        }
    }

    /// Puts the answer of a phase, and ends the line.
    fn put_phase_answer(&mut self, phase: Phase)
        requires { HasRoom 175 self.old }
        ensures text { self.new ≡ self.old ++ line_text (codes "phase" ∷ phase_text (number phase) ∷ []) }
        ensures room { GrowsBy 175 self.old self.new }
    {
        self.put_word(*b"phase ");
        self.put_phase(phase);
        self.put_word(*b"\n");
    }

    /// Puts that a value may not be accessed at a phase, and ends the line.
    fn put_access(&mut self, phase: Phase)
        requires { HasRoom 176 self.old }
        ensures text { self.new ≡ self.old ++ line_text (codes "access" ∷ phase_text (number phase) ∷ []) }
        ensures room { GrowsBy 176 self.old self.new }
    {
        self.put_word(*b"access ");
        self.put_phase(phase);
        self.put_word(*b"\n");
    }

    /// Puts a word with the space behind it, and a number, and ends the line.
    fn put_numbered<const N: usize>(&mut self, word: [u8; N], number: u64)
        requires short { N ≤ 14 }
        requires room { HasRoom 38 self.old }
        ensures text { self.new ≡ self.old ++ (word.entry ++ (decimal number ++ 10 ∷ [])) }
        ensures room { GrowsBy 35 self.old self.new }
    {
        self.put_word(word);
        self.put_decimal(number, b'\n');
    }

    /// Puts that a call waits, and how, and ends the line.
    fn put_waiting(&mut self, way: How)
        requires { HasRoom 14 self.old }
        ensures text { self.new ≡ self.old ++ line_text (codes "waiting" ∷ way_name way ∷ []) }
        ensures room { GrowsBy 14 self.old self.new }
    {
        match way {
            How::Spin => self.put_word(*b"waiting spin\n"),
            How::ParkedRead => self.put_word(*b"waiting read\n"),
            How::ParkedWrite => self.put_word(*b"waiting write\n"),
            How::Drain => self.put_word(*b"waiting drain\n"),
        }
    }

    /// Puts a refusal with its number and its name, and ends the line.
    fn put_refusal(&mut self, reason: Refusal)
        requires { HasRoom 21 self.old }
        ensures text { self.new ≡ self.old ++ line_text (codes "refused" ∷ refusal_words reason) }
        ensures room { GrowsBy 21 self.old self.new }
    {
        match reason {
            Refusal::Waits => self.put_word(*b"refused 1 Waits\n"),
            Refusal::NotWaiting => self.put_word(*b"refused 2 NotWaiting\n"),
            Refusal::NotOwner => self.put_word(*b"refused 3 NotOwner\n"),
            Refusal::NoSuchCall => self.put_word(*b"refused 4 NoSuchCall\n"),
            Refusal::NoGuard => self.put_word(*b"refused 5 NoGuard\n"),
            Refusal::NotWriter => self.put_word(*b"refused 6 NotWriter\n"),
            Refusal::NoSection => self.put_word(*b"refused 7 NoSection\n"),
            Refusal::NoOutcome => self.put_word(*b"refused 8 NoOutcome\n"),
            Refusal::InUse => self.put_word(*b"refused 9 InUse\n"),
            Refusal::ExitBegun => self.put_word(*b"refused 10 ExitBegun\n"),
            Refusal::Inside => self.put_word(*b"refused 11 Inside\n"),
        }
    }
}
