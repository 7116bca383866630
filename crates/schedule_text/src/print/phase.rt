//! The text of a phase.

ghost use Rattle.std.specs.Prelude.{◌≡◌, ◌++◌};
ghost use Rattle.phase_bits.specs.Number.{number};
ghost use Rattle.phase_bits.specs.Text.{phase_text};
ghost use Rattle.schedule_text.specs.Pages.{GrowsBy, HasRoom};

use crate::print::page::Page;
use phase_bits::Phase;

impl Page {
    /// Puts the text of a phase. The phases that cells mostly have have it ready.
    pub(crate) fn put_phase(&mut self, phase: Phase)
        requires { HasRoom 168 self.old }
        ensures text { self.new ≡ self.old ++ phase_text (number phase) }
        ensures room { GrowsBy 168 self.old self.new }
    {
        match phase.bits() {
            0 => self.put_word(*b"Phase (not initialized)"),
            1 => self.put_word(*b"Phase (Initialized)"),
            6 => self.put_word(*b"Phase (Initialization panicked | Initialization skiped)"),
            9 => self.put_word(*b"Phase (Initialized | Registered)"),
            14 => {
                self.put_word(
                    *b"Phase (Initialization panicked | Initialization skiped | Registered)",
                )
            }
            36 => self.put_word(*b"Phase (Initialization skiped | Registration refused)"),
            73 => self.put_word(*b"Phase (Initialized | Registered | Finalized)"),
            _ => self.put_flags(phase),
        }
    }
}
