//! The flags of a phase that cells rarely have.

ghost use Rattle.std.specs.Prelude.{ℕ, ◌≡◌, ◌<◌, ◌+◌, ◌++◌, length, string_bytes};
ghost use Rattle.phase_bits.specs.Number.{number};
ghost use Rattle.phase_bits.specs.Text.{flag_text, lower_text, upper_text, phase_text};
ghost use Rattle.schedule_text.specs.Pages.{GrowsBy, HasRoom};

use crate::print::page::Page;
use phase_bits::Phase;

impl Page {
    /// Puts the text of a phase, flag by flag.
    #[tactic(auto, unfolding(phase_bits::specs::Text::phase_text))]
    pub(crate) fn put_flags(&mut self, phase: Phase)
        requires { HasRoom 168 self.old }
        ensures text { self.new ≡ self.old ++ phase_text (number phase) }
        ensures room { GrowsBy 168 self.old self.new }
    {
        let bits = phase.bits();
        if bits & 0xff == 0 {
            self.put_word(*b"Phase (not initialized)");
        } else {
            self.put_word(*b"Phase (");
            self.put_lower(bits);
            self.put_upper(bits);
            self.put_word(*b")");
        }
    }

    /// Puts the names of the lower four flags that are set.
    #[tactic(auto, unfolding(phase_bits::specs::Text::lower_text))]
    fn put_lower(&mut self, bits: u32)
        requires { HasRoom 77 self.old }
        ensures text { self.new ≡ self.old ++ lower_text bits }
        ensures room { GrowsBy 77 self.old self.new }
    {
        self.put_flag(bits, 1, b"Initialized");
        self.put_flag(bits, 2, b"Initialization panicked");
        self.put_flag(bits, 4, b"Initialization skiped");
        self.put_flag(bits, 8, b"Registered");
    }

    /// Puts the names of the upper four flags that are set.
    #[tactic(auto, unfolding(phase_bits::specs::Text::upper_text))]
    fn put_upper(&mut self, bits: u32)
        requires { HasRoom 83 self.old }
        ensures text { self.new ≡ self.old ++ upper_text bits }
        ensures room { GrowsBy 83 self.old self.new }
    {
        self.put_flag(bits, 16, b"Registration panicked");
        self.put_flag(bits, 32, b"Registration refused");
        self.put_flag(bits, 64, b"Finalized");
        self.put_flag(bits, 128, b"Finalization panicked");
    }

    /// Puts the name of a flag where it is set, behind a separator where a lower flag is set too.
    #[tactic(auto, unfolding(phase_bits::specs::Text::flag_text))]
    fn put_flag(&mut self, bits: u32, flag: u32, name: &[u8])
        requires flag { 0 < flag }
        requires room { HasRoom (length name.now + 3) self.old }
        ensures text { self.new ≡ self.old ++ flag_text bits flag name.now }
        ensures room { GrowsBy (length name.now + 3) self.old self.new }
    {
        if bits & flag == 0 {
            return;
        }
        if bits & (flag - 1) != 0 {
            self.put_word(*b" | ");
        }
        self.put(name);
    }
}
