//! Where bytes come from.

ghost use Rattle.std.specs.Prelude.{ℕ, List, ◌<◌, ◌≤◌, length, OnErr};
ghost use Rattle.std.specs.declared.option.Option.{Option};
ghost use Rattle.std.specs.Io.{ReadsAtMost};
ghost use Rattle.std.specs.Io.KnownBytes.{ReadConsumes};
ghost use Rattle.phase_run.specs.Faults.{Rose};

use crate::failed::Failed;

/// Gives bytes, in pieces of its own choice.
pub trait Source {
    /// The bytes left, where they are known.
    ghost remaining: { Self → Option (List ℕ) };

    /// How many faults there were.
    ghost faults: { Self → ℕ };

    /// Puts the next bytes at the front of the buffer, and answers how many they are: 0 at the end of the input alone. It
    /// fails only where a fault came, and gives nothing then.
    fn take(&mut self, buf: &mut [u8]) -> Result<usize, Failed>
        requires { 0 < length buf.old }
        ensures bound { ReadsAtMost result buf.new }
        ensures bytes { ReadConsumes (remaining self.old) (remaining self.new) result buf.new }
        ensures steady { faults self.old ≤ faults self.new }
        ensures failed { OnErr result (Rose (faults self.old) (faults self.new)) };
}
