//! Where bytes go.

ghost use Rattle.std.specs.Prelude.{ℕ, List, ◌<◌, ◌≤◌, length, IfOk, OnErr};
ghost use Rattle.std.specs.declared.option.Option.{Option};
ghost use Rattle.std.specs.Io.{WritesAtMost};
ghost use Rattle.std.specs.Io.KnownBytes.{WriteAppends};
ghost use Rattle.phase_run.specs.Faults.{Rose};

use crate::failed::Failed;

/// Takes bytes, in pieces of its own choice.
pub trait Sink {
    /// The bytes given to it, where they are known.
    ghost given: { Self → Option (List ℕ) };

    /// How many faults there were.
    ghost faults: { Self → ℕ };

    /// Takes bytes from the front of the piece, and answers how many, at least one. It fails only where a fault came, and
    /// takes nothing then.
    fn give(&mut self, piece: &[u8]) -> Result<usize, Failed>
        requires { 0 < length piece.now }
        ensures some { IfOk result (λ n. 0 < n) }
        ensures bound { WritesAtMost result piece.now }
        ensures bytes { WriteAppends (given self.old) (given self.new) result piece.now }
        ensures steady { faults self.old ≤ faults self.new }
        ensures failed { OnErr result (Rose (faults self.old) (faults self.new)) };
}
