//! Writes a text to a sink.

ghost use Rattle.std.specs.Prelude.{ℕ, ◌≤◌, take, OnOk, OnErr};
ghost use Rattle.std.specs.Io.KnownBytes.{Appends};
ghost use Rattle.phase_run.specs.Faults.{Rose};

use crate::failed::Failed;
use crate::sink::Sink;

/// Gives the text to the sink. Where the sink fails, it has taken a part of the text, from its front.
pub fn write_text<K: Sink>(out: &mut K, text: &[u8]) -> Result<(), Failed>
    ensures whole { OnOk result (Appends (K.given out.old) (K.given out.new) text.now) }
    ensures part { OnErr result ((k : ℕ) × Appends (K.given out.old) (K.given out.new) (take k text.now)) }
    ensures failed { OnErr result (Rose (K.faults out.old) (K.faults out.new)) }
    ensures steady { K.faults out.old ≤ K.faults out.new }
{
    let mut at = 0;
    while at < text.len() {
        at += out.give(&text[at..])?;
    }
    Ok(())
}
