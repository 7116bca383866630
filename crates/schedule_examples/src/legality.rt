//! What the worked schedules stand for.

ghost use Rattle.std.specs.Prelude.{ℕ, List};
ghost use Rattle.schedule_rules.specs.declared.plan.CellPlan.{CellPlan};
ghost use Rattle.schedule_rules.specs.declared.transcript.Final.{Final};
ghost use Rattle.exit_registry.specs.declared.turns.Turned.{Turned};
ghost use Rattle.schedule_rules.specs.Transcripts.{IsLegalTranscript};
ghost use Rattle.schedule_examples.specs.Examples.{Row, steps_of, lines_of, GoesWith};

/// What may go so is a legal transcript: of any number of parties, these cells and the steps of the rows, with the lines
/// of the rows, these finals and these turns of the exit.
pub fn what_goes_is_legal()
    ensures { (parties : ℕ) (cells : List CellPlan) (rows : List Row) (left : List Final) (turns : List Turned) → GoesWith cells rows left turns →
        IsLegalTranscript (record { parties = parties; cells = cells; steps = steps_of rows })
        (record { lines = lines_of rows; finals = left; exits = turns }) }
{}
