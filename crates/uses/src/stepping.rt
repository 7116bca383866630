//! A harness that drives an engine step by step, over lockers of its own, and looks at who waits.

ghost use Rattle.std.specs.Prelude.{◌≡◌, ◌<◌, ◌^◌, ◌∷◌, ◌++◌, [], IfOk, length};
ghost use Rattle.schedule_rules.specs.Legal.{IsLegal};
ghost use Rattle.schedule_rules.specs.Transcripts.{NamesKnown};
ghost use Rattle.schedule_rules.specs.Waits.{wait_of, waits};
ghost use Rattle.phase_schedule.specs.Progress.{TakesPlaces};
ghost use Rattle.phase_schedule.specs.Shown.{wait_row};
ghost use Rattle.phase_schedule.specs.Standing.{history};

use phase_schedule::{Act, Call, Engine, PhaseLocker, Plan, RunError, Step, Transcript, Waiting};
use std::alloc::Global;

/// A step of this party.
fn by(party: u32, act: Act) -> Step
    ensures { result ≡ record { party = party; act = act } }
{
    Step { party, act }
}

/// Makes a step, and looks how its party waits. Whatever lockers the engine is made over, the lines stay legal, and
/// its rows show the wait that the lines tell.
pub fn step_and_look<L: PhaseLocker>(engine: &mut Engine<L>, step: &Step) -> Waiting
    requires known { NamesKnown engine.old.parties (length engine.old.cells) step.now }
    requires room { length engine.old.steps < engine.old.count }
    ensures steps { engine.new.steps ≡ engine.old.steps ++ step.now ∷ [] }
    ensures legal { IsLegal engine.new.cells (history engine.new) }
    ensures waits { result ≡
        (wait_row (wait_of step.now.party (waits engine.new.cells (history engine.new)))).waiting }
    ensures parties { engine.new.parties ≡ engine.old.parties }
    ensures cells { engine.new.cells ≡ engine.old.cells }
    ensures count { engine.new.count ≡ engine.old.count }
{
    engine.step(step);
    engine.parks().waiting(step.party)
}

/// Party 0 makes the value of cell 0 and holds it to write, and party 1 asks to read it. Tells how party 1 waits.
pub fn watch_a_reader<L: PhaseLocker>(
    alloc: Global,
    plan: &Plan,
) -> Result<(Waiting, Transcript), RunError>
    requires parties { 1 < plan.now.parties }
    requires cells { 0 < length plan.now.cells.items }
    requires few { length plan.now.cells.items < 2 ^ 32 }
    requires places { TakesPlaces L.takes plan.now.cells.items }
    ensures lines { IfOk result (λ r. length r.1.lines.items ≡ 3) }
{
    let [write, read] = [Call::Write, Call::Read].map(|call| Act::Call { cell: 0, call });
    let mut engine = Engine::<L>::new(alloc, plan, 3)?;
    step_and_look(&mut engine, &by(0, write));
    step_and_look(&mut engine, &by(0, Act::Made { value: 22 }));
    let waiting = step_and_look(&mut engine, &by(1, read));
    Ok((waiting, engine.finish()))
}
