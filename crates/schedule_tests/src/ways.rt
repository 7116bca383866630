//! Steps, plans and runs of tests, and what a run is expected to tell.

ghost use Rattle.std.specs.Prelude.{◌≡◌, ◌<◌, ◌^◌, length, IfOk};
ghost use Rattle.schedule_rules.specs.Transcripts.{schedule_of, IsValid};
ghost use Rattle.phase_schedule.specs.Running.{IsRun};

use exit_registry::Turned;
use phase_bits::Phase;
use phase_locker::{HolderLocker, Parks, PhaseLocker, Waiting};
use phase_schedule::{Engine, Run, RunError, run_schedule};
use schedule_rules::{
    Act, Answer, Call, CellPlan, Final, Given, Kind, Line, Place, Plan, Step, Transcript,
};
use std::alloc::{AllocError, Global};
use std::process::Abort;
use std::test::Fail;
use step_list::StepList;

/// A step and the line that it is to have.
pub type Row = (Step, Line);

/// A step whose line gives nothing.
pub fn row(step: Step, answer: Answer) -> Row {
    let given = Given::Nobody;
    (step, Line { answer, given })
}

/// A step that is done, and gives this.
pub fn gives(step: Step, given: Given) -> Row {
    let answer = Answer::Done;
    (step, Line { answer, given })
}

pub fn call(party: u32, cell: u32, call: Call) -> Step {
    Step {
        party,
        act: Act::Call { cell, call },
    }
}

pub fn made(party: u32, value: u64) -> Step {
    Step {
        party,
        act: Act::Made { value },
    }
}

pub fn release(party: u32, guard: u32) -> Step {
    Step {
        party,
        act: Act::Release { guard },
    }
}

pub fn again(party: u32) -> Step {
    let act = Act::Again;
    Step { party, act }
}

pub fn get_mut(party: u32, cell: u32, made: Option<u64>, left: u64) -> Step {
    Step {
        party,
        act: Act::GetMut { cell, made, left },
    }
}

pub fn exit(party: u32) -> Step {
    let act = Act::Exit;
    Step { party, act }
}

/// A cell that is left with this phase and this value.
pub fn left(phase: Phase, value: u64) -> Final {
    Final {
        phase,
        value: Some(value),
    }
}

/// A plan of cells whose calls wait so, and whose generators are run again after they failed.
pub fn plan(alloc: Global, parties: u32, cells: usize, place: Place) -> Result<Plan, AllocError>
    ensures cells { IfOk result (λ p. length p.cells.items ≡ cells) }
    ensures parties { IfOk result (λ p. p.parties ≡ parties) }
{
    let cell = CellPlan {
        kind: Kind::LockedLazy,
        retry: true,
        leak: false,
        place,
        prime: 0,
    };
    plan_of(alloc, parties, cells, cell)
}

/// A plan of such cells.
pub fn plan_of(
    alloc: Global,
    parties: u32,
    cells: usize,
    cell: CellPlan,
) -> Result<Plan, AllocError>
    ensures cells { IfOk result (λ p. length p.cells.items ≡ cells) }
    ensures parties { IfOk result (λ p. p.parties ≡ parties) }
{
    Ok(Plan {
        parties,
        cells: vec![in alloc; cell; cells]?,
    })
}

/// The steps of a table.
fn steps_of(alloc: Global, rows: &[Row]) -> Result<Vec<Step>, AllocError>
    ensures { IfOk result (λ steps. length steps.items ≡ length rows.now) }
{
    let mut steps = Vec::new(alloc);
    for (step, _) in rows {
        steps.push(*step)?;
    }
    Ok(steps)
}

/// Runs a schedule step by step.
fn run_steps(alloc: Global, plan: &Plan, steps: &[Step]) -> Result<Transcript, RunError>
    requires { IsValid (schedule_of plan.now steps.now) }
{
    let mut engine = Engine::<HolderLocker>::new(alloc, plan, steps.len() as u32)?;
    for s in steps {
        let _line = engine.step(s);
    }
    Ok(engine.finish())
}

/// Expects the lines of a table, what each cell is left with, and the turns of the exit, of a whole run and step by step.
pub fn expect_rows(
    rt: &impl Abort,
    alloc: Global,
    plan: &Plan,
    rows: &[Row],
    finals: &[Final],
    exits: &[Turned],
) -> Result<(), Fail> {
    let steps = steps_of(alloc, rows)?;
    assert!(rt; plan.cells.len() < 10 && steps.len() < 100);
    let whole = run_schedule(alloc, plan, &steps)?;
    let single = run_steps(alloc, plan, &steps)?;
    assert!(rt; whole.lines.len() == rows.len());
    assert!(rt; single.lines.len() == rows.len());
    for (i, (_, line)) in rows.iter().enumerate() {
        assert!(rt; whole.lines[i] == *line, "at {i}");
        assert!(rt; single.lines[i] == *line, "at {i}");
    }
    assert!(rt; &whole.finals[..] == finals && &single.finals[..] == finals);
    assert!(rt; &whole.exits[..] == exits && &single.exits[..] == exits);
    expect_lines(rt, alloc, plan, rows, finals, exits)
}

/// Whether the next lines are those of a table.
fn tells(run: &mut Run, rows: &[Row]) -> bool
    requires { IsRun run.old }
    ensures { IsRun run.new }
{
    let mut is_told = true;
    for (_, line) in rows {
        is_told &= matches!(run.next_line(), Some(made) if made == *line);
    }
    is_told
}

/// Expects the same of a run that hands out its lines.
fn expect_lines(
    rt: &impl Abort,
    alloc: Global,
    plan: &Plan,
    rows: &[Row],
    finals: &[Final],
    exits: &[Turned],
) -> Result<(), Fail>
    requires cells { length plan.now.cells.items < 2 ^ 32 }
    requires rows { length rows.now < 2 ^ 32 }
{
    let steps = StepList::from_slice(alloc, &steps_of(alloc, rows)?)?;
    let mut run = Run::new(alloc, plan, steps)?;
    let is_told = tells(&mut run, rows);
    let is_done = run.next_line().is_none();
    let ending = run.finish();
    assert!(rt; is_told && is_done);
    assert!(rt; &ending.finals[..] == finals && &ending.exits[..] == exits);
    Ok(())
}

/// How a party waits, and at which cell; cell 0 where it does not wait.
fn wait_in(parks: &Parks, party: u32) -> (Waiting, u32)
    requires { party < length parks.now.rows }
{
    let waiting = parks.waiting(party);
    if waiting == Waiting::Free {
        (waiting, 0)
    } else {
        (waiting, parks.cell_of(party))
    }
}

/// The phase that the locker of cell 0 has after these steps, and how a party waits then.
fn seen_after(
    alloc: Global,
    plan: &Plan,
    steps: &[Step],
    party: u32,
) -> Result<(Phase, (Waiting, u32)), RunError>
    requires valid { IsValid (schedule_of plan.now steps.now) }
    requires party { party < plan.now.parties }
    requires cell { 0 < length plan.now.cells.items }
{
    let mut engine = Engine::<HolderLocker>::new(alloc, plan, steps.len() as u32)?;
    for s in steps {
        let _line = engine.step(s);
    }
    let phase = engine.locker(0).phase();
    let wait = wait_in(engine.parks(), party);
    let _transcript = engine.finish();
    Ok((phase, wait))
}

/// Expects this phase after the first steps of a table, so many, and how each party waits then, at cell 0.
pub fn expect_waits(
    rt: &impl Abort,
    alloc: Global,
    plan: &Plan,
    rows: &[Row],
    phase: Phase,
    waits: &[Waiting],
) -> Result<(), Fail> {
    let steps = steps_of(alloc, rows)?;
    assert!(rt; plan.cells.len() == 1 && steps.len() < 100);
    let _whole = run_schedule(alloc, plan, &steps)?;
    for party in 0..plan.parties {
        assert!(rt; (party as usize) < waits.len());
        let seen = seen_after(alloc, plan, &steps, party)?;
        assert!(rt;
            seen == (phase, (waits[party as usize], 0)),
            "party {party}"
        );
    }
    Ok(())
}
