//! Tells a transcript as it is made: its lines are put on a page, which is written to the sink when it is full.
//!
//! Where the sink fails, the lines that follow are let go: `told` keeps that it failed, and nothing more is written.

ghost use Rattle.std.specs.Prelude.{◌≡◌, ◌≢◌, [], true, Ok};
ghost use Rattle.schedule_rules.specs.Exits.{NoneBusy};
ghost use Rattle.exit_registry.specs.declared.turns.Turn.TheVariants as turn;
ghost use Rattle.schedule_text.specs.Lines.{line_text, lines_text};
ghost use Rattle.schedule_text.specs.Pages.{has_line_room};
ghost use Rattle.schedule_text.specs.TranscriptText.{step_words, final_words, final_lines, exit_words, exit_lines, end_words};
ghost use Rattle.phase_run.specs.Telling.{IsNew, Tells, TellsRun, TellsSteps, teller};

use crate::failed::Failed;
use crate::sink::Sink;
use crate::write::write_text;
use phase_schedule::{Ending, Run};
use schedule_rules::{Final, Line, Turned};
use schedule_text::Page;

/// Runs a schedule to its end, and tells its transcript as it is made. It takes no memory. Where the sink fails the run
/// goes on, so that what was written is the front of a whole transcript.
pub fn tell<K: Sink>(out: &mut K, run: Run, page: Page) -> Result<(), Failed>
    requires new { IsNew run }
    requires clear { page ≡ [] }
    ensures { TellsRun run (K.given out.old) (K.given out.new) (K.faults out.old) (K.faults out.new) result }
{
    let mut run = run;
    let mut page = page;
    page.put_title();
    let told = tell_steps(out, &mut page, &mut run);
    let Ending { finals, exits } = run.finish();
    let told = tell_finals(out, &mut page, told, &finals);
    let told = tell_exits(out, &mut page, told, &exits);
    tell_end(out, &mut page, told)
}

/// Makes all steps, and tells the line of each.
fn tell_steps<K: Sink>(out: &mut K, page: &mut Page, run: &mut Run) -> Result<(), Failed>
    requires new { IsNew run.old }
    ensures { TellsSteps run.old (teller (K.given out.old) (K.faults out.old) page.old (Ok tt)) run.new (teller (K.given out.new) (K.faults out.new) page.new result) }
{
    let mut told = Ok(());
    for number in 0..u64::MAX {
        let Some(line) = run.next_line() else {
            return told;
        };
        told = tell_step(out, page, told, number, &line);
    }
    told
}

/// Tells what each cell is left with.
fn tell_finals<K: Sink>(
    out: &mut K,
    page: &mut Page,
    told: Result<(), Failed>,
    finals: &[Final],
) -> Result<(), Failed>
    ensures { Tells (lines_text (final_lines 0 finals.now)) (teller (K.given out.old) (K.faults out.old) page.old told) (teller (K.given out.new) (K.faults out.new) page.new result) }
{
    let mut told = told;
    for (cell, left) in finals.iter().enumerate() {
        told = tell_final(out, page, told, cell as u64, left);
    }
    told
}

/// Tells the turns of the exit that ended.
fn tell_exits<K: Sink>(
    out: &mut K,
    page: &mut Page,
    told: Result<(), Failed>,
    exits: &[Turned],
) -> Result<(), Failed>
    requires { NoneBusy exits.now }
    ensures { Tells (lines_text (exit_lines exits.now)) (teller (K.given out.old) (K.faults out.old) page.old told) (teller (K.given out.new) (K.faults out.new) page.new result) }
{
    let mut told = told;
    for turned in exits {
        told = tell_exit(out, page, told, turned);
    }
    told
}

/// The page is written, and is clear then.
fn hand_on<K: Sink>(out: &mut K, page: &mut Page, told: Result<(), Failed>) -> Result<(), Failed>
    ensures tells { Tells [] (teller (K.given out.old) (K.faults out.old) page.old told) (teller (K.given out.new) (K.faults out.new) page.new result) }
    ensures clear { page.new ≡ [] }
{
    match told {
        Ok(()) => {
            let told = write_text(out, page.as_bytes());
            page.clear();
            told
        }
        Err(failed) => {
            page.clear();
            Err(failed)
        }
    }
}

/// Makes room for a line: a page that is full is written.
fn turn<K: Sink>(out: &mut K, page: &mut Page, told: Result<(), Failed>) -> Result<(), Failed>
    ensures tells { Tells [] (teller (K.given out.old) (K.faults out.old) page.old told) (teller (K.given out.new) (K.faults out.new) page.new result) }
    ensures room { has_line_room page.new ≡ true }
{
    if page.is_full() {
        hand_on(out, page, told)
    } else {
        told
    }
}

/// Tells the line of the step with this number.
fn tell_step<K: Sink>(
    out: &mut K,
    page: &mut Page,
    told: Result<(), Failed>,
    number: u64,
    line: &Line,
) -> Result<(), Failed>
    ensures { Tells (line_text (step_words number line.now)) (teller (K.given out.old) (K.faults out.old) page.old told) (teller (K.given out.new) (K.faults out.new) page.new result) }
{
    let told = turn(out, page, told);
    page.put_step(number, line);
    told
}

/// Tells what the cell with this number is left with.
fn tell_final<K: Sink>(
    out: &mut K,
    page: &mut Page,
    told: Result<(), Failed>,
    cell: u64,
    left: &Final,
) -> Result<(), Failed>
    ensures { Tells (line_text (final_words cell left.now)) (teller (K.given out.old) (K.faults out.old) page.old told) (teller (K.given out.new) (K.faults out.new) page.new result) }
{
    let told = turn(out, page, told);
    page.put_final(cell, left);
    told
}

/// Tells a turn of the exit that ended.
fn tell_exit<K: Sink>(
    out: &mut K,
    page: &mut Page,
    told: Result<(), Failed>,
    turned: &Turned,
) -> Result<(), Failed>
    requires { turned.now.turn ≢ turn.Busy }
    ensures { Tells (line_text (exit_words turned.now)) (teller (K.given out.old) (K.faults out.old) page.old told) (teller (K.given out.new) (K.faults out.new) page.new result) }
{
    let told = turn(out, page, told);
    page.put_exit(turned);
    told
}

/// Tells the last line, and writes what is left on the page.
fn tell_end<K: Sink>(out: &mut K, page: &mut Page, told: Result<(), Failed>) -> Result<(), Failed>
    ensures tells { Tells (line_text end_words) (teller (K.given out.old) (K.faults out.old) page.old told) (teller (K.given out.new) (K.faults out.new) page.new result) }
    ensures clear { page.new ≡ [] }
{
    let told = turn(out, page, told);
    page.put_end();
    hand_on(out, page, told)
}
