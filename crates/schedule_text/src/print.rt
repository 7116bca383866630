//! Prints a transcript.

ghost use Rattle.std.specs.Prelude.{◌≡◌, ◌≢◌, [], ◌∷◌, ◌++◌, IfOk, OnOk, true};
ghost use Rattle.exit_registry.specs.declared.turns.Turn.TheVariants as turn;
ghost use Rattle.schedule_rules.specs.Exits.{NoneBusy};
ghost use Rattle.schedule_rules.specs.Transcripts.{account_of};
ghost use Rattle.schedule_text.specs.Lines.{lines_text};
ghost use Rattle.schedule_text.specs.Pages.{has_line_room};
ghost use Rattle.schedule_text.specs.TranscriptText.{step_lines, final_lines, exit_words, exit_lines, transcript_text};

mod answer;
mod end;
mod flags;
mod line;
mod numeral;
mod page;
mod phase;

pub use page::Page;
use schedule_rules::{Final, Line, Transcript, Turned};
use std::alloc::{AllocError, Global};

/// The text of a transcript. No turn of its exit is Busy: such a turn has no text.
pub fn print_transcript(alloc: Global, t: &Transcript) -> Result<Vec<u8>, AllocError>
    requires { NoneBusy t.now.exits.items }
    ensures { IfOk result (λ text. text.items ≡ transcript_text (account_of t.now)) }
{
    let mut text = Vec::new(alloc);
    let mut page = Page::new(alloc)?;
    page.put_title();
    print_steps(&mut page, &mut text, &t.lines)?;
    print_finals(&mut page, &mut text, &t.finals)?;
    print_exits(&mut page, &mut text, &t.exits)?;
    page.put_end();
    text.extend_from_slice(page.as_bytes())?;
    Ok(text)
}

/// Prints the lines of steps, numbered from 0.
fn print_steps(page: &mut Page, text: &mut Vec<u8>, lines: &[Line]) -> Result<(), AllocError>
    ensures text { OnOk result (text.new.items ++ page.new ≡ (text.old.items ++ page.old) ++ lines_text (step_lines 0 lines.now)) }
    ensures room { OnOk result (has_line_room page.new ≡ true) }
{
    make_room(page, text)?;
    for (number, line) in lines.iter().enumerate() {
        page.put_step(number as u64, line);
        make_room(page, text)?;
    }
    Ok(())
}

/// Prints the lines of cells, numbered from 0.
fn print_finals(page: &mut Page, text: &mut Vec<u8>, finals: &[Final]) -> Result<(), AllocError>
    ensures text { OnOk result (text.new.items ++ page.new ≡ (text.old.items ++ page.old) ++ lines_text (final_lines 0 finals.now)) }
    ensures room { OnOk result (has_line_room page.new ≡ true) }
{
    make_room(page, text)?;
    for (cell, left) in finals.iter().enumerate() {
        page.put_final(cell as u64, left);
        make_room(page, text)?;
    }
    Ok(())
}

/// Prints the lines of the turns of the exit that ended.
fn print_exits(page: &mut Page, text: &mut Vec<u8>, exits: &[Turned]) -> Result<(), AllocError>
    requires { NoneBusy exits.now }
    ensures text { OnOk result (text.new.items ++ page.new ≡ (text.old.items ++ page.old) ++ lines_text (exit_lines exits.now)) }
    ensures room { OnOk result (has_line_room page.new ≡ true) }
{
    make_room(page, text)?;
    for turned in exits {
        page.put_exit(turned);
        make_room(page, text)?;
    }
    Ok(())
}

/// Makes room for a line: where the page is full, its bytes go to the text.
fn make_room(page: &mut Page, text: &mut Vec<u8>) -> Result<(), AllocError>
    ensures whole { OnOk result (text.new.items ++ page.new ≡ text.old.items ++ page.old) }
    ensures room { OnOk result (has_line_room page.new ≡ true) }
{
    if page.is_full() {
        text.extend_from_slice(page.as_bytes())?;
        page.clear();
    }
    Ok(())
}
