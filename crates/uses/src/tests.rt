//! Each story, run once.

use crate::{
    Plugin, a_reader_waits, count_together, read_at, read_behind_a_writer, read_by_two,
    run_and_print, run_host, run_in_memory, run_text, serve, take_first, two_parties,
    watch_a_reader,
};
use exit_registry::{Finalizable, Turn, Turned};
use phase_bits::Phase;
use phase_locker::Given;
use phase_run::Status;
use phase_schedule::{HolderLocker, Waiting};
use schedule_rules::{Act, Step};
use std::test::Fail;

/// A schedule of a writer and a reader.
const FINE: &[u8] =
    b"schedule 1\nparties 2\ncell LockedLazy park\nsteps\n0 write 0\n0 made 22\n1 read 0\nend\n";

/// The transcript of a writer and a reader that waits for it.
const TOLD: &[u8] =
    b"transcript 1\n0 running\n1 write-guard\n2 waiting read\ncell 0 Phase (not initialized) none\nend\n";

#[test]
fn the_error_has_the_phase(rt: HostRuntime) -> Result<(), Fail> {
    assert_eq!(rt; read_at(Phase::INITIALIZED_AND_REGISTERED, 7), Ok(7));
    let told = match read_at(Phase::REGISTERED, 7) {
        Ok(_) => return Err("it may not be read".into()),
        Err(error) => format!(in rt.alloc(); "{error}")?,
    };
    assert!(rt; told.as_str() == "Error: inaccessible lazy in Phase (Registered)");
    Ok(())
}

#[test]
fn plugins_stop_in_reverse(rt: HostRuntime) -> Result<(), Fail> {
    let alloc = rt.alloc();
    let runs = Plugin {
        started: true,
        stopped: false,
    };
    let mut plugins: [Box<dyn Finalizable>; 2] = [Box::new(alloc, runs)?, Box::new(alloc, runs)?];
    let log = run_host(alloc, &mut plugins)?;
    let turn = Turn::Done;
    let due = [Turned { cell: 1, turn }, Turned { cell: 0, turn }];
    assert_eq!(rt; log.entries(), due.as_slice());
    Ok(())
}

#[test]
fn both_read_one_value(rt: HostRuntime) -> Result<(), Fail> {
    let seen = read_by_two(rt.alloc(), || 42)?;
    assert!(rt; seen.first == 42 && seen.second == 42 && seen.phase == Phase::INITIALIZED);
    Ok(())
}

#[test]
fn the_lock_goes_to_the_reader(rt: HostRuntime) -> Result<(), Fail> {
    let barred = read_behind_a_writer(rt.alloc())?;
    assert!(rt; barred.waiting == Waiting::ParkedRead && barred.given == Given::Readers);
    Ok(())
}

#[test]
fn the_engine_shows_who_waits(rt: HostRuntime) -> Result<(), Fail> {
    let plan = two_parties(rt.alloc())?;
    let (waiting, transcript) = watch_a_reader::<HolderLocker>(rt.alloc(), &plan)?;
    assert!(rt; waiting == Waiting::ParkedRead && transcript.lines.len() == 3);
    Ok(())
}

#[test]
fn the_transcript_is_printed(rt: HostRuntime) -> Result<(), Fail> {
    let plan = two_parties(rt.alloc())?;
    let text = run_and_print(rt.alloc(), &plan, &a_reader_waits())?;
    assert!(rt; text.as_slice() == TOLD);
    Ok(())
}

#[test]
fn the_program_runs_in_memory(rt: HostRuntime) -> Result<(), Fail> {
    let alloc = rt.alloc();
    let mut text = Vec::new(alloc);
    text.extend_from_slice(FINE)?;
    let ended = run_in_memory(alloc, text, 1000)?;
    assert!(rt; ended.status == Status::Done && ended.written.as_slice() == TOLD);
    Ok(())
}

#[test]
fn errors_are_told(rt: HostRuntime) -> Result<(), Fail> {
    let alloc = rt.alloc();
    assert!(rt; run_text(alloc, FINE)?.as_slice() == TOLD);
    for (text, wanted) in [
        (
            b"schedule 2\n".as_slice(),
            "the text is no schedule: bad line 0",
        ),
        (
            b"schedule 1\nparties 1\nsteps\n0 read 0\nend\n".as_slice(),
            "the schedule does not run: unknown cell at step 0",
        ),
    ] {
        let told = match run_text(alloc, text) {
            Ok(_) => return Err("it does not run".into()),
            Err(error) => format!(in alloc; "{error}")?,
        };
        assert!(rt; told.as_str() == wanted);
    }
    Ok(())
}

#[test]
fn no_addition_is_lost(rt: HostRuntime) -> Result<(), Fail> {
    assert_eq!(rt; count_together(&rt, rt.alloc(), 1000)?, (2000, 2000));
    Ok(())
}

#[test]
fn a_service_starts_and_stops(rt: HostRuntime) -> Result<(), Fail> {
    let Ok(served) = serve(rt.alloc()) else {
        return Err("it runs".into());
    };
    assert_eq!(rt; served.connections, 1);
    let turn = Turn::Done;
    let due = [Turned { cell: 0, turn }];
    assert_eq!(rt; served.log.entries(), due.as_slice());
    Ok(())
}

#[test]
fn the_first_step_is_taken(rt: HostRuntime) -> Result<(), Fail> {
    let value = 9;
    let first = Step {
        party: 3,
        act: Act::Made { value },
    };
    let second = Step {
        party: 4,
        act: Act::Exit,
    };
    let (taken, left) = take_first(rt.alloc(), &[first, second])?;
    assert_eq!(rt; taken, Some(first));
    assert_eq!(rt; left, 1);
    Ok(())
}
