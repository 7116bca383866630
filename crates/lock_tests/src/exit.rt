//! The exit over boxed objects.

ghost use Rattle.std.specs.Prelude.{◌≡◌, [], ◌<◌, length};
ghost use Rattle.exit_registry.specs.Turns.{Meanings};

use exit_registry::{ExitRegistry, Finalizable, Log, Look, Turn, Turned};
use std::alloc::{AllocError, Global};
use std::process::Abort;
use std::test::Fail;

/// An object with a turn. Its finalizer fails where it is to fail, and whenever it runs a second time.
#[derive(Clone, Copy, Debug)]
struct Fake {
    initialized: bool,
    held: bool,
    finalized: bool,
    failed: bool,
    fails: bool,
}

/// An object whose finalizer succeeds.
const FINE: Fake = Fake {
    initialized: true,
    held: false,
    finalized: false,
    failed: false,
    fails: false,
};

impl Finalizable for Fake {
    ghost meanings = { λ f. record { initialized = f.initialized; held = f.held; finalized = f.finalized; failed = f.failed } };

    fn execute(&mut self) -> Turn {
        if !self.initialized {
            return Turn::Skipped;
        }
        if self.held {
            return Turn::Busy;
        }
        if self.fails {
            self.failed = true;
            return Turn::Failed;
        }
        self.fails = true;
        self.finalized = true;
        Turn::Done
    }
}

/// Registers these cells in this order. The process ends where one cannot be registered.
fn register_all(rt: &impl Abort, registry: &mut ExitRegistry, cells: &[u32]) {
    for cell in cells {
        if *cell >= registry.cells() || registry.knows(*cell) || !registry.register(*cell) {
            rt.abort()
        }
    }
}

/// Runs the exit. The process ends where there are not as many objects as cells.
fn run(
    rt: &impl Abort,
    alloc: Global,
    registry: &mut ExitRegistry,
    objects: &mut [Box<dyn Finalizable>],
) -> Result<Log, AllocError> {
    let cells = registry.cells();
    if objects.len() != cells as usize {
        rt.abort()
    }
    let mut log = Log::new(alloc, cells)?;
    registry.run_exit(objects, &mut log);
    Ok(log)
}

#[test]
fn the_latest_is_done_and_the_first_fails(rt: HostRuntime) -> Result<(), Fail> {
    let mut registry = ExitRegistry::new(rt.alloc(), 2)?;
    let mut objects: Vec<Box<dyn Finalizable>> = Vec::new(rt.alloc());
    for fake in [
        Fake {
            fails: true,
            ..FINE
        },
        FINE,
    ] {
        objects.push(Box::new(rt.alloc(), fake)?)?;
    }
    register_all(&rt, &mut registry, &[0, 1]);
    let log = run(&rt, rt.alloc(), &mut registry, &mut objects)?;
    let due = [
        Turned {
            cell: 1,
            turn: Turn::Done,
        },
        Turned {
            cell: 0,
            turn: Turn::Failed,
        },
    ];
    assert_eq!(rt; log.entries(), due.as_slice());
    assert!(rt; !registry.is_open());
    Ok(())
}

#[test]
fn each_object_has_its_turn_once(rt: HostRuntime) -> Result<(), Fail> {
    let mut registry = ExitRegistry::new(rt.alloc(), 5)?;
    let mut objects: Vec<Box<dyn Finalizable>> = Vec::new(rt.alloc());
    let empty = Fake {
        initialized: false,
        ..FINE
    };
    let held = Fake { held: true, ..FINE };
    for fake in [FINE, empty, held, FINE, FINE] {
        objects.push(Box::new(rt.alloc(), fake)?)?;
    }
    register_all(&rt, &mut registry, &[0, 1]);
    assert_eq!(rt; registry.next_turn(), None);
    assert_eq!(rt; registry.look(), Look::Round(2));
    register_all(&rt, &mut registry, &[2, 3]);
    let log = run(&rt, rt.alloc(), &mut registry, &mut objects)?;
    let due = [
        Turned {
            cell: 1,
            turn: Turn::Skipped,
        },
        Turned {
            cell: 0,
            turn: Turn::Done,
        },
        Turned {
            cell: 3,
            turn: Turn::Done,
        },
        Turned {
            cell: 2,
            turn: Turn::Busy,
        },
    ];
    assert_eq!(rt; log.entries(), due.as_slice());
    for (cell, second) in [
        (0, Turn::Failed),
        (1, Turn::Skipped),
        (2, Turn::Busy),
        (3, Turn::Failed),
        (4, Turn::Done),
    ] {
        match objects.get_mut(cell) {
            Some(object) => assert_eq!(rt; object.execute(), second, "at {cell}"),
            None => return Err("no object".into()),
        }
    }
    Ok(())
}
