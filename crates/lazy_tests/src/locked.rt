//! Locked lazies in use.

ghost use Rattle.std.specs.Prelude.{◌≡◌, true};

use lazy_cells::{LockedLazy, PrimedLockedLazy};
use phase_bits::{AccessError, Phase};
use phase_locker::{ReadTicket, WriteTicket};
use phase_seq::{Generator, InitError, InitFault};
use std::alloc::Global;
use std::process::Abort;
use std::test::Fail;

/// The ticket that was got. The process ends where none was.
fn got<K>(rt: &impl Abort, answer: Result<K, InitError>) -> K
    ensures { answer ≡ Ok result }
{
    let Ok(ticket) = answer else { rt.abort() };
    ticket
}

/// Why none was got. The process ends where one was.
fn refused<K>(rt: &impl Abort, answer: Result<K, InitError>) -> InitError
    ensures { answer ≡ Err result }
{
    let Err(error) = answer else { rt.abort() };
    error
}

/// The list 1, 2.
fn one_two(alloc: Global) -> Result<Vec<u64>, InitFault> {
    let mut list = Vec::new(alloc);
    for item in [1, 2] {
        if list.push(item).is_err() {
            return Err(InitFault);
        }
    }
    Ok(list)
}

/// Writes one more item to a list.
fn push<G: Generator<Vec<u64>>>(
    rt: &impl Abort,
    lazy: &mut LockedLazy<Vec<u64>, G>,
    mut ticket: WriteTicket,
    item: u64,
)
    requires { lazy.old.writing ≡ true }
    ensures { lazy.new.generator ≡ lazy.old.generator }
{
    if lazy.value_mut(&mut ticket).push(item).is_err() {
        rt.abort()
    }
    lazy.release_write(ticket);
}

#[test]
fn a_list_is_behind_its_lock(rt: HostRuntime) -> Result<(), Fail> {
    let alloc = rt.alloc();
    let mut lazy = LockedLazy::from_generator(|| one_two(alloc));
    let empty = AccessError {
        phase: Phase::empty(),
    };
    assert_eq!(rt; refused(&rt, lazy.try_read()), InitError::Access(empty));
    let ticket = got(&rt, lazy.read());
    lazy.release(ticket);
    let ticket = got(&rt, lazy.write());
    push(&rt, &mut lazy, ticket, 3);
    let ticket = got(&rt, lazy.try_write());
    push(&rt, &mut lazy, ticket, 4);
    let answer = lazy.fast_try_write();
    let Some(told) = answer else { rt.abort() };
    let Ok(ticket) = told else { rt.abort() };
    push(&rt, &mut lazy, ticket, 5);
    let ticket = got(&rt, lazy.read());
    assert!(rt; lazy.look(&ticket).as_slice() == [1, 2, 3, 4, 5].as_slice());
    lazy.release(ticket);
    Ok(())
}

#[test]
fn a_written_cell_is_locked(rt: HostRuntime) {
    let alloc = rt.alloc();
    let mut lazy = LockedLazy::from_generator(|| one_two(alloc));
    let ticket = got(&rt, lazy.write());
    let Ok(text) = format!(in alloc; "{lazy:?}") else {
        rt.abort()
    };
    assert_eq!(rt; text.as_str(), "Locked");
    assert_eq!(rt; lazy.phase(), Phase::empty());
    assert_eq!(rt; lazy.phase_of_write(&ticket), Phase::INITIALIZED);
    lazy.release_write(ticket);
    let ticket = got(&rt, lazy.read());
    assert_eq!(rt; lazy.phase_of(&ticket), Phase::INITIALIZED);
    lazy.release(ticket);
}

#[test]
fn a_primed_value_is_replaced(rt: HostRuntime) {
    let mut lazy = PrimedLockedLazy::from_generator(42, || -> Result<u64, InitFault> { Ok(22) });
    let answer = got(&rt, lazy.primed_read_non_initializing());
    let Err(primed) = answer else { rt.abort() };
    assert_eq!(rt; *lazy.look(&primed), 42);
    lazy.release(primed);
    let ticket = got(&rt, lazy.read());
    assert_eq!(rt; *lazy.look(&ticket), 22);
    lazy.release(ticket);
    let mut ticket = got(&rt, lazy.write());
    lazy.set(&mut ticket, 33);
    lazy.release_write(ticket);
    let ticket = got(&rt, lazy.read());
    assert_eq!(rt; *lazy.look(&ticket), 33);
    lazy.release(ticket);
}
