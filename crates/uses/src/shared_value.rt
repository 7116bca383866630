//! A value that two parties read, and that the first of them makes.

ghost use Rattle.std.specs.Prelude.{◌≡◌, IfOk};
ghost use Rattle.phase_bits.specs.Number.{number};

use phase_bits::Phase;
use phase_locker::{HolderLocker, LockerKind, Parks, PhaseLocker, Who};
use phase_seq::{Ask, Begun, DefaultGenerator, Finished, LazySequentializer, Want, tolerance_of};
use std::alloc::{AllocError, Global};

/// What two parties read, and the phase of the cell then.
#[derive(Clone, Copy, PartialEq, Eq, Debug)]
pub struct Seen {
    pub first: u64,
    pub second: u64,
    pub phase: Phase,
}

/// Two parties read a cell. The generator is an `FnOnce`, so it runs once; both see what it made.
pub fn read_by_two<F: FnOnce() -> u64>(alloc: Global, make: F) -> Result<Seen, AllocError>
    requires { F.IsAlwaysCallable make }
    ensures made { IfOk result (λ seen. F.post make seen.first) }
    ensures shared { IfOk result (λ seen. seen.second ≡ seen.first) }
    ensures phase { IfOk result (λ seen. number seen.phase ≡ 1) }
{
    let [first, second] = [0, 1].map(|party| Who { cell: 0, party });
    let ask = Ask {
        want: Want::Read,
        fast: false,
        tol: tolerance_of::<DefaultGenerator>(),
    };
    // Rows for one cell and two parties, of which none waits, and a cell whose generator nobody runs.
    let mut parks = Parks::new(alloc, 1, 2)?;
    let locker = HolderLocker::new(LockerKind::Spin, Phase::empty());
    let mut cell: LazySequentializer<HolderLocker, ()> = LazySequentializer::new(locker);
    // Party 0 finds the cell empty, so it is to run the generator: no other answer comes.
    let (begun, _) = cell.begin(&mut parks, first, ask, None);
    let Begun::Run(section) = begun else {
        unreachable!()
    };
    let value = make();
    let (finished, _) = cell.finish(&mut parks, section, true);
    let Finished::Read(ticket, _) = finished else {
        unreachable!()
    };
    let first = value;
    cell.locker_mut().release_read(&mut parks, 0, ticket);
    // Party 1 finds the value there, and gets a lock to read at once.
    let (begun, _) = cell.begin(&mut parks, second, ask, None);
    let Begun::Read(ticket, phase) = begun else {
        unreachable!()
    };
    let second = value;
    cell.locker_mut().release_read(&mut parks, 0, ticket);
    Ok(Seen {
        first,
        second,
        phase,
    })
}
